//! A line of the output, put together before it goes out.
ghost use Rattle.std.specs.Prelude.{◌≡◌, ◌+◌, ◌*◌, ◌≤◌, [], ◌++◌, length, decimal};
ghost use Rattle.hex.specs.Hex.{encode_lower};

use itoa::Buffer;
use std::marker::Model;

/// The most bytes of a draft, and of a call of the sink that a long line takes.
pub const CAPACITY: usize = 4096;

/// Bytes of a line that are not written yet, at most 4096. It lies on the stack. In contracts it is
/// their list.
#[derive(Drop)]
pub struct Draft {
    bytes: [u8; CAPACITY],
    len: usize,
}

impl Model for Draft {
    ghost use Rattle.std.specs.Prelude.{List, ℕ, take, ◌≤◌};
    ghost use Rattle.script_text.specs.declared.draft.TheConstants.{CAPACITY};

    ghost Value = { List ℕ };

    ghost view = { λ d. take d.len d.bytes };

    ghost invariant = { λ d. d.len ≤ CAPACITY };
}

impl Draft {
    /// No bytes.
    pub fn new() -> Draft
        ensures { result ≡ [] }
    {
        Draft {
            bytes: [0; CAPACITY],
            len: 0,
        }
    }

    /// How many bytes there are.
    pub(crate) fn len(&self) -> usize
        ensures value { result ≡ length self.now }
        ensures within { length self.now ≤ CAPACITY }
    {
        self.len
    }

    /// All bytes.
    pub(crate) fn as_slice(&self) -> &[u8]
        ensures { result.now ≡ self.now }
    {
        &self.bytes[..self.len]
    }

    /// Forgets all bytes.
    pub(crate) fn clear(&mut self)
        ensures { self.new ≡ [] }
    {
        self.len = 0;
    }

    /// Puts bytes at the end.
    pub(crate) fn push(&mut self, text: &[u8])
        requires { length self.old + length text.now ≤ CAPACITY }
        ensures text { self.new ≡ self.old ++ text.now }
        ensures len { length self.new ≡ length self.old + length text.now }
    {
        let end = self.len + text.len();
        self.bytes[self.len..end].copy_from_slice(text);
        self.len = end;
    }

    /// Puts a number at the end, in decimal digits.
    pub(crate) fn push_number(&mut self, number: u64)
        requires { length self.old + 20 ≤ CAPACITY }
        ensures text { self.new ≡ self.old ++ decimal number }
        ensures len { length self.new ≤ length self.old + 20 }
    {
        let mut buffer = Buffer::new();
        self.push(buffer.format(number).as_bytes());
    }

    /// Puts bytes at the end, each as two hexadecimal digits.
    pub(crate) fn push_hex(&mut self, bytes: &[u8])
        requires { length self.old + 2 * length bytes.now ≤ CAPACITY }
        ensures text { self.new ≡ self.old ++ encode_lower bytes.now }
    {
        let end = self.len + 2 * bytes.len();
        let _ = hex::encode_to_slice(bytes, &mut self.bytes[self.len..end]);
        self.len = end;
    }
}
