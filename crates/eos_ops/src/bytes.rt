//! A string of bytes that contracts see as a list, and the four changes that edits make to it.

ghost use Rattle.std.specs.Prelude.{◌≡◌, ℕ, ◌+◌, ◌<◌, ◌≤◌, ◌==◌, [], ◌++◌, length, take, drop};
ghost use Rattle.std.specs.Prelude.{nat_le, OnOk, OnErr, IfOk};
ghost use Rattle.eos_ops.specs.Splice.{part, inserted, deleted, replaced};

use std::alloc::{AllocError, Global};
use std::marker::Model;

/// A string of bytes. In contracts it is the list of its bytes.
#[derive(Debug, Drop)]
pub struct Bytes {
    items: Vec<u8>,
}

impl Model for Bytes {
    ghost use Rattle.std.specs.Prelude.{List, ℕ};

    ghost Value = { List ℕ };

    ghost view = { λ b. b.items.items };
}

impl Bytes {
    /// No bytes. It takes no memory.
    pub fn new(alloc: Global) -> Self
        ensures { result ≡ [] }
    {
        Bytes {
            items: Vec::new(alloc),
        }
    }

    /// The bytes of a vector, which is moved.
    pub fn from_vec(items: Vec<u8>) -> Self
        ensures { result ≡ items.items }
    {
        Bytes { items }
    }

    /// The vector, which is moved.
    pub fn into_vec(self) -> Vec<u8>
        ensures { result.items ≡ self }
    {
        let Bytes { items } = self;
        items
    }

    /// All bytes, where they lie.
    pub fn as_slice(&self) -> &[u8]
        ensures { result.now ≡ self.now }
    {
        &self.items
    }

    /// How many bytes there are.
    pub fn len(&self) -> u64
        ensures { result ≡ length self.now }
    {
        self.items.len() as u64
    }

    /// Whether there are none.
    pub fn is_empty(&self) -> bool
        ensures { result ≡ (length self.now == 0) }
    {
        self.items.is_empty()
    }

    /// Whether the `len` bytes from `at` on are there.
    pub fn has_range(&self, at: u64, len: u64) -> bool
        ensures { result ≡ nat_le (at + len) (length self.now) }
    {
        let end = self.len();
        at <= end && len <= end - at
    }

    /// A copy of the `len` bytes from `at` on.
    ///
    /// `AllocError` says that there was no memory for it. A copy of no bytes takes none.
    pub fn read(&self, alloc: Global, at: u64, len: u64) -> Result<Bytes, AllocError>
        requires { at + len ≤ length self.now }
        ensures copy { IfOk result (λ copy. copy ≡ part self.now at len) }
        ensures memory { OnErr result (0 < len) }
    {
        let (at, len) = (at as usize, len as usize);
        let mut items = Vec::with_capacity(alloc, len)?;
        items.extend_from_slice(&self.items[at..at + len])?;
        Ok(Bytes { items })
    }

    /// Puts bytes at the end.
    ///
    /// `AllocError` says that there was no memory for them, and leaves the bytes as they were.
    pub fn append(&mut self, bytes: &[u8]) -> Result<(), AllocError>
        ensures ok { OnOk result (self.new ≡ self.old ++ bytes.now) }
        ensures memory { OnErr result (0 < length bytes.now) }
        ensures err { OnErr result (self.new ≡ self.old) }
    {
        self.items.extend_from_slice(bytes)
    }

    /// Puts bytes before the one at `at`, or at the end where `at` is the length.
    ///
    /// `AllocError` says that there was no memory for them, and leaves the bytes as they were.
    pub fn insert(&mut self, at: u64, bytes: &[u8]) -> Result<(), AllocError>
        requires { at ≤ length self.old }
        ensures ok { OnOk result (self.new ≡ inserted self.old at bytes.now) }
        ensures memory { OnErr result (0 < length bytes.now) }
        ensures err { OnErr result (self.new ≡ self.old) }
    {
        self.items.extend_from_slice(bytes)?;
        self.items[at as usize..].rotate_right(bytes.len());
        Ok(())
    }

    /// Takes out the `len` bytes at `at`. It takes no memory.
    pub fn delete(&mut self, at: u64, len: u64)
        requires { at + len ≤ length self.old }
        ensures { self.new ≡ deleted self.old at len }
    {
        let kept = self.items.len() - len as usize;
        self.items[at as usize..].rotate_left(len as usize);
        self.items.truncate(kept);
    }

    /// Exchanges the bytes at `at` for others, as many as these. It takes no memory.
    pub fn replace(&mut self, at: u64, bytes: &[u8])
        requires { at + length bytes.now ≤ length self.old }
        ensures { self.new ≡ replaced self.old at bytes.now }
    {
        let at = at as usize;
        self.items[at..at + bytes.len()].copy_from_slice(bytes);
    }
}
