//! Numbers and zeros at a place of a row of bytes. A number has its highest byte first.

ghost use Rattle.std.specs.Prelude.{◌≡◌, ◌+◌, ◌-◌, ◌≤◌, ◌↔◌, ◌++◌, length, take, drop, replicate};
ghost use Rattle.std.specs.Prelude.{IsTrue};
ghost use Rattle.std.specs.Int.{w16, w32, w64, from_be_bytes};

use byteorder::{BigEndian, ByteOrder};

/// The number in the 2 bytes from place `at` on.
pub fn u16_at(bytes: &[u8], at: usize) -> u16
    requires { at + 2 ≤ length bytes.now }
    ensures { result ≡ from_be_bytes w16 (drop at bytes.now) }
{
    BigEndian::read_u16(&bytes[at..])
}

/// The number in the 4 bytes from place `at` on.
pub fn u32_at(bytes: &[u8], at: usize) -> u32
    requires { at + 4 ≤ length bytes.now }
    ensures { result ≡ from_be_bytes w32 (drop at bytes.now) }
{
    BigEndian::read_u32(&bytes[at..])
}

/// The number in the 8 bytes from place `at` on.
pub fn u64_at(bytes: &[u8], at: usize) -> u64
    requires { at + 8 ≤ length bytes.now }
    ensures { result ≡ from_be_bytes w64 (drop at bytes.now) }
{
    BigEndian::read_u64(&bytes[at..])
}

/// Are all bytes from place `at` on zeros?
pub fn is_blank_from(bytes: &[u8], at: usize) -> bool
    requires { at ≤ length bytes.now }
    ensures { IsTrue result ↔ (drop at bytes.now ≡ replicate (length bytes.now - at) 0) }
{
    bytes[at..].iter().all(|byte| *byte == 0)
}

/// Writes bytes over the first ones.
pub fn put_first(page: &mut [u8], bytes: &[u8])
    requires { length bytes.now ≤ length page.old }
    ensures { take (length bytes.now) page.new ≡ bytes.now }
{
    page[..bytes.len()].copy_from_slice(bytes);
}

/// Writes zeros from place `at` on.
pub fn clear_from(page: &mut [u8], at: usize)
    requires { at ≤ length page.old }
    ensures { page.new ≡ take at page.old ++ replicate (length page.old - at) 0 }
{
    page[at..].fill(0);
}
