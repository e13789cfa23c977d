//! A set of pages as a bitmap: eight pages a byte, the first of them its highest bit.

ghost use Rattle.std.specs.Prelude.{◌≡◌, ◌+◌, ◌*◌, ◌/◌, ◌^◌, ◌≤◌, length, IfOk};
ghost use Rattle.block_model.specs.Bitmap.{byte_of, packed, pages_of, unpacked, weight_of};

use std::alloc::{AllocError, Global};

/// Writes the bitmap of a set, whose pages fill it.
pub fn pack(pages: &[bool], out: &mut [u8])
    requires { length pages.now ≡ 8 * length out.old }
    ensures { out.new ≡ packed (length out.old) pages.now }
{
    for i in 0..out.len() {
        out[i] = byte_at(&pages[8 * i..]);
    }
}

/// The byte of the first eight pages.
fn byte_at(pages: &[bool]) -> u8
    requires { 8 ≤ length pages.now }
    ensures { result ≡ byte_of pages.now }
{
    let high = weight(pages[0], 128) + weight(pages[1], 64) + weight(pages[2], 32);
    let middle = weight(pages[3], 16) + weight(pages[4], 8);
    high + middle + weight(pages[5], 4) + weight(pages[6], 2) + weight(pages[7], 1)
}

/// What one page adds to its byte.
fn weight(is_in: bool, weight: u8) -> u8
    ensures value { result ≡ weight_of is_in weight }
    ensures most { result ≤ weight }
{
    if is_in { weight } else { 0 }
}

/// The set of a bitmap, with room for no more pages.
pub fn unpack(alloc: Global, bits: &[u8]) -> Result<Vec<bool>, AllocError>
    requires { length bits.now ≤ 2 ^ 11 }
    ensures { IfOk result (λ pages. pages.items ≡ unpacked bits.now) }
{
    let mut pages = Vec::with_capacity(alloc, 8 * bits.len())?;
    for byte in bits {
        pages.extend_from_slice(&pages_in(*byte))?;
    }
    Ok(pages)
}

/// The eight pages of a byte.
fn pages_in(byte: u8) -> [bool; 8]
    ensures { result ≡ pages_of byte }
{
    [
        byte / 128 % 2 == 1,
        byte / 64 % 2 == 1,
        byte / 32 % 2 == 1,
        byte / 16 % 2 == 1,
        byte / 8 % 2 == 1,
        byte / 4 % 2 == 1,
        byte / 2 % 2 == 1,
        byte % 2 == 1,
    ]
}
