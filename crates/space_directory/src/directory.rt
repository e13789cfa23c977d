//! The bytes of a directory page.

ghost use Rattle.std.specs.Prelude.{◌≡◌, ◌+◌, ◌-◌, ◌*◌, ◌/◌, ◌≤◌, ◌++◌, ◌^◌, ◌↔◌, length, take};
ghost use Rattle.std.specs.Prelude.{replicate, IfOk, Err, IsTrue};
ghost use Rattle.block_model.specs.Bitmap.{packed};
ghost use Rattle.block_model.specs.Directory.{directory_page};
ghost use Rattle.space_directory.specs.Opening.{IsDirectory, IsSpaceSize};

use crate::refused::SpaceFail;
use buddy_map::BuddyMap;
use std::alloc::Global;

/// The mark of a directory page.
const MARK: [u8; 4] = *b"DIR1";

/// How many bytes come before the bitmap.
pub const HEAD: usize = 16;

/// Writes the directory page of a space with `pages` pages: the mark, the number of the space, the
/// count of free pages, a zero, the bitmap of the free pages, and zeros to the end.
pub fn write_directory(out: &mut [u8], space: u16, map: &BuddyMap, pages: usize)
    requires size { length map.now ≡ pages }
    requires whole { 8 * (pages / 8) ≡ pages }
    requires fits { 16 + pages / 8 ≤ length out.old }
    ensures { out.new ≡ directory_page (length out.old) space map.now }
{
    put_word(out, 0, MARK);
    put_word(out, 4, u32::from(space).to_be_bytes());
    put_word(out, 8, map.count().to_be_bytes());
    put_word(out, 12, [0; 4]);
    put_bitmap(out, HEAD, map, pages / 8);
    put_zeros(out, HEAD + pages / 8);
}

/// Reads the free pages of a space of `2^order` pages off its directory page, of `size` bytes.
/// `BadDirectory` comes only where the page is no directory page of the space.
pub fn read_map(
    alloc: Global,
    size: u32,
    order: u8,
    space: u16,
    page: &[u8],
) -> Result<BuddyMap, SpaceFail>
    requires { IsSpaceSize order size }
    ensures size { IfOk result (λ map. length map ≡ 2 ^ order) }
    ensures encoded { IfOk result (λ map. page.now ≡ directory_page size space map) }
    ensures bad { result ≡ Err SpaceFail.BadDirectory → IsDirectory page.now size space order → ⊥ }
{
    if page.len() != size as usize {
        return Err(SpaceFail::BadDirectory);
    }
    let pages = 1usize << order;
    let Ok(map) = BuddyMap::from_bits(alloc, order, &page[HEAD..HEAD + pages / 8]) else {
        return Err(SpaceFail::Memory);
    };
    if is_directory(page, space, &map, pages) {
        Ok(map)
    } else {
        Err(SpaceFail::BadDirectory)
    }
}

/// Whether a page is the directory page of these free pages: whether writing that gives the same.
fn is_directory(page: &[u8], space: u16, map: &BuddyMap, pages: usize) -> bool
    requires size { length map.now ≡ pages }
    requires whole { 8 * (pages / 8) ≡ pages }
    requires fits { 16 + pages / 8 ≤ length page.now }
    requires most { length page.now ≤ 4096 }
    ensures { IsTrue result ↔ (page.now ≡ directory_page (length page.now) space map.now) }
{
    let mut room = [0; 4096];
    let expected = &mut room[..page.len()];
    write_directory(expected, space, map, pages);
    page == expected
}

/// Writes four bytes at a place.
fn put_word(out: &mut [u8], at: usize, word: [u8; 4])
    requires { at + 4 ≤ length out.old }
    ensures { take (at + 4) out.new ≡ take at out.old ++ word }
{
    out[at..at + 4].copy_from_slice(&word);
}

/// Writes the bitmap of the free pages, of `bytes` bytes, at a place.
fn put_bitmap(out: &mut [u8], at: usize, map: &BuddyMap, bytes: usize)
    requires fits { at + bytes ≤ length out.old }
    requires whole { 8 * bytes ≡ length map.now }
    ensures { take (at + bytes) out.new ≡ take at out.old ++ packed bytes map.now }
{
    map.to_bits(&mut out[at..at + bytes]);
}

/// Writes zeros from a place to the end.
fn put_zeros(out: &mut [u8], at: usize)
    requires { at ≤ length out.old }
    ensures { out.new ≡ take at out.old ++ replicate (length out.old - at) 0 }
{
    out[at..].fill(0);
}
