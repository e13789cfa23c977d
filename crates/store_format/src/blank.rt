//! The directory page of a space whose pages are all free.

ghost use Rattle.std.specs.Prelude.{◌≡◌, ◌+◌, ◌-◌, ◌*◌, ◌/◌, ◌≤◌, ◌++◌, length, take, replicate, true};
ghost use Rattle.block_model.specs.Directory.{directory_page};
ghost use Rattle.store_format.specs.Blank.{full_directory};

/// The mark of a directory page.
const MARK: [u8; 4] = *b"DIR1";

/// How many bytes come before the bitmap.
const HEAD: usize = 16;

/// Writes the directory page of a space of `pages` pages, all of them free. It takes no memory.
pub fn write_blank_directory(out: &mut [u8], space: u16, pages: u32)
    requires whole { 8 * (pages / 8) ≡ pages }
    requires fits { 16 + pages / 8 ≤ length out.old }
    ensures { out.new ≡ directory_page (length out.old) space (replicate pages true) }
{
    write_full(out, space, pages);
}

/// Writes the mark, the number of the space, the count of free pages, a zero, a bitmap of ones, and
/// zeros to the end.
fn write_full(out: &mut [u8], space: u16, pages: u32)
    requires { 16 + pages / 8 ≤ length out.old }
    ensures { out.new ≡ full_directory (length out.old) space pages }
{
    let bitmap = pages as usize / 8;
    put_word(out, 0, MARK);
    put_word(out, 4, u32::from(space).to_be_bytes());
    put_word(out, 8, pages.to_be_bytes());
    put_word(out, 12, [0; 4]);
    put_ones(out, HEAD, bitmap);
    put_zeros(out, HEAD + bitmap);
}

/// Writes four bytes at a place.
fn put_word(out: &mut [u8], at: usize, word: [u8; 4])
    requires { at + 4 ≤ length out.old }
    ensures { take (at + 4) out.new ≡ take at out.old ++ word }
{
    out[at..at + 4].copy_from_slice(&word);
}

/// Writes `count` bytes of ones at a place.
fn put_ones(out: &mut [u8], at: usize, count: usize)
    requires { at + count ≤ length out.old }
    ensures { take (at + count) out.new ≡ take at out.old ++ replicate count 255 }
{
    out[at..at + count].fill(255);
}

/// Writes zeros from a place to the end.
pub fn put_zeros(out: &mut [u8], at: usize)
    requires { at ≤ length out.old }
    ensures { out.new ≡ take at out.old ++ replicate (length out.old - at) 0 }
{
    out[at..].fill(0);
}
