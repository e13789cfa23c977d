//! A run of pages put into a set of pages, or taken out of it.
//!
//! A set is a slice with one test a page. A call costs the pages of its run and takes no memory.

ghost use Rattle.std.specs.Prelude.{◌≡◌, ◌+◌, ◌≤◌, length, true, false};
ghost use Rattle.block_model.specs.Block.{with_run, count_of};

/// How many pages are in the set.
pub fn count_pages(pages: &[bool]) -> usize
    ensures { result ≡ count_of pages.now }
{
    pages.iter().filter(|is_in| **is_in).count()
}

/// Puts the `n` pages from `first` on into the set, and returns how many of them weren't in it.
pub fn insert_run(pages: &mut [bool], first: u32, n: u32) -> u32
    requires { first + n ≤ length pages.old }
    ensures pages { pages.new ≡ with_run pages.old first n true }
    ensures added { count_of pages.new ≡ count_of pages.old + result }
{
    let from = first as usize;
    let to = from + n as usize;
    let run = &mut pages[from..to];
    let present = count_pages(run);
    run.fill(true);
    n - present as u32
}

/// Takes the `n` pages from `first` on out of the set, and returns how many of them were in it.
pub fn remove_run(pages: &mut [bool], first: u32, n: u32) -> u32
    requires { first + n ≤ length pages.old }
    ensures pages { pages.new ≡ with_run pages.old first n false }
    ensures removed { count_of pages.new + result ≡ count_of pages.old }
{
    let from = first as usize;
    let to = from + n as usize;
    let run = &mut pages[from..to];
    let present = count_pages(run);
    run.fill(false);
    present as u32
}
