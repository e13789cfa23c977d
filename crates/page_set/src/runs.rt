//! Runs of pages over the words that they lie in.

ghost use Rattle.std.specs.Prelude.{◌≡◌, ℕ, ◌+◌, ◌%◌, ◌^◌, ◌<◌, ◌≤◌, false, IsTrue, IsOk, OnOk};
ghost use Rattle.page_set.specs.Members.{count_on, AllOn, AreSame, IsWithRun, IsWithoutRun, Keeps};
ghost use Rattle.page_set.specs.Words.{has_room, has_word, in_words};

use crate::words::{cut_pages, cut_side_by_side, has_page, make_word, put_pages};
use std::alloc::AllocError;
use std::cmp::min;
use std::collections::BTreeMap;

/// Makes room for a run: each of its pages has its word.
///
/// # Errors
/// There was no memory: the set is as it was, and maybe some of the words are there.
pub fn make_room(words: &mut BTreeMap<u32, u64>, first: u32, n: u32) -> Result<(), AllocError>
    requires within { first + n < 2 ^ 32 }
    ensures room { OnOk result (AllOn (has_room words.new) first n) }
    ensures same { AreSame (in_words words.old) (in_words words.new) }
    ensures keeps { Keeps (has_word words.old) (has_word words.new) }
    ensures enough { AllOn (has_room words.old) first n → IsOk result }
{
    if n == 0 {
        return Ok(());
    }
    for key in first / 64..(first + n - 1) / 64 + 1 {
        make_word(words, key)?;
    }
    Ok(())
}

/// How many of the pages from `at` on, and before `end`, lie in the word of `at`.
fn step(at: u32, end: u32) -> u32
    requires { at < end }
    ensures some { 1 ≤ result }
    ensures within { at + result ≤ end }
    ensures one { at % 64 + result ≤ 64 }
{
    min(end - at, 64 - at % 64)
}

/// Puts a run in, and returns how many of its pages weren't there. It takes no memory.
pub fn put_run(words: &mut BTreeMap<u32, u64>, first: u32, n: u32) -> u32
    requires within { first + n < 2 ^ 32 }
    requires room { AllOn (has_room words.old) first n }
    ensures put { IsWithRun first n (in_words words.old) (in_words words.new) }
    ensures room { AreSame (has_word words.old) (has_word words.new) }
    ensures size { result + count_on (in_words words.old) first n ≡ n }
{
    let mut added = 0;
    let mut at = first;
    while at < first + n {
        let pages = step(at, first + n);
        added += put_pages(words, at, pages);
        at += pages;
    }
    added
}

/// Takes a run out, and returns how many of its pages were there. It takes no memory.
pub fn cut_run(words: &mut BTreeMap<u32, u64>, first: u32, n: u32) -> u32
    requires within { first + n < 2 ^ 32 }
    ensures cut { IsWithoutRun first n (in_words words.old) (in_words words.new) }
    ensures room { AreSame (has_word words.old) (has_word words.new) }
    ensures size { result ≡ count_on (in_words words.old) first n }
{
    let mut removed = 0;
    let mut at = first;
    while at < first + n {
        let pages = step(at, first + n);
        removed += cut_pages(words, at, pages);
        at += pages;
    }
    removed
}

/// Takes out the pages from `first` on that stand side by side, and returns how many they are. It
/// takes no memory.
pub fn cut_first_run(words: &mut BTreeMap<u32, u64>, first: u32) -> u32
    requires bound { (page : ℕ) → IsTrue (in_words words.old page) → page + 1 < 2 ^ 32 }
    requires some { IsTrue (in_words words.old first) }
    ensures some { 1 ≤ result }
    ensures all { AllOn (in_words words.old) first result }
    ensures ends { in_words words.old (first + result) ≡ false }
    ensures cut { IsWithoutRun first result (in_words words.old) (in_words words.new) }
{
    let mut at = first;
    while has_page(words, at) {
        at += cut_side_by_side(words, at);
    }
    at - first
}
