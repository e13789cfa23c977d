//! The words of a set: looks, and changes within one word.

ghost use Rattle.std.specs.Prelude.{◌≡◌, ℕ, ◌+◌, ◌%◌, ◌^◌, ◌<◌, ◌≤◌, false, IsTrue, IfSome, IfNone};
ghost use Rattle.std.specs.Prelude.{IsOk, OnOk, Some};
ghost use Rattle.std.specs.Ordering.{nat_cmp};
ghost use Rattle.std.specs.BTreeMap.{get};
ghost use Rattle.page_set.specs.Members.{count_on, AllOn, AreSame, IsWithRun, IsWithoutRun};
ghost use Rattle.page_set.specs.Words.{has_word, in_words, has_room, word};

use crate::bits::{count_bits, has_bit, lowest_bit, run_of_bits, with_bits, without_bits};
use std::alloc::AllocError;
use std::collections::BTreeMap;

/// The word of a number, 0 where there is none.
fn word_at(words: &BTreeMap<u32, u64>, key: u32) -> u64
    ensures { result ≡ word words.now key }
{
    words.get(&key).copied().unwrap_or(0)
}

/// Writes a word that is there. It takes no memory.
fn write(words: &mut BTreeMap<u32, u64>, key: u32, new: u64)
    requires { IsTrue (has_word words.old key) }
    ensures written { get nat_cmp words.new key ≡ Some new }
    ensures others { (k : ℕ) → (k ≡ key → ⊥) → get nat_cmp words.new k ≡ get nat_cmp words.old k }
{
    let _ = words.insert(key, new);
}

/// Makes room for the pages of one word.
///
/// # Errors
/// There was no memory: nothing changed.
pub fn make_word(words: &mut BTreeMap<u32, u64>, key: u32) -> Result<(), AllocError>
    ensures there { OnOk result (IsTrue (has_word words.new key)) }
    ensures same { (k : ℕ) → word words.new k ≡ word words.old k }
    ensures keeps { (k : ℕ) → IsTrue (has_word words.old k) → IsTrue (has_word words.new k) }
    ensures enough { IsTrue (has_word words.old key) → IsOk result }
{
    if words.contains_key(&key) {
        return Ok(());
    }
    match words.insert(key, 0) {
        Ok(_) => Ok(()),
        Err(_) => Err(AllocError),
    }
}

/// Whether a page is in the set.
pub fn has_page(words: &BTreeMap<u32, u64>, page: u32) -> bool
    ensures { result ≡ in_words words.now page }
{
    has_bit(word_at(words, page / 64), page % 64)
}

/// Puts pages of one word in, and returns how many of them weren't there. It takes no memory.
pub fn put_pages(words: &mut BTreeMap<u32, u64>, first: u32, n: u32) -> u32
    requires some { 1 ≤ n }
    requires within { first % 64 + n ≤ 64 }
    requires room { IsTrue (has_room words.old first) }
    ensures put { IsWithRun first n (in_words words.old) (in_words words.new) }
    ensures room { AreSame (has_word words.old) (has_word words.new) }
    ensures size { result + count_on (in_words words.old) first n ≡ n }
{
    let word = word_at(words, first / 64);
    let present = count_bits(word, first % 64, n);
    write(words, first / 64, with_bits(word, first % 64, n));
    n - present
}

/// Takes pages of one word out, and returns how many of them were there. It takes no memory.
pub fn cut_pages(words: &mut BTreeMap<u32, u64>, first: u32, n: u32) -> u32
    requires some { 1 ≤ n }
    requires within { first % 64 + n ≤ 64 }
    ensures cut { IsWithoutRun first n (in_words words.old) (in_words words.new) }
    ensures room { AreSame (has_word words.old) (has_word words.new) }
    ensures size { result ≡ count_on (in_words words.old) first n }
{
    let word = word_at(words, first / 64);
    let present = count_bits(word, first % 64, n);
    if present == 0 {
        return 0;
    }
    write(words, first / 64, without_bits(word, first % 64, n));
    present
}

/// Takes out the pages from `first` on that stand side by side, as far as the word goes, and
/// returns how many they are. It takes no memory.
pub fn cut_side_by_side(words: &mut BTreeMap<u32, u64>, first: u32) -> u32
    requires { IsTrue (in_words words.old first) }
    ensures some { 1 ≤ result }
    ensures all { AllOn (in_words words.old) first result }
    ensures cut { IsWithoutRun first result (in_words words.old) (in_words words.new) }
{
    let n = run_of_bits(word_at(words, first / 64), first % 64);
    cut_pages(words, first, n);
    n
}

/// The word of the lowest number, with its number.
fn lowest_word(words: &BTreeMap<u32, u64>) -> Option<(u32, u64)>
    ensures found { IfSome result (λ p. get nat_cmp words.now p.0 ≡ Some p.1) }
    ensures lowest { IfSome result (λ p. (k : ℕ) → k < p.0 → word words.now k ≡ 0) }
    ensures none { IfNone result ((k : ℕ) → word words.now k ≡ 0) }
{
    match words.first_key_value() {
        Some((key, word)) => Some((*key, *word)),
        None => None,
    }
}

/// The lowest page of the set. Words without a page that stand before it go. It takes no memory.
pub fn first_page(words: &mut BTreeMap<u32, u64>) -> Option<u32>
    requires { (page : ℕ) → IsTrue (in_words words.old page) → page + 1 < 2 ^ 32 }
    ensures same { AreSame (in_words words.old) (in_words words.new) }
    ensures found { IfSome result (λ first. IsTrue (in_words words.old first)) }
    ensures lowest { IfSome result (λ first.
        (page : ℕ) → page < first → in_words words.old page ≡ false) }
    ensures none { IfNone result ((page : ℕ) → in_words words.old page ≡ false) }
{
    while let Some((key, word)) = lowest_word(words) {
        if word > 0 {
            let bit = lowest_bit(word);
            return Some(64 * key + bit);
        }
        words.remove(&key);
    }
    None
}
