//! The numbers of a store as words.

ghost use Rattle.std.specs.Prelude.{◌≡◌, ◌<◌, ◌≤◌, ◌↔◌, IsTrue, IfSome, MatchOption, map};
ghost use Rattle.std.specs.Prelude.{string_bytes, length, slice_index};
ghost use Rattle.geometry_model.specs.Numbers.{Numbers, IsInRange, is_page_size};
ghost use Rattle.plain_plan.specs.Store.{numbers_of};
ghost use Rattle.script_text.specs.Words.{number_of};
ghost use Rattle.model_cli.specs.Words.{AreStore, number_words};

use plain_plan::Store;

/// No store has a greater order, whatever its page size.
const MAX_ORDER: u64 = 16;

/// The numbers of a store, each in its range, where the words are those.
pub fn store_of(words: &[String]) -> Option<Store>
    ensures { MatchOption result ((n : Numbers) → AreStore (map string_bytes words.now) n → ⊥)
        (λ store. AreStore (map string_bytes words.now) (numbers_of store)) }
{
    let store = numbers_in(words)?;
    if is_in_range(&store) {
        Some(store)
    } else {
        None
    }
}

/// Five words as numbers, of which the second is no greater than `MAX_ORDER`.
fn numbers_in(words: &[String]) -> Option<Store>
    ensures numbers { MatchOption result
        ((n : Numbers) → IsInRange n → map string_bytes words.now ≡ number_words n → ⊥)
        (λ store. map string_bytes words.now ≡ number_words (numbers_of store)) }
    ensures order { IfSome result (λ store. store.order ≤ MAX_ORDER) }
{
    let [page, order, spaces, catalog, threshold] = words else {
        return None;
    };
    let order = number_of(order.as_str())?;
    if order > MAX_ORDER {
        return None;
    }
    Some(Store {
        page: number_of(page.as_str())?,
        order: order as u32,
        spaces: number_of(spaces.as_str())?,
        catalog: number_of(catalog.as_str())?,
        threshold: number_of(threshold.as_str())?,
    })
}

/// The number below 2^64 that a word is the decimal digits of, without a leading zero.
fn number_of(word: &str) -> Option<u64>
    ensures { result ≡ number_of word.now }
{
    let digits = word.as_bytes();
    if digits.is_empty() {
        return None;
    }
    if !digits[0].is_ascii_digit() {
        return None;
    }
    if has_leading_zero(digits) {
        return None;
    }
    word.parse::<u64>().ok()
}

/// Whether a word of two digits or more begins with a zero.
fn has_leading_zero(digits: &[u8]) -> bool
    requires { 0 < length digits.now }
    ensures { IsTrue result ↔ ((slice_index digits.now 0 ≡ 48) × (1 < length digits.now)) }
{
    digits[0] == b'0' && digits.len() > 1
}

/// Whether the numbers are those of a store.
fn is_in_range(store: &Store) -> bool
    requires { store.now.order ≤ MAX_ORDER }
    ensures { IsTrue result ↔ IsInRange (numbers_of store.now) }
{
    let pages = 2u64.pow(store.order);
    is_page_size(store.page)
        && store.order >= 4
        && pages <= store.page.saturating_mul(4)
        && store.spaces >= 1
        && store.spaces <= 256
        && store.catalog >= 1
        && store.catalog <= 16
        && store.threshold >= 1
        && store.threshold <= pages / 2
}

/// Whether a page may have so many bytes.
fn is_page_size(size: u64) -> bool
    ensures { result ≡ is_page_size size }
{
    matches!(size, 256 | 512 | 1024 | 2048 | 4096)
}
