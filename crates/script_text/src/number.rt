//! A word as a number.
ghost use Rattle.std.specs.Prelude.{◌≡◌, ◌<◌, ◌↔◌, IsTrue, length, slice_index};
ghost use Rattle.script_text.specs.Words.{number_of};

/// The number below 2^64 that `word` is the decimal digits of, without a leading zero.
pub fn read_number(word: &[u8]) -> Option<u64>
    ensures { result ≡ number_of word.now }
{
    if word.is_empty() {
        return None;
    }
    if !word[0].is_ascii_digit() {
        return None;
    }
    if has_leading_zero(word) {
        return None;
    }
    let Ok(text) = std::str::from_utf8(word) else {
        return None;
    };
    text.parse::<u64>().ok()
}

// Whether a word of two digits or more begins with a zero.
fn has_leading_zero(word: &[u8]) -> bool
    requires { 0 < length word.now }
    ensures { IsTrue result ↔ ((slice_index word.now 0 ≡ 48) × (1 < length word.now)) }
{
    word[0] == b'0' && word.len() > 1
}
