//! Runs of bits in one word.

ghost use Rattle.std.specs.Prelude.{◌≡◌, ℕ, ◌+◌, ◌<◌, ◌≤◌, ◌⊎◌, false, IsTrue};
ghost use Rattle.page_set.specs.Members.{count_on, AllOn, IsWithRun, IsWithoutRun};
ghost use Rattle.page_set.specs.Words.{is_bit};

/// The word whose `n` bits from `from` on are set, and no others.
fn mask(from: u32, n: u32) -> u64
    requires some { 1 ≤ n }
    requires within { from + n ≤ 64 }
    ensures inside { AllOn (is_bit result) from n }
    ensures beside { (i : ℕ) → (i < from) ⊎ (from + n ≤ i) → is_bit result i ≡ false }
{
    (u64::MAX >> (64 - n)) << from
}

/// A word with the `n` bits from `from` on set.
pub fn with_bits(word: u64, from: u32, n: u32) -> u64
    requires some { 1 ≤ n }
    requires within { from + n ≤ 64 }
    ensures { IsWithRun from n (is_bit word) (is_bit result) }
{
    word | mask(from, n)
}

/// A word with the `n` bits from `from` on cleared.
pub fn without_bits(word: u64, from: u32, n: u32) -> u64
    requires some { 1 ≤ n }
    requires within { from + n ≤ 64 }
    ensures { IsWithoutRun from n (is_bit word) (is_bit result) }
{
    word & !mask(from, n)
}

/// How many of the `n` bits from `from` on are set.
pub fn count_bits(word: u64, from: u32, n: u32) -> u32
    requires some { 1 ≤ n }
    requires within { from + n ≤ 64 }
    ensures { result ≡ count_on (is_bit word) from n }
{
    (word & mask(from, n)).count_ones()
}

/// Whether a bit is set.
pub fn has_bit(word: u64, at: u32) -> bool
    requires { at < 64 }
    ensures { result ≡ is_bit word at }
{
    (word >> at) & 1 == 1
}

/// How many bits from `from` on are set side by side, as far as the word goes.
pub fn run_of_bits(word: u64, from: u32) -> u32
    requires { from < 64 }
    ensures within { from + result ≤ 64 }
    ensures all { AllOn (is_bit word) from result }
    ensures ends { from + result < 64 → is_bit word (from + result) ≡ false }
{
    if word == u64::MAX {
        return 64 - from;
    }
    (word >> from).trailing_ones()
}

/// The lowest bit that is set.
pub fn lowest_bit(word: u64) -> u32
    requires { 0 < word }
    ensures within { result < 64 }
    ensures set { IsTrue (is_bit word result) }
    ensures lowest { (i : ℕ) → i < result → is_bit word i ≡ false }
{
    word.trailing_zeros()
}
