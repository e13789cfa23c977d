//! The numbers after a verb.
ghost use Rattle.std.specs.Prelude.{◌≡◌};
ghost use Rattle.script_text.specs.Reading.{one_number, three_numbers};

use crate::words::Words;

/// The one number that is left.
pub fn read_one(words: &mut Words<'_>) -> Option<u64>
    ensures { result ≡ one_number words.old }
{
    let number = words.next_number()?;
    if !words.is_empty() {
        return None;
    }
    Some(number)
}

/// The three numbers that are left.
pub fn read_three(words: &mut Words<'_>) -> Option<(u64, u64, u64)>
    ensures { result ≡ three_numbers words.old }
{
    let object = words.next_number()?;
    let at = words.next_number()?;
    let count = read_one(words)?;
    Some((object, at, count))
}
