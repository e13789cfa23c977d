//! The lines of a summary as text.

ghost use Rattle.std.specs.Prelude.{◌≡◌, ◌<◌, [], ◌++◌, get_or, OnOk};
ghost use Rattle.work_gen.specs.Summary.{count_words, summary_line, summary_lines};

use crate::summary::COUNTS;
use itoa::Buffer;
use std::alloc::AllocError;

/// Puts a line at the end: a word, a blank and a number.
pub(crate) fn push_line(text: &mut Vec<u8>, word: &str, number: u64) -> Result<(), AllocError>
    ensures { OnOk result (text.new.items ≡ text.old.items ++ summary_line word.now number) }
{
    let mut buffer = Buffer::new();
    text.extend_from_slice(word.as_bytes())?;
    text.extend_from_slice(b" ")?;
    text.extend_from_slice(buffer.format(number).as_bytes())?;
    text.extend_from_slice(b"\n")
}

/// Puts a line for each count at the end.
pub(crate) fn push_counts(text: &mut Vec<u8>, counts: &[u64; COUNTS]) -> Result<(), AllocError>
    ensures { OnOk result
        (text.new.items ≡ text.old.items ++ summary_lines count_words counts.now) }
{
    'counts: for place in 0..COUNTS {
        push_line(text, count_word(place), counts[place])?;
    }
    Ok(())
}

/// The word of a count.
fn count_word(place: usize) -> &'static str
    requires { place < 17 }
    ensures { result.now ≡ get_or count_words place [] }
{
    match place {
        0 => "ok",
        1 => "length",
        2 => "bytes",
        3 => "range",
        4 => "exists",
        5 => "missing",
        6 => "busy",
        7 => "full",
        8 => "noobject",
        9 => "nospace",
        10 => "fault",
        11 => "memory",
        12 => "idle",
        13 => "active",
        14 => "toolong",
        15 => "worn",
        _ => "status",
    }
}
