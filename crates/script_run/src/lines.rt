//! A script cut into its lines.

ghost use Rattle.std.specs.Prelude.{◌≡◌, ◌<◌, ◌∷◌, length};
ghost use Rattle.script_model.specs.Transcript.{script_lines, has_long_line};

use memchr::memchr;
use script_model::MAX_LINE;

/// The first line of a script, without its line feed, and what follows it.
pub fn cut_line(script: &[u8]) -> (&[u8], &[u8])
    requires { 0 < length script.now }
    ensures cut { script_lines script.now ≡ result.0.now ∷ script_lines result.1.now }
    ensures shorter { length result.1.now < length script.now }
{
    match memchr(b'\n', script) {
        Some(at) => {
            let (line, rest) = script.split_at(at);
            (line, &rest[1..])
        }
        None => script.split_at(script.len()),
    }
}

/// Whether a line has more bytes than a line may have.
pub fn has_long_line(script: &[u8]) -> bool
    ensures { result ≡ has_long_line (script_lines script.now) }
{
    let mut rest = script;
    'lines: while !rest.is_empty() {
        let (line, after) = cut_line(rest);
        if line.len() > MAX_LINE {
            return true;
        }
        rest = after;
    }
    false
}
