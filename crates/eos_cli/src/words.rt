//! The words that a run is given.

ghost use Rattle.std.specs.Prelude.{◌≡◌, map, string_bytes};
ghost use Rattle.eos_cli.specs.Words.{is_image, is_script};

/// Whether the words are those of a run: `script` and an image. The image is named and not opened.
pub fn is_script(words: &[String]) -> bool
    ensures { result ≡ is_script (map string_bytes words.now) }
{
    match words {
        [command, image] => command.as_str() == "script" && is_image(image.as_str()),
        _ => false,
    }
}

/// Whether a word names an image: it isn't empty, and no option.
fn is_image(word: &str) -> bool
    ensures { result ≡ is_image word.now }
{
    match word.as_bytes() {
        [] => false,
        [first, ..] => *first != b'-',
    }
}
