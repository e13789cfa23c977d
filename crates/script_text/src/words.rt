//! The words of a line, one after the other.
ghost use Rattle.std.specs.Prelude.{◌≡◌, ◌==◌, [], ◌∷◌, drop, length, position, MatchOption};
ghost use Rattle.std.specs.Prelude.{OnSome};
ghost use Rattle.script_text.specs.Words.{first_number, is_space, words};

use crate::number::read_number;
use std::marker::Model;

/// The words that are left of a line. In contracts it is the list of them.
#[derive(Drop)]
pub struct Words<'a> {
    rest: Option<&'a [u8]>,
}

impl<'a> Model for Words<'a> {
    ghost use Rattle.std.specs.Prelude.{List, ℕ};
    ghost use Rattle.std.specs.Option.{option_copied};
    ghost use Rattle.script_text.specs.Words.{words_left};

    ghost Value = { List (List ℕ) };

    ghost view = { λ s. words_left (option_copied s.rest) };
}

impl<'a> Words<'a> {
    /// The words of `text`, which are one more than its spaces.
    pub fn new(text: &'a [u8]) -> Words<'a>
        ensures { result ≡ words text.now }
    {
        Words { rest: Some(text) }
    }

    /// Whether no word is left.
    pub fn is_empty(&self) -> bool
        ensures { result ≡ (length self.now == 0) }
    {
        self.rest.is_none()
    }

    /// Takes the first word.
    pub fn next(&mut self) -> Option<&'a [u8]>
        ensures { MatchOption result (self.old ≡ []) (λ word. self.old ≡ word.now ∷ self.new) }
    {
        let text = self.rest?;
        let Some(at) = space_in(text) else {
            self.rest = None;
            return Some(text);
        };
        let (word, after) = text.split_at(at);
        let (_, rest) = after.split_at(1);
        self.rest = Some(rest);
        Some(word)
    }

    /// Takes the first word where it is a number.
    pub fn next_number(&mut self) -> Option<u64>
        ensures value { result ≡ first_number self.old }
        ensures rest { OnSome result (self.new ≡ drop 1 self.old) }
    {
        read_number(self.next()?)
    }
}

// Where the first space of a text is.
fn space_in(text: &[u8]) -> Option<usize>
    ensures { result ≡ position is_space text.now }
{
    text.iter().position(|byte| *byte == b' ')
}
