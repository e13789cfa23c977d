//! A law of the grammar, as the contract of a function that does nothing.
ghost use Rattle.std.specs.Prelude.{◌≡◌, ℕ, List};
ghost use Rattle.script_model.specs.Grammar.{IsLine};
ghost use Rattle.script_model.specs.declared.line.Line.{Line};

/// A text is one line at most, so its session and its command are known.
pub fn a_text_is_one_line()
    ensures { (text : List ℕ) (l m : Line) → IsLine text l → IsLine text m → l ≡ m }
{}
