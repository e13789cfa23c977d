//! The first word of a command.
ghost use Rattle.std.specs.Prelude.{◌≡◌};

/// What a command does, before its arguments are read.
#[derive(Clone, Copy, Debug)]
pub enum Verb {
    Begin,
    Create,
    Destroy,
    Length,
    Read,
    Append,
    Insert,
    Delete,
    Replace,
    Commit,
    Abort,
    Status,
}

impl Verb {
    ghost use Rattle.script_text.specs.Reading.{verb_of};

    /// The verb that a word is.
    #[tactic(auto, unfolding(crate::specs::Reading::verb_of))]
    pub fn from_word(word: &[u8]) -> Option<Verb>
        ensures { result ≡ verb_of word.now }
    {
        if word == b"begin".as_slice() {
            return Some(Verb::Begin);
        }
        if word == b"create".as_slice() {
            return Some(Verb::Create);
        }
        if word == b"destroy".as_slice() {
            return Some(Verb::Destroy);
        }
        if word == b"length".as_slice() {
            return Some(Verb::Length);
        }
        if word == b"read".as_slice() {
            return Some(Verb::Read);
        }
        if word == b"append".as_slice() {
            return Some(Verb::Append);
        }
        if word == b"insert".as_slice() {
            return Some(Verb::Insert);
        }
        if word == b"delete".as_slice() {
            return Some(Verb::Delete);
        }
        if word == b"replace".as_slice() {
            return Some(Verb::Replace);
        }
        if word == b"commit".as_slice() {
            return Some(Verb::Commit);
        }
        if word == b"abort".as_slice() {
            return Some(Verb::Abort);
        }
        if word == b"status".as_slice() {
            return Some(Verb::Status);
        }
        None
    }
}
