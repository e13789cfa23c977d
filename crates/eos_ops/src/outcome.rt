//! What became of an edit.

/// What became of an edit. After any but `Done` the object is as before.
#[derive(Clone, Copy, Debug, PartialEq, Eq)]
pub enum Outcome {
    /// The edit was made.
    Done,
    /// `Create` met a present object.
    Exists,
    /// Another edit met an absent one.
    Missing,
    /// The edit reaches past the end; the object's length.
    Range(u64),
}
