//! What becomes of an edit, by the length of the object alone.

ghost use Rattle.std.specs.Prelude.{◌≡◌, ◌+◌, ◌↔◌, None, Some, IsTrue};
ghost use Rattle.object_body.specs.Lengths.{outcome_of, outcome_within};
ghost use Rattle.object_state.specs.Idle.{IsIdle};

use eos_ops::{Edit, Outcome};

/// What becomes of an edit of an object of this length, none of an absent one. No byte is looked
/// at.
pub fn outcome(edit: &Edit, length: Option<u64>) -> Outcome
    ensures { result ≡ outcome_of edit.now length }
{
    match length {
        Some(length) => outcome_there(edit, length),
        None => outcome_absent(edit),
    }
}

/// What becomes of it on an absent object.
fn outcome_absent(edit: &Edit) -> Outcome
    ensures { result ≡ outcome_of edit.now None }
{
    match edit {
        Edit::Create { .. } => Outcome::Done,
        _ => Outcome::Missing,
    }
}

/// What becomes of it on an object of this length.
fn outcome_there(edit: &Edit, length: u64) -> Outcome
    ensures { result ≡ outcome_of edit.now (Some length) }
{
    match edit {
        Edit::Create { .. } => Outcome::Exists,
        Edit::Destroy => Outcome::Done,
        Edit::Append(_) => Outcome::Done,
        Edit::Insert { at, .. } => outcome_up_to(*at, 0, length),
        Edit::Delete { at, len } => outcome_up_to(*at, *len, length),
        Edit::Replace { at, bytes } => outcome_up_to(*at, bytes.len(), length),
    }
}

/// Does it remove nothing and bring nothing? Then it leaves the bytes of any object as they are.
pub fn is_idle(edit: &Edit) -> bool
    ensures { IsTrue result ↔ IsIdle edit.now }
{
    match edit {
        Edit::Create { .. } => false,
        Edit::Destroy => false,
        Edit::Append(bytes) => bytes.len() == 0,
        Edit::Insert { bytes, .. } => bytes.len() == 0,
        Edit::Delete { len, .. } => *len == 0,
        Edit::Replace { bytes, .. } => bytes.len() == 0,
    }
}

/// `Done` where the `count` bytes from `at` on lie within the length, and else `Range`.
fn outcome_up_to(at: u64, count: u64, length: u64) -> Outcome
    ensures { result ≡ outcome_within (at + count) length }
{
    if at <= length && count <= length - at {
        return Outcome::Done;
    }
    Outcome::Range(length)
}
