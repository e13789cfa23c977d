//! An edit of bytes as a change by numbers, and the bytes that it brings.

ghost use Rattle.std.specs.Prelude.{◌≡◌};
ghost use Rattle.edit_content_laws.specs.Brought.{brought};
ghost use Rattle.object_state.specs.Changes.{change_of, is_append};

use eos_ops::Edit;
use layout_model::Change;

/// The change that an edit is of an object of so many bytes. A `create` and a `destroy` are none.
pub fn change_of(edit: &Edit, length: u64) -> Change
    ensures { result ≡ change_of edit.now length }
{
    let (at, removed, added) = match edit {
        Edit::Create { .. } | Edit::Destroy => (0, 0, 0),
        Edit::Append(bytes) => (length, 0, bytes.len()),
        Edit::Insert { at, bytes } => (*at, 0, bytes.len()),
        Edit::Delete { at, len } => (*at, *len, 0),
        Edit::Replace { at, bytes } => (*at, bytes.len(), bytes.len()),
    };
    Change {
        at,
        removed,
        added,
        appends: is_append(edit),
    }
}

/// Is it an append?
fn is_append(edit: &Edit) -> bool
    ensures { result ≡ is_append edit.now }
{
    match edit {
        Edit::Append(_) => true,
        _ => false,
    }
}

/// The bytes that an edit puts into the object, none where it puts none.
pub fn brought(edit: &Edit) -> &[u8]
    ensures { result.now ≡ brought edit.now }
{
    match edit {
        Edit::Append(bytes) => bytes.as_slice(),
        Edit::Insert { bytes, .. } => bytes.as_slice(),
        Edit::Replace { bytes, .. } => bytes.as_slice(),
        _ => &[],
    }
}
