//! Which edits make an object anew.

ghost use Rattle.std.specs.Prelude.{◌≡◌};
ghost use Rattle.body_double.specs.Page.{is_create};

use eos_ops::Edit;

/// Is the edit a `create`?
pub(crate) fn creates(edit: &Edit) -> bool
    ensures { result ≡ is_create edit.now }
{
    match edit {
        Edit::Create { .. } => true,
        _ => false,
    }
}
