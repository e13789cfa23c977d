//! An edit of the plain object.

ghost use Rattle.std.specs.Prelude.{◌≡◌, OnOk, OnErr, IfOk};
ghost use Rattle.eos_ops.specs.Edits.{outcome_in, edited, PutsBytes};

use crate::{Bytes, Edit, Outcome, Plain};
use std::alloc::{AllocError, Global};

/// Makes an edit in place, and says what became of it.
///
/// It takes memory only for bytes that it puts in. `AllocError` says that there was none, and
/// leaves the object as it was.
pub fn apply_plain(alloc: Global, edit: &Edit, object: &mut Plain) -> Result<Outcome, AllocError>
    ensures outcome { IfOk result (λ outcome. outcome ≡ outcome_in edit.now object.old) }
    ensures ok { OnOk result (object.new ≡ edited edit.now object.old) }

    // Want of memory comes only where bytes are put in, by an edit that could be made, and leaves
    // the object as it was.
    ensures memory { OnErr result (PutsBytes edit.now object.old) }
    ensures fits { OnErr result (outcome_in edit.now object.old ≡ Outcome.Done) }
    ensures err { OnErr result (object.new ≡ object.old) }
{
    let outcome = edit.outcome(object);
    if outcome == Outcome::Done {
        make(alloc, edit, object)?;
    }
    Ok(outcome)
}

/// Makes an edit that can be made.
fn make(alloc: Global, edit: &Edit, object: &mut Plain) -> Result<(), AllocError>
    requires { outcome_in edit.now object.old ≡ Outcome.Done }
    ensures ok { OnOk result (object.new ≡ edited edit.now object.old) }
    ensures memory { OnErr result (PutsBytes edit.now object.old) }
    ensures err { OnErr result (object.new ≡ object.old) }
{
    let Plain::Present(bytes) = object else {
        *object = Plain::Present(Bytes::new(alloc));
        return Ok(());
    };
    match edit {
        Edit::Create { .. } | Edit::Destroy => *object = Plain::Absent,
        Edit::Append(more) => bytes.append(more.as_slice())?,
        Edit::Insert { at, bytes: more } => bytes.insert(*at, more.as_slice())?,
        Edit::Delete { at, len } => bytes.delete(*at, *len),
        Edit::Replace { at, bytes: others } => bytes.replace(*at, others.as_slice()),
    }
    Ok(())
}
