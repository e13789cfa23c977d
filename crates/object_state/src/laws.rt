//! What an object in a tree of segments keeps as a kind of body.

ghost use Rattle.moment_model.specs.Edit.{edited_slot};
ghost use Rattle.moment_model.specs.Version.{IsGood};
ghost use Rattle.object_body.specs.Calls.{RefusesTaken};
ghost use Rattle.soundness_laws.specs.Keeping.{KeepsSoundness};

/// An edit of a tree that was granted what it asks for leaves a sound moment sound; and pages are
/// refused only to an edit that the object takes.
pub fn trees_are_a_kind_of_body()
    ensures soundness { KeepsSoundness edited_slot IsGood }
    ensures refused { RefusesTaken edited_slot }
{}
