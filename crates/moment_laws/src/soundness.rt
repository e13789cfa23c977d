//! Laws on sound moments: soundness object by object, and a change of one object.

ghost use Rattle.std.specs.Prelude.{◌≡◌, ◌↔◌, ℕ, ◌<◌, Bool, true, length};
ghost use Rattle.geometry_model.specs.Numbers.{Numbers};
ghost use Rattle.moment_model.specs.Moment.{ObjectSlot, Moment, object_slot, with_object_slot};
ghost use Rattle.moment_model.specs.Moment.{is_free, is_locked, IsSound};
ghost use Rattle.moment_laws.specs.ByObject.{IsSoundByObject};
ghost use Rattle.moment_laws.specs.Change.{Grows, free_after, locked_after};

use moment_model::Kind;

/// A moment is sound just where each object alone is, no two share a page, and what isn't held is
/// at rest.
pub fn sound_object_by_object<K: Kind>()
    ensures { (n : Numbers) (held : ℕ → Bool) (moment : Moment) →
        IsSound K.good n held moment ↔ IsSoundByObject K.good n held moment }
{}

/// A held object that grows on pages that are free, its committed version as before, leaves the
/// moment sound.
pub fn a_growing_object_keeps_soundness<K: Kind>()
    ensures { (n : Numbers) (held : ℕ → Bool) (moment : Moment) (o : ℕ) (after : ObjectSlot) →
        IsSound K.good n held moment → held o ≡ true →
        Grows K.good n (λ page. is_free n page moment) (object_slot moment o) after →
        IsSound K.good n held (with_object_slot moment o after) }
{}

/// Which pages are free after a change of one object follows from those that were, and from the
/// object's two states.
pub fn free_pages_after_a_change<K: Kind>()
    ensures { (n : Numbers) (held : ℕ → Bool) (moment : Moment) (o : ℕ) (after : ObjectSlot) →
        IsSound K.good n held moment → o < length moment →
        (page : ℕ) → is_free n page (with_object_slot moment o after)
        ≡ free_after n page (is_free n page moment) (object_slot moment o) after }
{}

/// And so it is with the locked pages, where the moment is sound before and after.
pub fn locked_pages_after_a_change<K: Kind>()
    ensures { (n : Numbers) (held still : ℕ → Bool) (moment : Moment) (o : ℕ)
        (after : ObjectSlot) → IsSound K.good n held moment →
        IsSound K.good n still (with_object_slot moment o after) → o < length moment →
        (page : ℕ) → is_locked n page (with_object_slot moment o after)
        ≡ locked_after n page (is_locked n page moment) (object_slot moment o) after }
{}
