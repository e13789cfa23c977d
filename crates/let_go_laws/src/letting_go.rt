//! Laws on the pages that are let go.

ghost use Rattle.std.specs.Prelude.{◌≡◌, ℕ, ◌<◌, Bool, true, Option, Some, List, length, nat_eq};
ghost use Rattle.std.specs.Prelude.{nat_lt, ◌&&◌};
ghost use Rattle.geometry_model.specs.Numbers.{Numbers, IsInRange};
ghost use Rattle.layout_model.specs.declared.change.Change.{Change};
ghost use Rattle.layout_model.specs.declared.extent.Extent.{Extent};
ghost use Rattle.layout_model.specs.Grants.{Spaces};
ghost use Rattle.layout_model.specs.Layout.{Tree, Grants, granted, laid};
ghost use Rattle.moment_model.specs.Moment.{ObjectSlot, Moment, object_slot, with_object_slot};
ghost use Rattle.moment_model.specs.Moment.{free_of, is_free, is_locked, committed_uses};
ghost use Rattle.moment_model.specs.Moment.{working_uses, IsSound};
ghost use Rattle.moment_model.specs.Version.{IsGood, uses};
ghost use Rattle.moment_laws.specs.Granting.{AreSpaces, got_grants};
ghost use Rattle.change_laws.specs.Laying.{IsChange};
ghost use Rattle.change_laws.specs.Suiting.{IsSuited};
ghost use Rattle.soundness_laws.specs.LetGo.{laid_slot};
ghost use Rattle.change_laws.specs.Tail.{IsTail, HaveTails};
ghost use Rattle.let_go_laws.specs.LetGo.{is_dropped, dropped_runs, AreGone};

use moment_model::Kind;

/// A page that a working version lets go, the committed version as before, is free afterwards where
/// the committed version doesn't use it, and locked where it does.
pub fn dropped_pages_are_free_or_locked<K: Kind>()
    ensures free { (n : Numbers) (held still : ℕ → Bool) (moment : Moment) (o : ℕ)
        (after : ObjectSlot) → IsSound K.good n held moment →
        IsSound K.good n still (with_object_slot moment o after) → o < length moment →
        after.committed ≡ (object_slot moment o).committed →
        (page : ℕ) → is_dropped n page (object_slot moment o) after ≡ true →
        is_free n page (with_object_slot moment o after)
        ≡ nat_eq (committed_uses n page (object_slot moment o)) 0 }
    ensures locked { (n : Numbers) (held still : ℕ → Bool) (moment : Moment) (o : ℕ)
        (after : ObjectSlot) → IsSound K.good n held moment →
        IsSound K.good n still (with_object_slot moment o after) → o < length moment →
        after.committed ≡ (object_slot moment o).committed →
        (page : ℕ) → is_dropped n page (object_slot moment o) after ≡ true →
        is_locked n page (with_object_slot moment o after)
        ≡ nat_lt 0 (committed_uses n page (object_slot moment o)) }
{}

/// The pages that a change of a good tree lets go, whoever granted the pages that suit it, are those
/// of the runs of the entries and nodes that it replaces and of the old spare, without those that the
/// new tree and spare use.
pub fn a_change_lets_runs_go()
    ensures { (n : Numbers) (slot : ObjectSlot) (tree : Tree) (change : Change)
        (grants : Grants) (gone : List Extent) →
        IsInRange n → IsGood n tree → IsTail n (Some tree) slot.spare → slot.working ≡ Some tree →
        IsChange tree change → IsSuited n tree slot.spare change grants →
        AreGone tree (laid n tree slot.spare change grants).tree grants.pages gone → (page : ℕ) →
        is_dropped n page slot (laid_slot slot (laid n tree slot.spare change grants))
        ≡ (nat_lt 0 (uses page (dropped_runs n tree slot.spare change gone))
        && nat_eq (working_uses n page (laid_slot slot (laid n tree slot.spare change grants))) 0) }
{}

/// So of the pages in these runs that the new tree and spare don't use those of the committed
/// version are locked after the change, and the others free.
pub fn a_change_gives_and_locks()
    ensures free { (n : Numbers) (held : ℕ → Bool) (start : ℕ) (moment : Moment) (o : ℕ)
        (tree : Tree) (change : Change) (left : Spaces) (grants : Grants) (gone : List Extent) →
        IsInRange n → IsSound IsGood n held moment → HaveTails n moment → held o ≡ true →
        o < length moment →
        (object_slot moment o).working ≡ Some tree → IsChange tree change →
        granted n start tree (object_slot moment o).spare change (free_of n moment)
        ≡ got_grants grants left →
        AreGone tree (laid n tree (object_slot moment o).spare change grants).tree grants.pages
        gone → (page : ℕ) →
        0 < uses page (dropped_runs n tree (object_slot moment o).spare change gone) →
        working_uses n page (laid_slot (object_slot moment o)
        (laid n tree (object_slot moment o).spare change grants)) ≡ 0 →
        is_free n page (with_object_slot moment o (laid_slot (object_slot moment o)
        (laid n tree (object_slot moment o).spare change grants)))
        ≡ nat_eq (committed_uses n page (object_slot moment o)) 0 }
    ensures locked { (n : Numbers) (held : ℕ → Bool) (start : ℕ) (moment : Moment) (o : ℕ)
        (tree : Tree) (change : Change) (left : Spaces) (grants : Grants) (gone : List Extent) →
        IsInRange n → IsSound IsGood n held moment → HaveTails n moment → held o ≡ true →
        o < length moment →
        (object_slot moment o).working ≡ Some tree → IsChange tree change →
        granted n start tree (object_slot moment o).spare change (free_of n moment)
        ≡ got_grants grants left →
        AreGone tree (laid n tree (object_slot moment o).spare change grants).tree grants.pages
        gone → (page : ℕ) →
        0 < uses page (dropped_runs n tree (object_slot moment o).spare change gone) →
        working_uses n page (laid_slot (object_slot moment o)
        (laid n tree (object_slot moment o).spare change grants)) ≡ 0 →
        is_locked n page (with_object_slot moment o (laid_slot (object_slot moment o)
        (laid n tree (object_slot moment o).spare change grants)))
        ≡ nat_lt 0 (committed_uses n page (object_slot moment o)) }
{}
