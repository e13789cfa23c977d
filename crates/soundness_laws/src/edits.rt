//! Laws on an edit of an object on granted pages: a sound moment stays sound, and which pages are
//! free after it.

ghost use Rattle.std.specs.Prelude.{◌≡◌, ℕ, ◌<◌, Bool, ◌||◌, Some, length};
ghost use Rattle.geometry_model.specs.Numbers.{Numbers, IsInRange};
ghost use Rattle.geometry_model.specs.Pages.{IsPlace};
ghost use Rattle.layout_model.specs.declared.change.Change.{Change};
ghost use Rattle.layout_model.specs.Grants.{Spaces};
ghost use Rattle.layout_model.specs.Layout.{Tree, Grants, granted, laid};
ghost use Rattle.moment_model.specs.Edit.{edited_slot};
ghost use Rattle.moment_model.specs.Moment.{Moment, object_slot, with_object_slot, free_of};
ghost use Rattle.moment_model.specs.Moment.{is_free, IsSound};
ghost use Rattle.moment_model.specs.Version.{IsGood, uses};
ghost use Rattle.moment_laws.specs.Granting.{got_grants, is_among};
ghost use Rattle.change_laws.specs.Laying.{IsChange};
ghost use Rattle.soundness_laws.specs.LetGo.{laid_slot, is_let_go};
ghost use Rattle.soundness_laws.specs.Keeping.{KeepsSoundness};
ghost use Rattle.change_laws.specs.Tail.{HaveTails};

/// An edit of a held object that was granted what it asks for leaves a sound moment sound, and each
/// spare behind its object's last segment.
pub fn an_edit_keeps_soundness()
    ensures { KeepsSoundness edited_slot IsGood }
{}

/// The free pages after a change on granted pages are those that the grants left, and those that
/// the object used before it and uses no more.
pub fn free_pages_after_a_laid_change()
    ensures { (n : Numbers) (held : ℕ → Bool) (start : ℕ) (moment : Moment) (o : ℕ) (tree : Tree)
        (change : Change) (left : Spaces) (grants : Grants) →
        IsInRange n → IsSound IsGood n held moment → HaveTails n moment → o < length moment →
        (object_slot moment o).working ≡ Some tree → IsChange tree change →
        granted n start tree (object_slot moment o).spare change (free_of n moment)
        ≡ got_grants grants left → (page s at : ℕ) → IsPlace n page s at →
        is_free n page (with_object_slot moment o (laid_slot (object_slot moment o)
        (laid n tree (object_slot moment o).spare change grants)))
        ≡ (is_among n left page || is_let_go n page (object_slot moment o)
        (laid_slot (object_slot moment o)
        (laid n tree (object_slot moment o).spare change grants))) }
{}
