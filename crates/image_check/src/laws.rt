//! From the checks to the sharing: pages that were checked may go to their owners.
//!
//! Each law is a function with no argument and no code, whose clause is the law.

ghost use Rattle.std.specs.Prelude.{◌≡◌, ℕ, ◌+◌, ◌<◌, ◌≤◌, List, length, replicate};
ghost use Rattle.geometry_model.specs.Numbers.{Numbers};
ghost use Rattle.span_store.specs.Held.{Held, HeldSpan, IsEmpty};
ghost use Rattle.image_check.specs.declared.owner.Owner.TheVariants.{Free};
ghost use Rattle.image_check.specs.Owners.{Claims, HasNoneLost, IsMarked, KeptWalk, with_used};
ghost use Rattle.image_check.specs.Shares.{AreOwnersBelow, AreTaken, AsksShare, HoldsData};
ghost use Rattle.image_check.specs.Shares.{holdings_of};

/// A new walk has no owner, pages that come to be used have none, and what an object claims is its
/// own: so all owners are among the objects that were checked.
pub fn owners_stay_objects()
    ensures free { (pages : ℕ) (kept : KeptWalk) → kept.owners ≡ replicate pages Free →
        AreOwnersBelow 0 kept }
    ensures used { (count first n : ℕ) (kept : KeptWalk) → first + n ≤ length kept.owners →
        AreOwnersBelow count kept → AreOwnersBelow count (with_used kept first n) }
    ensures claimed { (count o : ℕ) (old new : KeptWalk) → AreOwnersBelow count old → o < count →
        Claims o old new → AreOwnersBelow count new }
    ensures more { (count most : ℕ) (kept : KeptWalk) → AreOwnersBelow count kept → count ≤ most →
        AreOwnersBelow most kept }
{}

/// Where no used page was lost, all that is held may go to its owners, as long as these hold
/// nothing yet.
pub fn checked_pages_can_be_shared()
    ensures { (n : Numbers) (held left : Held) (kept : KeptWalk) (spans : List HeldSpan)
        (objects : List Held) →
        IsMarked n held kept → HasNoneLost n kept → AreOwnersBelow (length objects) kept →
        HoldsData n held → AreTaken held left spans →
        ((o : ℕ) → IsEmpty (holdings_of objects o)) → AsksShare kept spans objects }
{}
