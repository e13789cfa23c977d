//! How the spaces are reached: looks at their hints, and the right to use one of them at a time.

ghost use Rattle.std.specs.Prelude.{◌≡◌, ℕ, ◌<◌, List, ◌∷◌, [], Option, Some, None, IsSome, IfSome};
ghost use Rattle.std.specs.Prelude.{slice_get};
ghost use Rattle.block_model.specs.Place.{hint_of};
ghost use Rattle.space_directory.specs.SpaceView.{SpaceView, IsSpace};
ghost use Rattle.superdirectory.specs.Trace.{SpaceEvent, Part, look_event, enter_event, IsNothing};
ghost use Rattle.superdirectory.specs.Rest.{Rest, count, IsAway, IsOf, IsSpaceTold, entering};
ghost use Rattle.superdirectory.specs.Rest.{leaving, hints_after};

use crate::hint::Hint;
use page_port::Span;
use space_directory::Space;

/// The hints of the spaces. A look takes neither a turn nor memory.
pub trait Hints: Drop {
    // The looks and enters made so far, told or not.
    ghost trace: { Self → Option (List SpaceEvent) };

    // The hints as they stand, told or not.
    ghost hints: { Self → Option (List ℕ) };

    // The spaces, the one that is entered, and what no call changes. A look keeps it.
    ghost rest: { Self → Rest };

    /// How many spaces there are.
    fn spaces(&self) -> u16
        ensures { result ≡ count (rest self.now) };

    /// The hint of a space. Where the spaces are told, that of a space that isn't entered is exact.
    fn look(&mut self, s: u16) -> Hint
        requires { s < count (rest self.old) }
        ensures trace { Part (λ part. part ≡ look_event s result.0 ∷ []) (trace self.old)
            (trace self.new) }
        ensures hint { IfSome (hints self.old) (λ hs. slice_get hs s ≡ Some result.0) }
        ensures exact { (v : SpaceView) → IsSpaceTold (rest self.old) s v →
            result.0 ≡ hint_of v.free }
        ensures hints { hints self.new ≡ hints self.old }
        ensures rest { rest self.new ≡ rest self.old };
}

/// Short-term locks on the spaces. One space at a time is entered, used and left.
pub trait Latches: Hints {
    /// The spans of its spaces.
    type S: Span;

    /// The right to wait, where entering needs it.
    type Turn: Drop;

    /// Takes the space with this number.
    fn enter(&mut self, turn: &mut Self::Turn, s: u16) -> Space<Self::S>
        requires number { s < count (Self.rest self.old) }
        requires none { (Self.rest self.old).entered ≡ None }
        ensures space { IsSpace result }
        ensures home { IsOf (Self.rest self.old).frame s result }
        ensures told { (v : SpaceView) → IsSpaceTold (Self.rest self.old) s v → result ≡ v }
        ensures trace { Part (λ part. part ≡ enter_event s (hint_of result.free) ∷ [])
            (Self.trace self.old) (Self.trace self.new) }
        ensures hints { Self.hints self.new ≡ Self.hints self.old }
        ensures rest { Self.rest self.new ≡ entering (Self.rest self.old) s };

    /// Takes the entered space back out of `space`, changed or not. Its hint becomes exact. This is
    /// what `leave` does; it is here for the types that implement it.
    fn take_back(&mut self, s: u16, space: &mut Option<Space<Self::S>>)
        requires away { IsAway (Self.rest self.old) s }
        requires some { IsSome space.old }
        requires space { IfSome space.old IsSpace }
        requires home { IfSome space.old (IsOf (Self.rest self.old).frame s) }
        ensures taken { space.new ≡ None }
        ensures trace { Part IsNothing (Self.trace self.old) (Self.trace self.new) }
        ensures hints { IfSome space.old (λ v. Self.hints self.new
            ≡ hints_after (Self.hints self.old) s v) }
        ensures rest { IfSome space.old (λ v. Self.rest self.new
            ≡ leaving (Self.rest self.old) s v) };

    /// Puts the entered space back, changed or not. Its hint becomes exact.
    final fn leave(&mut self, s: u16, space: Space<Self::S>)
        requires away { IsAway (Self.rest self.old) s }
        requires space { IsSpace space }
        requires home { IsOf (Self.rest self.old).frame s space }
        ensures trace { Part IsNothing (Self.trace self.old) (Self.trace self.new) }
        ensures hints { Self.hints self.new ≡ hints_after (Self.hints self.old) s space }
        ensures rest { Self.rest self.new ≡ leaving (Self.rest self.old) s space }
    {
        let mut held = Some(space);
        self.take_back(s, &mut held);
    }
}
