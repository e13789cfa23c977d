//! The contract of object locks.

ghost use Rattle.std.specs.Prelude.{◌≡◌, ◌<◌, ◌↔◌, Some, None, IsErr, IsSomeAnd, IfSome, IfOk};
ghost use Rattle.std.specs.Prelude.{OnErr, slice_get};
ghost use Rattle.object_locks.specs.Shelving.{Shelving, Terms, Suits, IsTake, refused_take, IsPut};
ghost use Rattle.object_locks.specs.Shelving.{MayReturn};

use crate::{Aged, Busy};

/// A numbered set of objects, of which each is with one holder at a time.
///
/// A shelf is one holder's end of it: what is out with the shelf is out with its holder. No call
/// takes memory, and none waits.
pub trait Shelf<T: Aged>: Drop {
    /// What the shelf shows of itself.
    ghost shelving: { Self → Shelving T };

    /// Its objects keep these terms: one frame, and histories from these contents.
    ghost under: { Self → Terms → Type 0 };

    /// How many objects there are. They are numbered from 0.
    fn objects(&self) -> u32
        ensures { result ≡ (shelving self.now).objects };

    /// Takes object `o` out, or answers `Busy` where it is out already.
    fn take(&mut self, o: u32) -> Result<T, Busy>
        requires number { o < (shelving self.old).objects }

        // A holder that takes an object twice would wait for itself.
        requires free { IfSome (shelving self.old).session (λ _. (shelving self.old).out o ≡ None) }
        ensures ok { IfOk result (λ value. IsTake (T.told value) o value (shelving self.old)
            (shelving self.new)) }
        ensures rests { IfOk result T.rests }
        ensures terms { IfOk result (λ value. (t : Terms) → under self.old t →
            Suits T.frame T.legal t o value) }
        ensures under { (t : Terms) → under self.old t → under self.new t }

        // Where it is told which objects are home, `Busy` comes exactly where this one isn't.
        ensures busy { OnErr result (shelving self.new ≡ refused_take o (shelving self.old)) }
        ensures exact { IfSome (shelving self.old).home
            (λ xs. IsErr result ↔ (slice_get xs o ≡ Some None)) };

    /// Puts object `o` back, which is out with this shelf.
    fn put(&mut self, o: u32, value: T)
        requires number { o < (shelving self.old).objects }
        requires out { IsSomeAnd ((shelving self.old).out o)
            (MayReturn (T.told value) (shelving self.old)) }
        requires rests { T.rests value }
        requires terms { (t : Terms) × under self.old t × Suits T.frame T.legal t o value }
        ensures put { IsPut (T.told value) o value (shelving self.old) (shelving self.new) }
        ensures under { (t : Terms) → under self.old t → Suits T.frame T.legal t o value →
            under self.new t };
}
