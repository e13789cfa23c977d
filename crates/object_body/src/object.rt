//! An object of a store: its body, and the ends of the transactions that held it.

ghost use Rattle.std.specs.Prelude.{◌≡◌, true};
ghost use Rattle.object_body.specs.Form.{listed};
ghost use Rattle.object_body.specs.Object.{IsLegalBody};

use crate::body::Body;
use eos_ops::Annals;
use object_locks::Aged;

/// A body with the ends of the transactions that held it.
#[derive(Drop)]
pub struct Object<B, H> {
    /// Its two versions.
    pub body: B,
    /// The ends, or their last stamp alone.
    pub annals: H,
}

impl<B: Body, H: Annals> Aged for Object<B, H> {
    ghost told = { λ x. H.told x.annals };

    ghost rests = { λ x. (B.form x.body).is_resting ≡ true };

    ghost frame = { λ x. listed (B.form x.body).numbers };

    ghost legal = { λ first x. IsLegalBody B.P.S.tells (H.told x.annals) first (B.told x.body) };

    // Stamps rise from 1 on, so there are no more ends than the last stamp says.
    fn ends(&self) -> u64 {
        self.annals.ends().min(self.annals.last_stamp())
    }
}
