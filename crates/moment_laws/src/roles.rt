//! A law on the roles of pages.

ghost use Rattle.std.specs.Prelude.{ℕ, Bool};
ghost use Rattle.geometry_model.specs.Numbers.{Numbers};
ghost use Rattle.moment_model.specs.Moment.{Moment, IsSound, HasOneRole};

use moment_model::Kind;

/// In a sound moment each page is free, release-locked, in one segment or spare of a working
/// version, or one node page of a working version, and only one of these.
pub fn one_role<K: Kind>()
    ensures { (n : Numbers) (held : ℕ → Bool) (moment : Moment) → IsSound K.good n held moment →
        (page : ℕ) → HasOneRole n page moment }
{}
