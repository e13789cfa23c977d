//! A law on the end of a transaction.

ghost use Rattle.std.specs.Prelude.{◌≡◌, ℕ, List};
ghost use Rattle.history.specs.Event.{Event};
ghost use Rattle.history.specs.Holding.{holds};
ghost use Rattle.moment_model.specs.Edit.{settled, undone};
ghost use Rattle.moment_model.specs.Moment.{Moment};
ghost use Rattle.moment_model.specs.Run.{committed_by, aborted_by};
ghost use Rattle.store_moment_laws.specs.Each.{changed_each, AreThose};

/// What a session holds is settled, or undone, together as it is one by one, in any order.
pub fn an_end_is_one_by_one()
    ensures committed { (session : ℕ) (past : List Event) (moment : Moment) (objects : List ℕ) →
        AreThose (λ o. holds session o past) moment objects →
        committed_by session past moment ≡ changed_each settled objects moment }
    ensures aborted { (session : ℕ) (past : List Event) (moment : Moment) (objects : List ℕ) →
        AreThose (λ o. holds session o past) moment objects →
        aborted_by session past moment ≡ changed_each undone objects moment }
{}
