//! A law on the counts of pages.

ghost use Rattle.std.specs.Prelude.{◌+◌, ◌*◌, ◌≤◌};
ghost use Rattle.geometry_model.specs.Numbers.{Numbers, space_pages};
ghost use Rattle.moment_model.specs.Moment.{Moment, count_pages, free_of, locked_of};

/// Free and locked pages together are no more than all pages of the spaces.
pub fn free_and_locked_pages_are_within_all()
    ensures { (n : Numbers) (moment : Moment) →
        count_pages (free_of n moment) + count_pages (locked_of n moment) ≤ n.spaces * space_pages
        n }
{}
