//! The last check: no used page was left out by the walks.

ghost use Rattle.std.specs.Prelude.{◌≡◌, ℕ, ◌+◌, ◌<◌, ◌≤◌, length, IsTrue, OnOk};
ghost use Rattle.std.specs.List.{range_with_len};
ghost use Rattle.std.specs.Result.{result_err};
ghost use Rattle.geometry_model.specs.Numbers.{pages};
ghost use Rattle.span_store.specs.Held.{Held};
ghost use Rattle.image_model.specs.Checks.{check_space, each};
ghost use Rattle.image_check.specs.Owners.{IsMarked, HasNoneLost, HasNoneLostIn};
ghost use Rattle.image_check.specs.Verdicts.{Judges};

use crate::failure::CheckFail;
use crate::owner::Owner;
use crate::walk::Walk;
use page_port::Geometry;

/// Checks that each data page is free or an object's. It takes no memory.
///
/// # Errors
/// `PageLost` names the lowest page that is neither.
pub fn check_lost(geometry: &Geometry, walk: &Walk) -> Result<(), CheckFail>
    requires { length walk.now.owners ≡ pages geometry.now }
    ensures judged { (held : Held) → IsMarked geometry.now held walk.now →
        Judges geometry.now held walk.now walk.now (result_err result)
        (λ bytes. each (check_space geometry.now bytes) (range_with_len 0 geometry.now.spaces)) }
    ensures none { OnOk result (HasNoneLost geometry.now walk.now) }
{
    for space in 0..geometry.spaces() {
        check_space(geometry, space, walk)?;
    }
    Ok(())
}

/// Checks the data pages of one space.
fn check_space(geometry: &Geometry, space: u32, walk: &Walk) -> Result<(), CheckFail>
    requires count { length walk.now.owners ≡ pages geometry.now }
    requires space { space < geometry.now.spaces }
    ensures judged { (held : Held) → IsMarked geometry.now held walk.now →
        Judges geometry.now held walk.now walk.now (result_err result)
        (λ bytes. check_space geometry.now bytes space) }
    ensures none { OnOk result (HasNoneLostIn geometry.now space walk.now) }
{
    // Who asks for the page size learns that all numbers are in range.
    let _size = geometry.page();
    let first = geometry.directory_page(space as u16) + 1;
    for at in 0..geometry.space_pages() {
        let page = first + at;
        if walk.owner(page) == Owner::Nobody {
            return Err(CheckFail::PageLost { page });
        }
    }
    Ok(())
}
