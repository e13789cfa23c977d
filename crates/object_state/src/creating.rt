//! An object that is made.

ghost use Rattle.std.specs.Prelude.{◌≡◌};
ghost use Rattle.moment_model.specs.Edit.{given_threshold};

use page_port::Geometry;

/// The threshold of an object that is made: the store's, or the one that is asked for, but at most
/// half of a space.
pub fn given(geometry: &Geometry, threshold: Option<u32>) -> u16
    ensures { result ≡ given_threshold geometry.now threshold }
{
    let _page = geometry.page();
    let half = geometry.space_pages() / 2;
    match threshold {
        Some(pages) => pages.min(half) as u16,
        None => geometry.threshold() as u16,
    }
}
