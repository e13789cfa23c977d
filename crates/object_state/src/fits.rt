//! Which segments may stand side by side.

ghost use Rattle.std.specs.Prelude.{◌≡◌, option_map};
ghost use Rattle.tree_model.specs.Tree.{page_count};
ghost use Rattle.object_state.specs.Fits.{may_stand};

use page_port::Geometry;
use tree_model::Pair;

/// The pages that so many bytes fill, the last one maybe in part.
pub fn pages_of(geometry: &Geometry, bytes: u64) -> u64
    ensures { result ≡ page_count geometry.now.page bytes }
{
    bytes.div_ceil(geometry.page() as u64)
}

/// May the segment `pair` stand behind the one before it? One of the two at least has as many pages
/// as the threshold.
pub fn fits(geometry: &Geometry, threshold: u16, before: Option<&Pair>, pair: &Pair) -> bool
    ensures { result ≡ may_stand geometry.now threshold 0 (option_map (λ p. p.now) before.entry)
        pair.now }
{
    match before {
        Some(before) => {
            pages_of(geometry, before.bytes) >= threshold as u64
                || pages_of(geometry, pair.bytes) >= threshold as u64
        }
        None => true,
    }
}
