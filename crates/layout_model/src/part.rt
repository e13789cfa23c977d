//! A part of an object in a plan.

use tree_model::Pair;

/// Bytes that stay on the pages that they have, or bytes that get new pages.
#[derive(Clone, Copy, PartialEq, Eq, Debug)]
pub enum Part {
    /// A segment, or what is left of one, on its pages; or, where an append extends it, the last
    /// segment with its new bytes on the spare pages behind it.
    Keep(Pair),
    /// So many bytes on new pages.
    Make(u64),
}
