//! Laws on costs: the pages that a change writes and is granted, and the segments that a row of
//! bytes meets.
//!
//! Each law is a function with no argument and no code, whose clause is the law. Of the lemmas in
//! `proofs/`, which crates above cite, `PartCostLemmas` is on the parts of a plan, `RunCostLemmas`
//! on the runs that these are granted, `NodeCostLemmas` on the made nodes, `CheapLemmas` on the
//! whole of a change, and `MetLemmas` on the segments that are met.
#![tactic(auto)]

mod changes;
mod segments;

pub use changes::a_change_is_cheap;
pub use segments::few_segments_are_met;
