//! Laws on changes: the new levels of a tree are those of a tree, and a change that is laid out on
//! granted pages leaves a good tree, on pages that were its own or granted.
//!
//! Each law is a function with no argument and no code, whose clause is the law. Of the lemmas in
//! `proofs/`, which crates above cite, `SizeLemmas`, `SiteLemmas`, `FillLemmas` and `ShapeLemmas`
//! are on the levels of a tree, `NodeCountLemmas` and `NodeLemmas` on the pages of its nodes,
//! `PieceLemmas`, `PartLemmas` and `NeighbourLemmas` on the parts of a change, `GotLemmas` and
//! `SegmentLemmas` on the runs that they are granted, `SuitLemmas` on grants that suit a change,
//! `UsedNodeLemmas` and `UsedLemmas` on what uses these, `AppendLemmas` on the parts of an append,
//! `LayingLemmas` and `PlannedLemmas` on a plan as it is laid out, and `ChangeLemmas` on the whole.
#![tactic(auto)]

mod changes;
mod shape;

pub use changes::{a_laid_change_is_good, granted_pages_are_used, granted_pages_suit_the_change};
pub use shape::new_levels_are_those_of_a_tree;
