//! The plan of a change by a plain program: parts, merging and the growing tail, over plain lists.
//!
//! The functions are slow and short, and their contracts are the definitions of `layout_model`.
//! They are no part of the product: they serve tests, and whoever wants to try the definitions out.
//! Where a number passes its type they give up by `Fail::Big`.
#![tactic(auto)]

mod lists;
mod numbers;
mod packing;
mod parts;
mod plan;

pub use lists::{cons, front, join, one, rest};
pub use numbers::{Fail, Store, add, as_page, div, mul, page_count, rem, space_pages};
pub use packing::{is_small, pack, pack_from, part_bytes};
pub use parts::{
    count_begun, count_ended, head_of, left_of, one_after, one_before, parts_of, pieces, right_of,
    without_pages,
};
pub use plan::{Plan, ask_of, fit_of, last_entry, made_part_bytes, planned};

#[cfg(test)]
mod tests;
