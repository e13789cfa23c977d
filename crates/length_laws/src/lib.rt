//! Laws on lengths: a change that is laid out has just the bytes that it brings more and those that
//! it removes less, so a version and the plain object keep one length, edit by edit.
//!
//! Each law is a function with no argument and no code, whose clause is the law; the lemmas that
//! crates above cite stand in `proofs/LengthLemmas.antt`.
#![tactic(auto)]

mod lengths;

pub use lengths::{
    a_laid_change_has_its_length, an_edit_keeps_lengths_equal, an_edited_tree_has_its_length,
};
