//! A law on the bytes of an edit: where its effect on a tree is a change, the edited object has the
//! bytes that the change leaves.
//!
//! It is a function with no argument and no code, whose clauses are the law; the lemmas stand in
//! `proofs/EditContentLemmas.antt`.
#![tactic(auto)]

mod contents;

pub use contents::a_change_is_its_edit;
