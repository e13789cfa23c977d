//! Laws on refusals: an edit that is refused pages names few of them, for which no space had a
//! place, and the bound of steps of a halving is never what refuses.
//!
//! Each law is a function with no argument and no code, whose clause is the law; the lemmas that
//! crates above cite stand in `proofs/RefusalLemmas.antt`.
#![tactic(auto)]

mod refusals;

pub use refusals::{
    a_refused_change_names_few_pages, a_refused_edit_names_few_pages, halving_never_runs_out,
};
