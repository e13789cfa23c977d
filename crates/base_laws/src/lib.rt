//! Laws on lists, options and results that several crates cite and the standard library doesn't
//! have.
//!
//! Laws alone, with no code: each stands in a file of `proofs/` that is named after its subject.
#![tactic(auto)]
