//! A law on the pages that a read of an object reads.
//!
//! It is a function with no argument and no code, whose clause is the law; the lemmas stand in
//! `proofs/TouchedLemmas.antt`.
#![tactic(auto)]

mod reads;

pub use reads::a_read_is_cheap;
