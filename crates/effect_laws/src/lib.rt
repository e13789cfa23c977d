//! Laws on what an edit is to an object of some length: the tree's kind refuses an edit exactly
//! where the plain object does, and so does any kind that goes by the length alone.
//!
//! Each law is a function with no argument and no code, whose clause is the law. The lemmas that
//! crates above cite stand in `proofs/EffectLemmas.antt`.
#![tactic(auto)]

mod outcomes;

pub use outcomes::{
    an_edited_object_has_its_length, an_effect_goes_by_length, an_effect_is_the_outcome,
};
