//! Laws on whole moments of a store: a store of absent objects is sound, the end of a transaction
//! is the end of its objects one by one, and free and locked pages together are no more than all
//! pages.
//!
//! Each law is a function with no argument and no code, whose clause is the law; the lemmas that
//! crates above cite stand in `proofs/`.
#![tactic(auto)]

mod counts;
mod each;
mod first;

pub use counts::free_and_locked_pages_are_within_all;
pub use each::an_end_is_one_by_one;
pub use first::a_store_of_absent_objects_is_sound;
