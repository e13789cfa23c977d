//! Laws on moments: in a sound one each page has just one role; soundness object by object; what a
//! change of one object, and the end of a transaction, keep, and which pages are free and locked
//! after them; what is granted was free.
//!
//! Each law is a function with no argument and no code, whose clause is the law; the lemmas that
//! crates above cite stand in `proofs/`.
#![tactic(auto)]

mod ends;
mod granting;
mod roles;
mod soundness;

pub use ends::{
    an_end_keeps_soundness, an_end_of_one_object_keeps_soundness, holding_more_keeps_soundness,
    the_end_of_all_keeps_soundness,
};
pub use granting::{granted_pages_were_free, pages_taken_were_free_in_the_moment};
pub use roles::one_role;
pub use soundness::{
    a_growing_object_keeps_soundness, free_pages_after_a_change, locked_pages_after_a_change,
    sound_object_by_object,
};
