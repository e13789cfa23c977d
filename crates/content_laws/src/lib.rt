//! Laws on the bytes of a change: the parts of a plan spell the edited bytes, merged or not, and
//! what is laid out on written pages holds them.
//!
//! Each law is a function with no argument and no code, whose clause is the law. Of the lemmas in
//! `proofs/`, which crates above cite, `SideLemmas.antt` is on the entries on both sides of a
//! change, and
//! `PlanLemmas.antt` on the whole list of parts in a plan.
#![tactic(auto)]

mod spelling;

pub use spelling::{
    a_grown_tail_holds_the_bytes, laid_parts_are_spliced, laid_parts_hold_the_bytes,
    parts_spell_the_edited_bytes,
};
