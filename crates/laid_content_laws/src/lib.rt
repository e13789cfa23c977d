//! Laws on the bytes of an object after a change that is laid out and written: the new tree holds
//! the edited bytes, and the committed version what it held.
//!
//! Each law is a function with no argument and no code, whose clause is the law. Of the lemmas in
//! `proofs/`, which crates above cite, `StayLemmas` is on the pages that no change writes,
//! `LaidContentLemmas` on the bytes of what is laid out, and `WindowContentLemmas` on those of a
//! change's window.
#![tactic(auto)]

mod contents;

pub use contents::{
    a_laid_change_holds_the_edited_bytes, a_laid_change_writes_no_used_page,
    a_window_tells_what_is_written,
};
