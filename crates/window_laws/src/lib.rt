//! Laws on the window of a change: the few entries around its place fix its plan, and are soon
//! found.
//!
//! Each law is a function with no argument and no code, whose clause is the law. Of the lemmas that
//! crates above cite, `proofs/CountLemmas.antt` is on entries dropped in front and cut off behind,
//! `WindowLemmas.antt` on the plan, `StretchLemmas.antt` on the entries in a range, and
//! `SearchLemmas.antt` on the searches.
#![tactic(auto)]

mod searches;
mod window;

pub use searches::{found_segments_have_the_window, searches_find_the_window};
pub use window::{
    a_border_is_a_number, a_window_has_its_borders, a_window_has_the_last_entry,
    a_window_is_enough, a_window_tells_the_fit, a_window_tells_the_requests,
};
