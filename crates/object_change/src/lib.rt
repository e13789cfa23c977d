//! The heart of an edit of an object on pages: a planned change is made, on pages that are asked
//! for, or everything is as it was.
//!
//! What of the old pages is let go is left to whoever keeps both versions: here all of them stay
//! held. `object_plan` says what is replaced, and by what.
#![tactic(auto)]

mod changed;
mod making;
mod spare;
mod taking_back;
mod writing;

pub use changed::Changed;
pub use making::make_change;
pub use taking_back::take_back;
