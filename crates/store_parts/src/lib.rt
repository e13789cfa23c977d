//! The parts of an open store: the pages of no object, its spaces, its objects and its port.
//!
//! `specs/Parts.antt` says what is true of them, and for which database and which moment they
//! stand. `specs/Pages.antt` says which page is where, and `specs/Opening.antt` what an opening hands out
//! and a closing leaves. Reading and writing these pages is left to the crates above.
#![tactic(auto)]

mod abandon;
mod fixed;
mod parts;
mod refused;
mod returning;

pub use abandon::abandon_store;
pub use fixed::Fixed;
pub use parts::StoreParts;
pub use refused::OpenFail;
