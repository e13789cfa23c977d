//! Laws on images: what an image shows is sound and fills its directories, its database is that of
//! its moment, and the checks of an opening fail on no image and pass on nothing else.
//!
//! Each law is a function with no argument and no code, whose clause is the law.
#![tactic(auto)]

mod checks;
mod returning;
mod sound;

pub use checks::{an_image_passes, what_passes_is_an_image};
pub use returning::pages_come_back;
pub use sound::{an_image_has_its_database, an_image_is_sound};
