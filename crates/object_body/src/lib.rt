//! A stored object as the layers above see it: two versions, edits, and ends.
#![tactic(auto)]

mod body;
mod fails;
mod laws;
mod object;
mod returns;
mod stored;
mod turns;

pub use body::Body;
pub use fails::{EditFail, LookFail};
pub use laws::{
    a_body_keeps_a_store_sound, a_body_refuses_pages_for_what_it_takes, a_slot_on_pages_is_as_long,
    a_version_uses_a_page_once, an_edit_by_its_length, an_edit_takes_memory_as_its_commands,
    spaces_that_moved_fit,
};
pub use object::Object;
pub use returns::load_and_unload;
pub use stored::Stored;
pub use turns::settle_one_and_undo_one;
