//! The check of a store's pages at its opening: the tree of each object, page by page, and that no
//! used page is lost. On the way each data page gets its owner, and the used spans go to theirs.
//!
//! A check answers what the definition of the checks says, and the first of them that fails. Each
//! node is read once. Who reads the directories and the catalog is left to whoever opens a store.
#![tactic(auto)]

mod failure;
mod laws;
mod lost;
mod node;
mod object;
mod owner;
mod path;
mod segment;
mod share;
mod sum;
#[cfg(test)]
mod tests;
mod tree;
mod used;
mod walk;

pub use failure::CheckFail;
pub use image_format::CatalogEntry;
pub use laws::{checked_pages_can_be_shared, owners_stay_objects};
pub use lost::check_lost;
pub use object::check_object;
pub use owner::Owner;
pub use page_port::Geometry;
pub use path::Path;
pub use share::{share_out, take_all};
pub use used::add_used;
pub use walk::Walk;
