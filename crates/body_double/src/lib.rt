//! Small doubles of a body over pages: an object of no byte whose versions own a page each, and one
//! that is made of the pages of a tree.
#![tactic(auto)]

mod creates;
mod kept_body;
mod owned;
mod page_body;
#[cfg(test)]
mod tests;

pub use kept_body::KeptBody;
pub use page_body::PageBody;
