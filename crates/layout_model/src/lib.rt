//! The layout of an edit: what becomes of an object's segments and nodes when bytes of it are
//! exchanged, which pages are asked for, and which are granted.
//!
//! Plain types, definitions on whole lists, and laws on them. `specs/Parts.antt` has the parts that
//! an edit leaves, `specs/Pack.antt` the merging of small neighbours, `specs/Plan.antt` both
//! together with the growing tail, `specs/Levels.antt` the nodes of the new tree,
//! `specs/Grants.antt` the pages that the spaces grant, and `specs/Layout.antt` the whole.
#![tactic(auto)]

mod change;
mod extent;
mod fit;
mod part;
mod request;

pub use change::Change;
pub use extent::Extent;
pub use fit::Fit;
pub use part::Part;
pub use request::Request;
