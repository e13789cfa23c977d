//! A tree on pages and the levels of its nodes: the same tree in two forms, and what of it stays
//! where pages change.
//!
//! Definitions and laws alone. `specs/Entry.antt` has what is kept of an object beside its pages,
//! `specs/Levels.antt` the levels, the version and the bytes that pages show, and `specs/Stored.antt` when
//! levels stand on pages. Each law is a function with no argument and no code, whose clause is the
//! law.
#![tactic(auto)]

mod frame;
mod levels;

pub use frame::{a_tree_stays, a_version_stays, content_stays};
pub use levels::{
    a_tree_has_levels, an_entry_shows_its_version, levels_are_a_tree, nodes_are_counted,
};
