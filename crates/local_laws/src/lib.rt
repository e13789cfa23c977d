//! Laws on where an exchange in a tree takes place: the nodes on the way to it and a neighbour a
//! level fix all nodes that are made, and what is made and left is the difference of the two trees.
//!
//! Each law is a function with no argument and no code, whose clause is the law; the lemmas that
//! crates above cite stand in `proofs/`.
#![tactic(auto)]

mod left;
mod level;
mod path;

pub use left::{left_nodes_are_local, made_and_left_are_the_difference};
pub use level::a_level_is_local;
pub use path::a_path_is_local;
