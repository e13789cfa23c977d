//! What an edit of an object on pages replaces, and by what: the few entries around its place are
//! read and tested, and the plan is made of them.
//!
//! Nothing is written or asked for here: whoever makes the change does that.
#![tactic(auto)]

mod asking;
mod plan_on;
mod planned;
mod planning;
mod sides;
#[cfg(test)]
mod tests;
mod usable;
mod window;
mod working_tree;

pub use planned::Planned;
pub use planning::plan_change;
pub use working_tree::WorkingTree;
