//! Worlds as worked by hand, over objects in memory and over objects that own pages.
#![tactic(auto)]

mod fresh;
#[cfg(test)]
mod tests;
#[cfg(test)]
mod worlds;

pub use fresh::plain_world;
