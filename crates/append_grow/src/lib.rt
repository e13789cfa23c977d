//! How an append chooses its pages: what it asks for, and where the new bytes go.
//!
//! Pure arithmetic on counts of pages: no page is read here, and no memory is taken.
#![tactic(auto)]

mod rule;
mod tail;
#[cfg(test)]
mod tests;
mod wish;

pub use layout_model::Fit;
pub use rule::{a_second_fit_never_extends, fit};
pub use tail::Tail;
pub use wish::ask;
