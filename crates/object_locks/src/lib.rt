//! Who holds an object: exclusive locks on a numbered set of objects.
//!
//! A shelf hands an object out to one holder at a time and takes it back. The holder owns the
//! object meanwhile, so nobody else can look at it. `Shelf` is the contract; `SoloShelf` meets it
//! for one thread.
#![tactic(auto)]

mod aged;
mod busy;
mod shelf;
mod solo;
#[cfg(test)]
mod tests;

pub use aged::Aged;
pub use busy::Busy;
pub use shelf::Shelf;
pub use solo::SoloShelf;
