//! The release locks of one space: a set of its pages.
//!
//! A page is locked while a transaction that is still open has given it up, so that no other takes
//! it before the transaction ends. Contracts see the set as one test a page. Page numbers count
//! from the first data page of the space.
#![tactic(auto)]

mod locks;

pub use locks::Locks;
