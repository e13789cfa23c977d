//! A set of pages: 64 adjacent pages a word, the words by their numbers.
//!
//! A transaction gathers the runs that it lets go, takes those out that it keeps, and empties what
//! is left run by run. Contracts see a set as one test a page, its size, and the pages for which
//! there is room.
#![tactic(auto)]

mod bits;
mod page_run;
mod page_set;
mod runs;
mod words;

pub use page_run::PageRun;
pub use page_set::PageSet;
