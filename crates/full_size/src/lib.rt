//! Each call that takes memory, made once at the largest size that a store asks of it.
//!
//! Want of memory is an answer that no clause refuses, so a body that gave up above some size would
//! be proved all the same. Here it would be seen. There is no code but tests.
#![tactic(auto)]

#[cfg(test)]
mod spaces;
#[cfg(test)]
mod trees;
#[cfg(test)]
mod words;
