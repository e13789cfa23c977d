//! Plans of edits: merged, met with the tail and cut over runs, as worked by hand, and beside those
//! of the plain program. There is no code but tests.
#![tactic(auto)]

#[cfg(test)]
mod edit;
#[cfg(test)]
mod rows;
#[cfg(test)]
mod thrown;
