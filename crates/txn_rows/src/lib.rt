//! Transactions as worked by hand, over an object in memory and over one that owns pages.
#![tactic(auto)]

#[cfg(test)]
mod session;
#[cfg(test)]
mod tests;
