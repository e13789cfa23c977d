//! Edits.
#![tactic(auto)]

#[cfg(test)]
mod changes;
#[cfg(test)]
mod failing;
#[cfg(test)]
mod levels;
#[cfg(test)]
mod rows;
#[cfg(test)]
mod store;
#[cfg(test)]
mod thrown;
#[cfg(test)]
mod worked;
