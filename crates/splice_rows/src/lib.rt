//! Exchanges in trees over a device that tells nothing of its pages: worked by hand, and thrown
//! ones beside the levels of the plain program. There is no code but tests.
#![tactic(auto)]

#[cfg(test)]
mod quiet;
#[cfg(test)]
mod store;
#[cfg(test)]
mod thrown;
#[cfg(test)]
mod worked;
