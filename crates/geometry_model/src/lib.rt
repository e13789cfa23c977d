//! The numbers of a store, and what follows from them: which pages there are, and what each is for.
//!
//! Definitions and laws alone, with no code: the crates above state their contracts in these words.
#![tactic(auto)]
