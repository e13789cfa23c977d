//! The names of the calls over memory that are made to fail.

/// Names one call: the `call`th read or write of the `port`th port, both counted from 1. Port 0
/// stands for the bay's own calls that can fail, with `write` false.
#[derive(Debug, Clone, Copy, PartialEq, Eq)]
pub struct FailAt {
    pub port: u32,
    pub write: bool,
    pub call: u64,
}
