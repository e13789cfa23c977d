//! The device over a file: positioned reads and writes, one system call for a run of pages.
//!
//! A file's bytes are unknown to contracts. What is proved here is safety, and that a fault comes
//! only where its count rose; that the file holds what was written is trusted, and tested.
#![tactic(auto)]

mod file_bay;
mod file_port;
mod file_span;

pub use file_bay::FileBay;
pub use file_port::FilePort;
pub use file_span::FileSpan;
