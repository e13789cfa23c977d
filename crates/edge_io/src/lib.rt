//! Bytes in and out: sources, sinks, and what reads or writes all of them.
//!
//! A source and a sink each keep a count of their failed calls, which never falls. A layer above
//! answers a fault only where that count rose. Over memory the bytes moved are known to contracts;
//! over the system they are not.
#![tactic(auto)]

mod mem_sink;
mod mem_source;
mod read;
mod sink;
mod source;
mod std_sink;
mod std_source;
mod write;

pub use mem_sink::MemSink;
pub use mem_source::MemSource;
pub use read::{ReadFail, read_all};
pub use sink::{Sink, SinkFail};
pub use source::{Fault, Source};
pub use std_sink::StdSink;
pub use std_source::StdSource;
pub use write::write_all;

#[cfg(test)]
mod tests;
