//! The device that a store lies on, seen as pages: its geometry, spans of pages, ports and bays.
//!
//! Who owns a span knows what its pages hold, since no one else can write them. A port moves bytes
//! between spans and memory, and counts what it does. A bay is the whole device: it hands out its
//! pages, makes ports, and takes both back.
#![tactic(auto)]

mod bay;
mod fail_at;
mod geometry;
mod mem_bay;
mod mem_port;
mod mem_span;
mod page_list;
mod port;
mod schedule;
mod span;
#[cfg(test)]
mod tests;

pub use bay::{Bay, BayFail};
pub use fail_at::FailAt;
pub use geometry::Geometry;
pub use mem_bay::MemBay;
pub use mem_port::MemPort;
pub use mem_span::MemSpan;
pub use port::{DeviceFault, Port};
pub use span::Span;
