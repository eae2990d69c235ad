//! What every crate here speaks of: places, refusals, settings, and the outside world.
//!
//! Promised: each value of [`Settings`] and [`Turns`] is in its range. A refused allocation becomes
//! [`Refusal::Memory`]. [`Files`] and [`Sink`] say what a call reads and writes, where that is told,
//! and that a fault is answered only where a count of faults rose. [`MemFiles`] and [`MemSink`] tell
//! their bytes and fail exactly where a test wants it; [`HostFiles`] and [`HostSink`] tell no content
//! and are the trusted edge.
//!
//! Stands on: no crate of this repository.
#![tactic(auto)]

mod gate;
mod host;
mod mem_files;
mod mem_sink;
mod outside;
mod refusal;
mod settings;
#[cfg(test)]
mod tests;

pub use gate::{Gate, NoGate};
pub use host::{HostFiles, HostSink};
pub use mem_files::{MemFiles, NamedFile};
pub use mem_sink::MemSink;
pub use outside::{Failed, Files, Sink};
pub use refusal::{LimitKind, Place, Refusal};
pub use settings::{Settings, Status, Turns, Written};
