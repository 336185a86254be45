//! Files to read from and sinks to write to, with counts of what failed; and the gate that holds workers back in tests.
//!
//! Nothing stands below this crate. The layer above uses the clauses of two traits: a read that is
//! Ok gives the told bytes, a put that is Ok appends all of its bytes, and either fails only where
//! its count of faults rose. `MemoryFiles` and `MemorySink` hold their bytes in memory and fail by
//! lists of numbers; `HostFiles` and `HostSink` are the real ones, which tell no bytes. `Gate` has no clause: it is for
//! runs of many threads at once, which nothing makes yet.
#![tactic(auto)]

mod files;
mod gate;
mod host;
mod memory_files;
mod memory_sink;
mod sink;

pub use files::{FileFault, Files};
pub use gate::{Gate, OpenGate, Point};
pub use host::{HostFiles, HostSink};
pub use memory_files::MemoryFiles;
pub use memory_sink::MemorySink;
pub use sink::{Sink, SinkFailed};
