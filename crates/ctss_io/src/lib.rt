//! Bytes that come in and bytes that go out: a source and a sink as a program is handed them, in
//! memory and over the standard streams, and reading or writing the whole of a text.
#![tactic(auto)]

mod memory;
mod outside;
mod standard;
mod whole;

pub use faults::NoMemory;
pub use memory::{MemorySink, MemorySource};
pub use outside::{Got, Sink, Source, Took};
pub use standard::{StdSink, StdSource};
pub use whole::{LIMIT, ReadEnd, WriteFault, read_bytes, write_all};
