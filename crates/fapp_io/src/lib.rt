//! Sources and sinks of bytes, whose faults are counted, and the calls that read and write the
//! whole.
#![tactic(auto)]

mod calls;
mod clean;
mod feed;
mod memory_sink;
mod memory_source;
mod sink;
mod source;
mod std_sink;
mod std_source;
mod whole;

pub use clean::{CleanSink, CleanSource};
pub use memory_sink::MemSink;
pub use memory_source::MemSource;
pub use sink::Sink;
pub use source::{Failed, Source};
pub use std::alloc::AllocError as NoMemory;
pub use std_sink::StdSink;
pub use std_source::StdSource;
pub use whole::{ReadEnd, WriteEnd, read_all, write_all};

#[cfg(test)]
mod tests;
