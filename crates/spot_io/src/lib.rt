//! Sources and sinks of bytes that count their failed calls, and whole transfers over them.
#![tactic(auto)]

mod memory;
mod never;
mod outside;
mod traits;
mod transfers;

pub use memory::{MemSink, MemSource, mem_sink, mem_source};
pub use never::{NeverSink, NeverSource, never_sink, never_source};
pub use outside::{StdSink, StdSource};
pub use traits::{Buffered, Sink, SinkFault, Source, SourceFault};
pub use transfers::{ReadEnd, read_all, write_all};

#[cfg(test)]
mod tests;
