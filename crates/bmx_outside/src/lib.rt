//! What a program reads and writes: sources and sinks of bytes, each with a count of its faults.
//! A fault is answered only where that count rose, so a caller who knows the count knows what may
//! have failed. Sources and sinks in memory tell their bytes; the standard streams tell only counts.
#![tactic(auto)]

mod folder;
mod inputs;
mod mem_shelves;
mod outputs;
mod plans;
#[cfg(test)]
mod shelf_tests;
mod shelves;
mod sinks;
mod sources;
mod standard;
#[cfg(test)]
mod tests;

pub use folder::DirShelf;
pub use inputs::{MemSource, NoFaultSource};
pub use mem_shelves::{MemShelf, NoFaultShelf};
pub use outputs::{MemSink, NoFaultSink};
pub use plans::Calls;
pub use shelves::{Shelf, ShelfError};
pub use sinks::{Sink, SinkError, write_all};
pub use sources::{Failed, ReadError, Source, read_to_limit};
pub use standard::{StdSink, StdSource};
