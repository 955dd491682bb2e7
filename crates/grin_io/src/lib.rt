//! The outside: shelves of files, sources and sinks of bytes, each with a count of faults; objects
//! in memory that plan their failures.
#![tactic(auto)]

mod calls;
mod folder;
mod memory;
mod outside;
mod sure;

pub use memory::{MemFile, MemShelf, MemSink, MemSource};
pub use outside::{Failed, Fault, Shelf, Sink, Source};
pub use sure::{SureShelf, SureSource};
