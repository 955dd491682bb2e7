//! The files and streams of the system as shelves, sources and sinks.
#![tactic(auto)]

mod ahead;
mod fault;
mod files;
mod reader;
mod writer;

pub use files::FileShelf;
pub use reader::{ReaderSource, std_in};
pub use writer::{WriterSink, std_err, std_out};
