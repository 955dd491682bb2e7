//! Executables in the format ELF32 for RISC-V, and the programs that they stand for.
#![tactic(auto)]

mod header;
pub mod image;
mod overlap;
mod reader;
mod refusal;
mod writer;

pub use image::{Loaded, Segment};
pub use reader::{read, too_long};
pub use refusal::ElfRefusal;
pub use writer::write;
