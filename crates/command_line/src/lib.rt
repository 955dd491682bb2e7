//! The command line: the words that it has, and the command that they stand for.
#![tactic(auto)]

mod arguments;
mod command;
mod files;
pub mod laws;
mod line;
mod number;
mod word;

pub use command::{Command, Listing};
pub use files::FileOperands;
pub use line::Line;
