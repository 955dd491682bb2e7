//! A pass: a fetch of a word of a cell that the procedure stored gives way to the word, where it is
//! known.
#![tactic(auto)]

mod blocks;
mod memory;
mod pass;
mod sets;
mod shown;

pub use pass::{Remember, with_remembered_words};
