//! A pass over programs of vectors: a case on a known tag becomes the alternative that it takes,
//! and a case that only gives back its vector a unit. What is known of a word is known of its copy.
#![tactic(auto)]

mod blocks;
mod choice;
mod known;
mod pass;
mod rule;
mod words;

pub use known::{Known, note_pattern, note_statement};
pub use pass::{Simplify, with_fewer_cases};
