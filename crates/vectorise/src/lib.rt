//! A pass: each node variable becomes a vector of words.
#![tactic(auto)]

mod blocks;
mod known;
mod layout;
mod pass;
mod words;

pub use pass::{Vectorise, with_vectors};
