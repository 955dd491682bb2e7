//! A pass: each fetch of a whole node becomes a fetch of its tag and fetches of the words that are
//! used.
#![tactic(auto)]

mod ending;
mod names;
mod nodes;
mod notes;
mod pass;
mod scan;
mod split;
mod windows;

pub use pass::{Fetches, with_word_fetches};
