//! A pass: nested blocks give way to their statements.
#![tactic(auto)]

mod blocks;
mod pass;

pub use pass::{Flatten, without_nested};
