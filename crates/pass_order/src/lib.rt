//! A pass: each case tests for values before it tests for delayed calls.
#![tactic(auto)]

mod order;
mod pass;
mod rule;

pub use pass::{ValuesFirst, with_values_first};
