//! A pass: a parameter that stands for a cell whose node never changes is replaced by the fields of
//! the node.
#![tactic(auto)]

mod blocks;
mod calls;
mod cells;
mod decide;
mod params;
mod pass;
mod updated;

pub use pass::{Raise, with_raised_params};
