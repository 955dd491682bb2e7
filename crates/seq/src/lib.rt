//! Lists that contracts see as lists, so that a tree of them is plain data.
#![tactic(auto)]

pub mod list;

pub use list::{Seq, Text};
