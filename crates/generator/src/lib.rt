//! Texts of programs, generated from a number.
#![tactic(auto)]

mod draws;
mod program;
mod text;

pub use program::generated;
