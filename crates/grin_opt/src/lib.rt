//! The stages of a program, and the schedule of the passes between them.
#![tactic(auto)]

pub mod laws;
mod schedule;

pub use schedule::{after_pass, optimise};
pub use stage_names::PassName;
