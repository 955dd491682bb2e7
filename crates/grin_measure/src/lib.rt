//! How large a program is: its size, and whether it is slim enough for code to be made of it.
#![tactic(auto)]

mod counts;
mod measure;
mod walk;

pub use measure::{Sizes, is_slim, sizes_of};
