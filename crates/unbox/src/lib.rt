//! A pass: procedures that give numbers alone give them without their tag, and where such a number
//! is bound, the tag is put beside it.
#![tactic(auto)]

mod blocks;
mod members;
mod pass;
mod ties;

pub use pass::{Unbox, with_unboxed_numbers, with_unboxed_numbers_by};
