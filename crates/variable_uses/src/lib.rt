//! Where the variables of a text are used: a list of uses is searched by a variable and by
//! positions.
#![tactic(auto)]

pub mod uses;

pub use uses::{Use, Uses};
