//! The canonical text of a Core program, which reads back as the same program.
//!
//! `print` writes it; `laws` says that within the reader's limits of length and nesting it breaks
//! no rule, and that the program that is read again is the same, the places and the numbers of the
//! names aside. `specs/Canonical` has the text, `Depth` the nesting, and `Same` which programs are
//! the same.
#![tactic(auto)]

pub mod laws;
mod printer;

pub use printer::print;
