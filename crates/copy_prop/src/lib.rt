//! A pass: copies of words are replaced by the words, and statements that change nothing and bind
//! what nobody uses go.
#![tactic(auto)]

mod copies;
mod lean;
mod pass;
mod resolve;
mod uses;

pub use pass::{Copies, with_copies_unused, without_idle};
pub use uses::Uses;
