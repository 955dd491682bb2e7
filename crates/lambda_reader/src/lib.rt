//! The syntax of Core with lambdas and local functions, which Core's is a part of, and its reader.
//!
//! `read_lambdas` takes the bytes of a text and gives its program, or the first of five rules that
//! the text breaks.
//!
//! `specs/Tree` says what a program is, `specs/Grammar` which tokens spell its expressions,
//! `specs/Programs` which program a text stands for and what the rules are, `specs/Readable` what
//! holds of each program that was read, and `specs/Reserved` which names lifting keeps for itself.
//! `specs/Machine`, `Code`, `Reads`, `AroundOf`, `Declaring` and `Reserving` are devices of the
//! proofs.
#![tactic(auto)]

mod declarations;
mod expressions;
pub mod laws;
mod patterns;
mod reader;
mod reserved;
mod syntax;

pub use reader::{ReadResult, read_lambdas};
pub use syntax::{Alt, App, Atom, Bind, Expr, Function, Program};
