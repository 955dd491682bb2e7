//! Pattern equations: texts of Core in which a function is one or more equations over patterns.
//!
//! `read_equations` takes the bytes of a text and gives its equations, or the first rule that the
//! text breaks. `compile_matches` gives the program of Core that they become, and `compile_source`
//! that of equations that are there as a tree.
//!
//! `specs/Source` says what equations are, `specs/Grammar` which tokens spell them, `specs/Parts`
//! which names and constructors stand in patterns, and `specs/Rules` what equations must not have.
//! `specs/ByEquations` says what equations put out, of which `specs/Form` is the normal form.
//! `specs/Trees` and `Decisions` have the trees of tests that equations become, `specs/Translated`
//! the program of Core that these are, and `laws` what holds of them. `tree` lets equations go into
//! such trees, each on its way as `row` has it, and `decide` makes those of each function, with the
//! integers of the first test in `known`.
//! `emission` writes a tree as a function of Core, with the numbers of names that `words` has,
//! where `stays` says which places keep a name; `rename` turns bodies, `names` has the names, and
//! `compile` puts the program together. `specs/Reading`, `Refusal`, `Faults`, and those whose name
//! ends in `Of` are devices of the proofs.
#![tactic(auto)]

mod compile;
mod decide;
mod emission;
mod head;
mod known;
pub mod laws;
mod names;
mod parts;
mod patterns;
mod reader;
mod refusal;
mod rename;
mod row;
mod rules;
mod source;
mod stays;
mod tree;
mod words;

pub use compile::{compile_matches, compile_source};
pub use reader::read_equations;
pub use refusal::MatchRefusal;
pub use source::{Equation, Pat, Source};
