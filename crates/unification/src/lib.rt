//! First-order terms that stand as nodes in a vector, and the most general solution of equations
//! between them.
#![tactic(auto)]

pub mod classes;
mod joining;
mod pieces;
mod solution;
pub mod term;
mod walk;

pub use classes::Classes;
pub use pieces::{Piece, tree_pieces};
pub use solution::{first_unsolved, solve};
pub use term::{Symbol, Term};
