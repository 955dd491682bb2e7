//! Programs from their listings, for the rows of tests.
//!
//! `program` reads what `grin_syntax::list` writes. Head lines, above the listing, say what it does
//! not tell: `tags CInt/1 CNil/0` has the tags in their order, each with the number of its fields,
//! `start NAME` names the procedure that a run begins with (the last one, where there is no such
//! line), and `words` says that no variable stands for a node. The sites are numbered in the order
//! of the text, and the variables of each procedure behind those of the procedures before it.
#![tactic(auto)]

mod at;
mod error;
mod levels;
mod lines;
mod operations;
mod pieces;
mod reader;
mod values;

pub use error::ReadError;
pub use reader::program;
