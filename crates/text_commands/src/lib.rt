//! Commands that make a text of texts and need no compiler: the check of a text, its canonical
//! text, modules linked, lambdas lifted, equations compiled, types checked, and the two sides of
//! types that do not fit; with what all commands share: how they end, and how files are read and
//! outputs put.
//!
//! `specs/` has what each status says: of the error output (`Statuses`, `Telling`), of files
//! (`Reading`, `Operands`), of what is made of a text and put (`Writing`, `Putting`), and of each
//! command (`Text`, `Checking`, `Printing`, `Linking`, `Lifting`, `Matching`, `Typing`).
#![tactic(auto)]

pub mod accept;
pub mod check;
pub mod equations;
pub mod laws;
pub mod lift;
pub mod link;
pub mod note;
pub mod operands;
pub mod pieces;
pub mod print;
pub mod reading;
pub mod sides;
pub mod status;
pub mod types;
pub mod writing;
