//! Programs of vectors: by a solution of the program's flow system, words of a vector that nobody
//! reads go, from the target that takes it and from each unit that gives it.
#![tactic(auto)]

mod blocks;
mod fit;
mod pass;
mod picked;

pub use pass::without_unread_words;
