//! A pass over programs of vectors: a literal stands for each variable of which it is told what it
//! holds, by an alternative around it or by the least solution of the program's flow system, and
//! alternatives of tags outside this solution go.
#![tactic(auto)]

mod needed;
mod pass;
mod rule;
mod told;

pub use pass::{KnownWords, ToldWords, with_known_words, with_locally_known_words};
