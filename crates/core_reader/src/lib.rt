//! The syntax of Core, a small lazy functional language, and its reader.
//!
//! `read` takes the bytes of a text and gives its program, or the first of five rules that the text
//! breaks. A language around Core, which has Core's tokens and a few of its own, is a `Dialect`:
//! `lex` gives the tokens of a text of each, and `Parser` reads the parts of Core among them.
//!
//! What a text stands for is said by `specs/`: `Bytes` and `TokensOf` have the tokens of a dialect
//! and the longest-token rule, `WordsOf` and `NamesOf` what a token says (`Tokens`, `Words` and
//! `Names` are those of Core), `Grammar` the productions, `Programs` the program of a text, `Rules`
//! what a text must not have (`Text` has the words, names, programs and rules in one place), and
//! `Readable` what holds of each program that was read. `LexedOf` says what `lex` gives. `Machine`
//! (expressions), `Declaring` (declarations) and `Parsed` say what a `Parser` does. A language
//! around Core says how it is read by `ReadingOf`: by `AroundOf`, if expressions of Core stand in
//! it, or by `HeaderOf`, if Core's declarations follow a header of its own. `LookOf` is a device of
//! the proofs. No clause of `read` speaks of any of these.
#![tactic(auto)]

mod bytes;
mod dialect;
pub mod laws;
mod lexer;
mod look;
mod parser;
mod reader;
mod refusal;
pub mod size;
mod syntax;
mod token;

pub use dialect::Dialect;
pub use lexer::{Lexed, lex};
pub use parser::{Declarations, Parser};
pub use reader::{copied_names, read};
pub use refusal::ReadRefusal;
pub use syntax::{
    Alt, App, Atom, Bind, Binder, Core, Data, Expr, Function, NameId, Names, Pattern,
};
pub use token::{Further, Lexeme, Token};
