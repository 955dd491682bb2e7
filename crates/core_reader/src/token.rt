//! The tokens of a text, with the numbers of names.

use crate::syntax::NameId;

/// A keyword or a sign of a dialect that Core has not.
#[derive(Clone, Copy, Debug, PartialEq, Eq)]
pub enum Further {
    /// `module`
    Module,
    /// `export`
    Export,
    /// `import`
    Import,
    /// `\`
    Backslash,
    /// `type`
    TypeDecl,
    /// `sig`
    Signature,
    /// `|`
    Bar,
    /// `:`
    Colon,
}

/// What stands at a place of the text.
#[derive(Clone, Copy, Debug, PartialEq, Eq)]
pub enum Token {
    /// A name.
    Name(NameId),
    /// A constructor.
    Con(NameId),
    /// A number within the range, and whether a `-` stands before it.
    Number(bool, i32),
    /// `data`
    Data,
    /// `let`
    Let,
    /// `in`
    In,
    /// `case`
    Case,
    /// `of`
    Of,
    /// `;`
    Semicolon,
    /// `=`
    Equals,
    /// `{`
    OpenBrace,
    /// `}`
    CloseBrace,
    /// `(`
    Open,
    /// `)`
    Close,
    /// `->`
    Arrow,
    /// A keyword or a sign that Core has not.
    Further(Further),
    /// A number outside the range, and whether a `-` stands before it. Nothing is read past it.
    Large(bool),
    /// No token begins at this byte. Nothing is read past it.
    Bad,
    /// The text ends.
    End,
}

/// A token, and the place of its first byte.
#[derive(Clone, Copy, Debug, PartialEq, Eq)]
pub struct Lexeme {
    /// The offset in bytes.
    pub at: u32,
    /// What stands there.
    pub token: Token,
}
