//! Equations as they were read.

use core_reader::{Binder, Data, Expr, NameId, Names};
use seq::Seq;

/// What an argument of a function, or a field of a value, is matched with.
#[derive(Drop)]
#[cycle(pat)]
pub enum Pat {
    /// Every value, under this name.
    Name(Binder),
    /// This integer alone, with the offset of its token.
    Int(i32, u32),
    /// Values of a constructor, with a pattern for each field.
    Con(Binder, Seq<Pat>),
}

/// One equation of a function.
#[derive(Drop)]
pub struct Equation {
    /// The name of the function.
    pub name: NameId,
    /// The place of the name.
    pub at: u32,
    /// A pattern for each argument, in text order.
    pub pats: Seq<Pat>,
    /// What the function is where the patterns match.
    pub body: Expr,
}

/// A text of equations as it was read.
#[derive(Drop)]
pub struct Source {
    /// The names that occur in it, in the order in which the reader first meets them.
    pub names: Names,
    /// The constructors, in text order.
    pub constructors: Seq<Data>,
    /// The equations, in text order.
    pub equations: Seq<Equation>,
}
