//! The syntax of Core with lambdas and local functions, which Core's is a part of.

use core_reader::{Binder, Data, NameId, Names, Pattern};
use seq::Seq;

/// An application: a head and its arguments.
#[derive(Drop)]
#[cycle(lambda)]
pub struct App {
    /// What is applied.
    pub head: Atom,
    /// The arguments in text order; none where the head stands alone.
    pub args: Seq<Atom>,
}

/// A head or an argument, with the offset of its first token.
#[derive(Drop)]
#[cycle(lambda)]
pub enum Atom {
    /// The name of a variable, a function or a primitive operation.
    Name(NameId, u32),
    /// A constructor.
    Con(NameId, u32),
    /// An integer.
    Int(i32, u32),
    /// An application in brackets, whose first token is the `(`.
    Bracket(Box<App>, u32),
    /// A lambda in brackets: its parameters, at least one, its body, and the place of its `\`.
    Lambda(Seq<Binder>, Box<Expr>, u32),
}

/// A member of a let group.
#[derive(Drop)]
#[cycle(lambda)]
pub enum Bind {
    /// A name, and the application that it stands for.
    Value(Binder, App),
    /// A local function: its name, its parameters, at least one, and its body.
    Function(Binder, Seq<Binder>, Expr),
}

/// An expression.
#[derive(Drop)]
#[cycle(lambda)]
pub enum Expr {
    /// An application.
    App(App),
    /// A let group, its members in text order, and its body.
    Let(Seq<Bind>, Box<Expr>),
    /// An expression, and the alternatives for its value, in text order.
    Case(Box<Expr>, Seq<Alt>),
}

/// An alternative of a case.
#[derive(Drop)]
#[cycle(lambda)]
pub struct Alt {
    /// Which values it accepts.
    pub pattern: Pattern,
    /// The expression behind its arrow.
    pub body: Expr,
}

/// A function with its parameters.
#[derive(Drop)]
pub struct Function {
    /// Its name.
    pub name: NameId,
    /// The place of its name.
    pub at: u32,
    /// Its parameters, in text order.
    pub params: Seq<Binder>,
    /// The expression that it stands for.
    pub body: Expr,
}

/// A program as it was read.
#[derive(Drop)]
pub struct Program {
    /// The names that occur in it, in the order in which the reader first meets them.
    pub names: Names,
    /// The constructors, in text order.
    pub constructors: Seq<Data>,
    /// The functions, in text order.
    pub functions: Seq<Function>,
}
