//! Programs in normal form.

use seq::{Seq, Text};

/// A variable of a function, or a function without parameters.
#[derive(Clone, Copy, PartialEq, Eq, Debug)]
pub enum Var {
    /// The local of this number. A function's locals are numbered from 0 in the order of binding,
    /// its parameters first.
    Local(u32),
    /// The function without parameters of this number. The functions of a program are numbered from
    /// 0 in text order.
    Global(u32),
}

/// A primitive operation on two numbers: the sum, difference and product modulo 2^32, the quotient
/// and the remainder as RISC-V divides, and whether the first is equal to or less than the second,
/// as 1 or 0.
#[derive(Clone, Copy, PartialEq, Eq, Debug)]
pub enum PrimOp {
    Add,
    Sub,
    Mul,
    Quot,
    Rem,
    Eq,
    Lt,
}

/// An application whose arguments are variables.
#[derive(Drop)]
pub enum Flat {
    /// A number.
    Int(i32),
    /// The constructor of this number with all its fields. The constructors of a program are
    /// numbered from 0 in text order.
    Con(u32, Seq<Var>),
    /// An operation on two numbers.
    Prim(PrimOp, Var, Var),
    /// What a variable stands for, applied to so many arguments, or to none.
    Apply(Var, Seq<Var>),
    /// The function of this number with as many arguments as it has parameters, at least one.
    Call(u32, Seq<Var>),
    /// The function of this number with fewer arguments than it has parameters, or with none.
    Part(u32, Seq<Var>),
}

/// An expression in normal form.
#[derive(Drop)]
#[cycle(body)]
pub enum Body {
    /// An application.
    App(Flat),
    /// A let group, in whose members and body all its locals are in scope.
    Let(Seq<Bound>, Box<Body>),
    /// An expression, and the branches for its value, in text order.
    Case(Box<Body>, Seq<Branch>),
}

/// A member of a let group.
#[derive(Drop)]
pub struct Bound {
    /// The number of the local that it binds.
    pub local: u32,
    /// What the local stands for.
    pub flat: Flat,
}

/// A branch of a case.
#[derive(Drop)]
#[cycle(body)]
pub enum Branch {
    /// For values of the constructor of this number, with a local for each of its fields.
    Con(u32, Seq<u32>, Body),
    /// For this number alone.
    Int(i32, Body),
    /// For every value, with the local that holds it, or `None` for `_`.
    Default(Option<u32>, Body),
}

/// A constructor with its number of fields.
#[derive(Drop)]
pub struct Con {
    /// The bytes of its name.
    pub name: Text,
    /// How many fields it has.
    pub fields: u32,
}

/// A function with its number of parameters.
#[derive(Drop)]
pub struct Fun {
    /// The bytes of its name.
    pub name: Text,
    /// How many parameters it has. They are its first locals.
    pub params: u32,
    /// The expression that it stands for.
    pub body: Body,
}

/// A program in normal form.
#[derive(Drop)]
pub struct Checked {
    /// The constructors, in text order.
    pub cons: Seq<Con>,
    /// The functions, in text order.
    pub funs: Seq<Fun>,
    /// The number of the function `main`.
    pub main: u32,
}
