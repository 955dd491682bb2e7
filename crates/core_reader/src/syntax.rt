//! The syntax of Core.

ghost use Rattle.std.specs.Prelude.{◌≡◌};
ghost use Rattle.core_reader.specs.Different.{AreDistinct};

use seq::Seq;
use std::marker::Model;

/// A name, as its number in the table of names: its place there, from 0.
#[derive(Clone, Copy, PartialEq, Eq, Debug)]
pub struct NameId(pub u32);

/// A place where a name is bound. Here and in all types of the syntax `at` is the offset in bytes
/// of the token.
#[derive(Clone, Copy, PartialEq, Eq, Debug)]
pub struct Binder {
    /// The name that is bound, which is `_` where nothing is.
    pub name: NameId,
    /// The place of the name.
    pub at: u32,
}

/// An application: a head and its arguments.
#[derive(Drop)]
#[cycle(syntax)]
pub struct App {
    /// What is applied.
    pub head: Atom,
    /// The arguments in text order; none where the head stands alone.
    pub args: Seq<Atom>,
}

/// A head or an argument, with the offset of its first token.
#[derive(Drop)]
#[cycle(syntax)]
pub enum Atom {
    /// The name of a variable, a function or a primitive operation.
    Name(NameId, u32),
    /// A constructor.
    Con(NameId, u32),
    /// An integer.
    Int(i32, u32),
    /// An application in brackets, whose first token is the `(`.
    Bracket(Box<App>, u32),
}

/// A member of a let group.
#[derive(Drop)]
pub struct Bind {
    /// The name that it binds.
    pub binder: Binder,
    /// What the name stands for.
    pub app: App,
}

/// What an alternative accepts.
#[derive(Drop)]
pub enum Pattern {
    /// Values of a constructor, which is the first name, with a name for each of its fields.
    Con(Binder, Seq<Binder>),
    /// This integer alone, with the offset of its token.
    Int(i32, u32),
    /// Every value, under this name.
    Default(Binder),
}

/// An expression.
#[derive(Drop)]
#[cycle(expr)]
pub enum Expr {
    /// An application.
    App(App),
    /// A let group, its members in text order, and its body.
    Let(Seq<Bind>, Box<Expr>),
    /// An expression, and the alternatives for its value, in text order.
    Case(Box<Expr>, Seq<Alt>),
}

/// An alternative of a case.
#[derive(Drop)]
#[cycle(expr)]
pub struct Alt {
    /// Which values it accepts.
    pub pattern: Pattern,
    /// The expression behind its arrow.
    pub body: Expr,
}

/// The names of a program, each there once, which contracts see as the list of their bytes.
#[derive(Drop)]
pub struct Names {
    entries: Vec<Seq<u8>>,
}

impl Model for Names {
    ghost use Rattle.std.specs.Prelude.{List, ℕ};
    ghost use Rattle.core_reader.specs.Different.{AreDistinct};

    ghost Value = { List (List ℕ) };

    ghost view = { λ n. n.entries.items };

    ghost invariant = { λ n. AreDistinct n.entries.items };
}

impl Names {
    /// Names from their bytes. The number of each is its place among them.
    pub fn from_vec(entries: Vec<Seq<u8>>) -> Names
        requires { AreDistinct entries.items }
        ensures { result ≡ entries.items }
    {
        Names { entries }
    }

    /// The bytes of each name, as they were given.
    pub fn into_vec(self) -> Vec<Seq<u8>>
        ensures given { result.items ≡ self }
        ensures different { AreDistinct result.items }
    {
        let Names { entries } = self;
        entries
    }

    /// The bytes of each name.
    pub fn texts(&self) -> &[Seq<u8>]
        ensures { result.now ≡ self.now }
    {
        self.entries.as_slice()
    }
}

/// A constructor with its number of fields.
#[derive(Drop)]
pub struct Data {
    /// Its name.
    pub name: NameId,
    /// How many fields it has.
    pub fields: u32,
    /// The place of its name.
    pub at: u32,
}

/// A function with its parameters.
#[derive(Drop)]
pub struct Function {
    /// Its name.
    pub name: NameId,
    /// The place of its name.
    pub at: u32,
    /// Its parameters, in text order.
    pub params: Seq<Binder>,
    /// The expression that it stands for.
    pub body: Expr,
}

/// A program as it was read.
#[derive(Drop)]
pub struct Core {
    /// The names that occur in it, in the order in which `read` first meets them.
    pub names: Names,
    /// The constructors, in text order.
    pub constructors: Seq<Data>,
    /// The functions, in text order.
    pub functions: Seq<Function>,
}
