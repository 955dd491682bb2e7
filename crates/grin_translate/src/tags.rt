//! What the tags and the procedures of a translated program stand for.

ghost use Rattle.std.specs.Prelude.{◌≡◌};
ghost use Rattle.grin_translate.specs.Tags.{same_thunk_kind};

use arity_check::normal::PrimOp;

/// What can wait in a cell until it is forced: a call of a function, an application to so many
/// arguments, an operation, or the rest of the input.
#[derive(Clone, Copy, Debug, PartialEq, Eq)]
pub enum Delay {
    /// A call of the function of this number.
    Calls(u32),
    /// An application to so many arguments.
    Applies(u32),
    /// A primitive operation on two numbers.
    Operates(PrimOp),
    /// The list of the bytes that are left of the input.
    Reads,
}

impl Delay {
    /// Whether two cells wait for the same: a call of one function, an application to as many
    /// arguments, one operation, or the rest of the input.
    pub fn is_same(self, other: Delay) -> bool
        ensures { result ≡ same_thunk_kind self other }
    {
        match self {
            Delay::Calls(f) => match other {
                Delay::Calls(g) => f == g,
                Delay::Applies(_) => false,
                Delay::Operates(_) => false,
                Delay::Reads => false,
            },
            Delay::Applies(m) => match other {
                Delay::Calls(_) => false,
                Delay::Applies(n) => m == n,
                Delay::Operates(_) => false,
                Delay::Reads => false,
            },
            Delay::Operates(op) => match other {
                Delay::Calls(_) => false,
                Delay::Applies(_) => false,
                Delay::Operates(another) => op as u8 == another as u8,
                Delay::Reads => false,
            },
            Delay::Reads => match other {
                Delay::Calls(_) => false,
                Delay::Applies(_) => false,
                Delay::Operates(_) => false,
                Delay::Reads => true,
            },
        }
    }
}

/// What a tag stands for: a number, a constructor, what waits, or a function that lacks so many of
/// its arguments.
#[derive(Clone, Copy, Debug, PartialEq, Eq)]
pub enum Kind {
    /// A number, its one field.
    Number,
    /// The constructor of this number.
    Constructor(u32),
    /// What waits until it is forced.
    Waits(Delay),
    /// The function of this number, and how many arguments it lacks.
    Lacks(u32, u32),
}
