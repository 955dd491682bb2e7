//! Why a program is refused.

ghost use Rattle.std.specs.Prelude.{◌≡◌, alloc_error};
ghost use Rattle.arity_check.specs.declared.refusal.CheckRefusal.TheVariants.{Memory};
ghost use Rattle.arity_check.specs.Order.{rank};
ghost use Rattle.arity_check.specs.Refusal.{rule, number};

use std::alloc::AllocError;
use thiserror::Error;

/// The first rule that a program breaks, with the place of its token in bytes or the size of the
/// program, or want of memory.
#[derive(Clone, Copy, Debug, Error)]
pub enum CheckRefusal {
    /// Rule 11: a constructor is declared again; its name.
    #[error("the constructor at byte {0} is declared again")]
    DuplicateConstructor(u32),
    /// Rule 12: a function is declared again; its name.
    #[error("the function at byte {0} is declared again")]
    DuplicateFunction(u32),
    /// Rule 13: a name other than `_` stands again in one parameter list, pattern or let group; the
    /// second one.
    #[error("the name at byte {0} is bound again")]
    DuplicateName(u32),
    /// Rule 14: a name, also `_` as an expression, or a constructor is not bound; the use.
    #[error("the name at byte {0} is not bound")]
    UnknownName(u32),
    /// Rule 15: a constructor stands without exactly its number of arguments; the constructor.
    #[error("the constructor at byte {0} has another number of arguments")]
    ConstructorArity(u32),
    /// Rule 16: a default is followed by an alternative; the default's name.
    #[error("the default at byte {0} is not the last alternative")]
    DefaultNotLast(u32),
    /// Rule 17: a case names a constructor or an integer twice; the second alternative.
    #[error("the alternative at byte {0} stands again")]
    DuplicateAlternative(u32),
    /// Rule 18: a pattern's kind differs from that of the first pattern that is no default; that
    /// pattern.
    #[error("the alternative at byte {0} is of another kind than the first")]
    MixedAlternatives(u32),
    /// Rule 22: a function or a binder has the name of a primitive, or a constructor is named
    /// `Int`; the name.
    #[error("the name at byte {0} is reserved")]
    ReservedName(u32),
    /// Rule 23: a primitive stands without exactly two arguments; the primitive.
    #[error("the primitive at byte {0} does not have two arguments")]
    PrimitiveArity(u32),
    /// Rule 19: no function is named `main`.
    #[error("there is no function `main`")]
    NoMain,
    /// Rule 20: `main` has more than one parameter; its name.
    #[error("`main` at byte {0} has more than one parameter")]
    MainHasParameters(u32),
    /// Rule 21: `Nil` with no fields and `Cons` with two are not both declared.
    #[error("`Nil` and `Cons` are not declared")]
    NoListConstructors,
    /// Rule 31: there are more than 4,096 functions; the name of the next one.
    #[error("the function at byte {0} is one too many")]
    TooManyFunctions(u32),
    /// Rule 32: there are more than 1,024 constructors; the name of the next one.
    #[error("the constructor at byte {0} is one too many")]
    TooManyConstructors(u32),
    /// Rule 33: a function has more than 12 parameters, or an application as it is written more
    /// than 12 arguments; the function's name, or the application's head.
    #[error("more than 12 parameters or arguments at byte {0}")]
    TooManyParameters(u32),
    /// Rule 34: a constructor has more than 12 fields; its name.
    #[error("the constructor at byte {0} has more than 12 fields")]
    TooManyFields(u32),
    /// Rule 35: the size of the program is over 16,384; the size.
    #[error("the program has size {0}, which is over 16384")]
    CoreTooLarge(u64),
    #[error("out of memory")]
    Memory(AllocError),
}

impl From<AllocError> for CheckRefusal {
    ghost from_gives = { λ _ e. e ≡ Memory alloc_error };

    fn from(error: AllocError) -> CheckRefusal {
        CheckRefusal::Memory(error)
    }
}

/// The rank of a rule with this number at this place.
fn rank_by(rule: u8, number: u64) -> (u64, u64, u64)
    ensures { result ≡ rank rule number }
{
    let rule = rule as u64;
    if rule >= 31 {
        return (0, rule, number);
    }
    if rule < 19 {
        return (1, number, rule);
    }
    if rule <= 21 {
        return (2, rule, number);
    }
    (1, number, rule)
}

impl CheckRefusal {
    /// The number of the broken rule; 0 for want of memory.
    pub fn rule(&self) -> u8
        ensures { result ≡ rule self.now }
    {
        match self {
            CheckRefusal::DuplicateConstructor(_) => 11,
            CheckRefusal::DuplicateFunction(_) => 12,
            CheckRefusal::DuplicateName(_) => 13,
            CheckRefusal::UnknownName(_) => 14,
            CheckRefusal::ConstructorArity(_) => 15,
            CheckRefusal::DefaultNotLast(_) => 16,
            CheckRefusal::DuplicateAlternative(_) => 17,
            CheckRefusal::MixedAlternatives(_) => 18,
            CheckRefusal::ReservedName(_) => 22,
            CheckRefusal::PrimitiveArity(_) => 23,
            CheckRefusal::NoMain => 19,
            CheckRefusal::MainHasParameters(_) => 20,
            CheckRefusal::NoListConstructors => 21,
            CheckRefusal::TooManyFunctions(_) => 31,
            CheckRefusal::TooManyConstructors(_) => 32,
            CheckRefusal::TooManyParameters(_) => 33,
            CheckRefusal::TooManyFields(_) => 34,
            CheckRefusal::CoreTooLarge(_) => 35,
            CheckRefusal::Memory(_) => 0,
        }
    }

    /// The place in bytes, the size of the program for `CoreTooLarge`, or 0 where there is neither.
    pub fn number(&self) -> u64
        ensures { result ≡ number self.now }
    {
        match self {
            CheckRefusal::DuplicateConstructor(at)
            | CheckRefusal::DuplicateFunction(at)
            | CheckRefusal::DuplicateName(at)
            | CheckRefusal::UnknownName(at)
            | CheckRefusal::ConstructorArity(at)
            | CheckRefusal::DefaultNotLast(at)
            | CheckRefusal::DuplicateAlternative(at)
            | CheckRefusal::MixedAlternatives(at)
            | CheckRefusal::ReservedName(at)
            | CheckRefusal::PrimitiveArity(at)
            | CheckRefusal::MainHasParameters(at)
            | CheckRefusal::TooManyFunctions(at)
            | CheckRefusal::TooManyConstructors(at)
            | CheckRefusal::TooManyParameters(at)
            | CheckRefusal::TooManyFields(at) => *at as u64,
            CheckRefusal::CoreTooLarge(size) => *size,
            CheckRefusal::NoMain | CheckRefusal::NoListConstructors | CheckRefusal::Memory(_) => 0,
        }
    }

    /// The group of the rule, and the two numbers that order the rules of that group.
    pub fn rank(&self) -> (u64, u64, u64)
        ensures { result ≡ rank (rule self.now) (number self.now) }
    {
        rank_by(self.rule(), self.number())
    }
}
