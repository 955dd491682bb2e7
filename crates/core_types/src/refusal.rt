//! Why a program with types is refused.

ghost use Rattle.std.specs.Prelude.{◌≡◌, alloc_error};
ghost use Rattle.core_types.specs.declared.refusal.TypeFault.TheVariants.{Memory};
ghost use Rattle.core_types.specs.declared.refusal.TypeRefusal.TheVariants.{Fault};
ghost use Rattle.core_types.specs.Refused.{rule, number, unread_rule, unread_place, unread_fault};

use crate::sides::Ty;
use arity_check::refusal::CheckRefusal;
use core_reader::{Names, ReadRefusal};
use limits::MOST_BYTES;
use std::alloc::AllocError;
use thiserror::Error;

/// The first rule that a text of a program with types breaks, with the place in bytes, or want of
/// memory.
#[derive(Debug, Drop, Error)]
pub enum TypeFault {
    /// One of the rules 1 to 5, or want of memory.
    #[error("{0}")]
    Unread(ReadRefusal),
    /// One of the rules 11 to 35, which the program without its types breaks.
    #[error("{0}")]
    Unchecked(CheckRefusal),
    /// Rule 81: an earlier type has this type's name, or the name is `Int`, or an earlier parameter
    /// of the type has this parameter's name; that name.
    #[error("the type at byte {0} is declared again or reserved")]
    DuplicateType(u32),
    /// Rule 82: a type is unknown or has another number of arguments, or a variable in a type's
    /// declaration is none of its parameters; the name.
    #[error("the type at byte {0} is unknown or has another number of arguments")]
    UnknownType(u32),
    /// Rule 85: the text has no function for this signature, or an earlier signature is of it; its
    /// name.
    #[error("the signature at byte {0} is of no function or of one that has a signature")]
    BadSignature(u32),
    /// Rule 86: no type with one parameter has `Nil` and `Cons`, as lists have them.
    #[error("`Nil` and `Cons` are not the constructors of lists")]
    ListType,
    /// Rule 83: the types of two sides do not fit; the first place of a constraint that has no
    /// solution with those before it.
    #[error("the types at byte {0} do not fit")]
    Mismatch(u32),
    /// Rule 84: a case without default has an integer, or lacks a constructor of its type; the
    /// first pattern.
    #[error("the case whose first pattern is at byte {0} does not take every value")]
    NotExhaustive(u32),
    #[error("out of memory")]
    Memory(AllocError),
}

impl From<AllocError> for TypeFault {
    ghost from_gives = { λ _ e. e ≡ Memory alloc_error };

    fn from(error: AllocError) -> TypeFault {
        TypeFault::Memory(error)
    }
}

impl From<ReadRefusal> for TypeFault {
    ghost from_gives = { λ r e. e ≡ unread_fault r };

    fn from(refusal: ReadRefusal) -> TypeFault {
        match refusal {
            ReadRefusal::Memory(error) => TypeFault::Memory(error),
            ReadRefusal::BadByte(at) => TypeFault::Unread(ReadRefusal::BadByte(at)),
            ReadRefusal::Syntax(at) => TypeFault::Unread(ReadRefusal::Syntax(at)),
            ReadRefusal::NumberRange(at) => TypeFault::Unread(ReadRefusal::NumberRange(at)),
            ReadRefusal::TooDeep(at) => TypeFault::Unread(ReadRefusal::TooDeep(at)),
            ReadRefusal::TextTooLong => TypeFault::Unread(ReadRefusal::TextTooLong),
        }
    }
}

/// The number of the rule that a text breaks that cannot be read; 0 for want of memory.
fn unread_rule(refusal: &ReadRefusal) -> u8
    ensures { result ≡ unread_rule refusal.now }
{
    match refusal {
        ReadRefusal::BadByte(_) => 1,
        ReadRefusal::Syntax(_) => 2,
        ReadRefusal::NumberRange(_) => 3,
        ReadRefusal::TooDeep(_) => 4,
        ReadRefusal::TextTooLong => 5,
        ReadRefusal::Memory(_) => 0,
    }
}

/// The place in bytes at which it does.
fn unread_place(refusal: &ReadRefusal) -> u32
    ensures { result ≡ unread_place refusal.now }
{
    match refusal {
        ReadRefusal::BadByte(at)
        | ReadRefusal::Syntax(at)
        | ReadRefusal::NumberRange(at)
        | ReadRefusal::TooDeep(at) => *at,
        ReadRefusal::TextTooLong => MOST_BYTES,
        ReadRefusal::Memory(_) => 0,
    }
}

impl TypeFault {
    /// The number of the broken rule; 0 for want of memory.
    pub fn rule(&self) -> u8
        ensures { result ≡ rule self.now }
    {
        match self {
            TypeFault::Unread(refusal) => unread_rule(refusal),
            TypeFault::Unchecked(refusal) => refusal.rule(),
            TypeFault::DuplicateType(_) => 81,
            TypeFault::UnknownType(_) => 82,
            TypeFault::Mismatch(_) => 83,
            TypeFault::NotExhaustive(_) => 84,
            TypeFault::BadSignature(_) => 85,
            TypeFault::ListType => 86,
            TypeFault::Memory(_) => 0,
        }
    }

    /// The place in bytes, the size of the program for rule 35, or 0 where there is neither.
    pub fn number(&self) -> u64
        ensures { result ≡ number self.now }
    {
        match self {
            TypeFault::Unread(refusal) => u64::from(unread_place(refusal)),
            TypeFault::Unchecked(refusal) => refusal.number(),
            TypeFault::DuplicateType(at)
            | TypeFault::UnknownType(at)
            | TypeFault::Mismatch(at)
            | TypeFault::NotExhaustive(at)
            | TypeFault::BadSignature(at) => u64::from(*at),
            TypeFault::ListType | TypeFault::Memory(_) => 0,
        }
    }
}

/// Why a program with types is refused, with the types of the two sides where they do not fit.
#[derive(Drop)]
pub enum TypeRefusal {
    /// Rule 83: its place, the types of the two sides as the constraints before leave them, and the
    /// names of the program.
    Mismatch(u32, Ty, Ty, Names),
    /// Another rule, or want of memory.
    Fault(TypeFault),
}

impl From<AllocError> for TypeRefusal {
    ghost from_gives = { λ _ e. e ≡ Fault (Memory alloc_error) };

    fn from(error: AllocError) -> TypeRefusal {
        TypeRefusal::Fault(TypeFault::Memory(error))
    }
}
