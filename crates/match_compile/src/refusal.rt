//! Why a text of equations is not compiled.

ghost use Rattle.std.specs.Prelude.{◌≡◌, alloc_error};
ghost use Rattle.match_compile.specs.declared.refusal.MatchRefusal.TheVariants.{Memory};
ghost use Rattle.match_compile.specs.Refusal.{rule, place, refusal_of_reading};

use core_reader::ReadRefusal;
use limits::MOST_BYTES;
use std::alloc::AllocError;
use thiserror::Error;

/// The first rule that a text of equations breaks, with the place in bytes, or want of memory.
#[derive(Clone, Copy, Debug, Error)]
pub enum MatchRefusal {
    /// Rule 1: no token begins at this byte.
    #[error("no token begins at byte {0}")]
    BadByte(u32),
    /// Rule 2: no text of equations begins with the tokens up to this one, or it ends too early.
    #[error("the token at byte {0} cannot stand there")]
    Syntax(u32),
    /// Rule 3: an integer is outside -2147483648 to 2147483647.
    #[error("the integer at byte {0} is out of range")]
    NumberRange(u32),
    /// Rule 4: this `(`, `let` or `case` would be the 201st open one.
    #[error("too many constructs are open at byte {0}")]
    TooDeep(u32),
    /// Rule 5: the text has more than 1,048,576 bytes.
    #[error("the text has more than 1048576 bytes")]
    TextTooLong,
    /// Rule 12: equations of this name stand before, but not directly before; the name.
    #[error("the function at byte {0} is defined again")]
    DuplicateFunction(u32),
    /// Rule 13: a name other than `_` stands again in the patterns of an equation; the second one.
    #[error("the name at byte {0} is bound again")]
    DuplicateName(u32),
    /// Rule 14: a pattern's constructor is not declared; it.
    #[error("the constructor at byte {0} is not declared")]
    UnknownName(u32),
    /// Rule 71: an equation has another number of patterns than the first one of its function; its
    /// name.
    #[error("the equation at byte {0} has another number of patterns than the first")]
    ArityDiffers(u32),
    /// Rule 73: a pattern's constructor has another number of fields; it.
    #[error("the constructor at byte {0} has another number of fields")]
    PatternArity(u32),
    /// Rule 74: a name begins with `match'`; it.
    #[error("the name at byte {0} is reserved")]
    ReservedMatch(u32),
    #[error("out of memory")]
    Memory(AllocError),
}

impl From<AllocError> for MatchRefusal {
    ghost from_gives = { λ _ e. e ≡ Memory alloc_error };

    fn from(error: AllocError) -> MatchRefusal {
        MatchRefusal::Memory(error)
    }
}

impl MatchRefusal {
    /// The number of the broken rule; 0 for want of memory.
    pub fn rule(&self) -> u8
        ensures { result ≡ rule self.now }
    {
        match self {
            MatchRefusal::BadByte(_) => 1,
            MatchRefusal::Syntax(_) => 2,
            MatchRefusal::NumberRange(_) => 3,
            MatchRefusal::TooDeep(_) => 4,
            MatchRefusal::TextTooLong => 5,
            MatchRefusal::DuplicateFunction(_) => 12,
            MatchRefusal::DuplicateName(_) => 13,
            MatchRefusal::UnknownName(_) => 14,
            MatchRefusal::ArityDiffers(_) => 71,
            MatchRefusal::PatternArity(_) => 73,
            MatchRefusal::ReservedMatch(_) => 74,
            MatchRefusal::Memory(_) => 0,
        }
    }

    /// The place in bytes, or 0 where there is none.
    pub fn place(&self) -> u32
        ensures { result ≡ place self.now }
    {
        match self {
            MatchRefusal::BadByte(at)
            | MatchRefusal::Syntax(at)
            | MatchRefusal::NumberRange(at)
            | MatchRefusal::TooDeep(at)
            | MatchRefusal::DuplicateFunction(at)
            | MatchRefusal::DuplicateName(at)
            | MatchRefusal::UnknownName(at)
            | MatchRefusal::ArityDiffers(at)
            | MatchRefusal::PatternArity(at)
            | MatchRefusal::ReservedMatch(at) => *at,
            MatchRefusal::TextTooLong => MOST_BYTES,
            MatchRefusal::Memory(_) => 0,
        }
    }
}

/// The refusal of a text that cannot be read.
pub(crate) fn refusal_of_reading(refusal: ReadRefusal) -> MatchRefusal
    ensures { result ≡ refusal_of_reading refusal }
{
    match refusal {
        ReadRefusal::BadByte(at) => MatchRefusal::BadByte(at),
        ReadRefusal::Syntax(at) => MatchRefusal::Syntax(at),
        ReadRefusal::NumberRange(at) => MatchRefusal::NumberRange(at),
        ReadRefusal::TooDeep(at) => MatchRefusal::TooDeep(at),
        ReadRefusal::TextTooLong => MatchRefusal::TextTooLong,
        ReadRefusal::Memory(error) => MatchRefusal::Memory(error),
    }
}
