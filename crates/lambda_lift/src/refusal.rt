//! Why a text with lambdas is not lifted.

ghost use Rattle.std.specs.Prelude.{◌≡◌, alloc_error};
ghost use Rattle.lambda_lift.specs.declared.refusal.LiftRefusal.TheVariants.{Memory};
ghost use Rattle.lambda_lift.specs.Refusal.{rule, place, refusal_of_reading};

use core_reader::ReadRefusal;
use limits::MOST_BYTES;
use std::alloc::AllocError;
use thiserror::Error;

/// The first rule that a text with lambdas breaks, with the place in bytes, or want of memory.
#[derive(Clone, Copy, Debug, Error)]
pub enum LiftRefusal {
    /// Rule 1: no token begins at this byte.
    #[error("no token begins at byte {0}")]
    BadByte(u32),
    /// Rule 2: no text with lambdas begins with the tokens up to this one, or it ends too early.
    #[error("the token at byte {0} cannot stand there")]
    Syntax(u32),
    /// Rule 3: an integer is outside -2147483648 to 2147483647.
    #[error("the integer at byte {0} is out of range")]
    NumberRange(u32),
    /// Rule 4: this `(`, `let` or `case` would be the 201st open one.
    #[error("too many constructs are open at byte {0}")]
    TooDeep(u32),
    /// Rule 5: the text has more than 1,048,576 bytes.
    #[error("the text has more than 1048576 bytes")]
    TextTooLong,
    /// Rule 61: the free names and the parameters of a lambda or a local function are more than 12;
    /// its `\` or name.
    #[error("the function at byte {0} has too many free names and parameters")]
    TooManyParameters(u32),
    /// Rule 62: a name begins with `lift'`; it.
    #[error("the name at byte {0} is reserved")]
    ReservedLift(u32),
    #[error("out of memory")]
    Memory(AllocError),
}

impl From<AllocError> for LiftRefusal {
    ghost from_gives = { λ _ e. e ≡ Memory alloc_error };

    fn from(error: AllocError) -> LiftRefusal {
        LiftRefusal::Memory(error)
    }
}

impl From<ReadRefusal> for LiftRefusal {
    ghost from_gives = { λ r e. e ≡ refusal_of_reading r };

    fn from(refusal: ReadRefusal) -> LiftRefusal {
        match refusal {
            ReadRefusal::BadByte(at) => LiftRefusal::BadByte(at),
            ReadRefusal::Syntax(at) => LiftRefusal::Syntax(at),
            ReadRefusal::NumberRange(at) => LiftRefusal::NumberRange(at),
            ReadRefusal::TooDeep(at) => LiftRefusal::TooDeep(at),
            ReadRefusal::TextTooLong => LiftRefusal::TextTooLong,
            ReadRefusal::Memory(error) => LiftRefusal::Memory(error),
        }
    }
}

impl LiftRefusal {
    /// The number of the broken rule; 0 for want of memory.
    pub fn rule(&self) -> u8
        ensures { result ≡ rule self.now }
    {
        match self {
            LiftRefusal::BadByte(_) => 1,
            LiftRefusal::Syntax(_) => 2,
            LiftRefusal::NumberRange(_) => 3,
            LiftRefusal::TooDeep(_) => 4,
            LiftRefusal::TextTooLong => 5,
            LiftRefusal::TooManyParameters(_) => 61,
            LiftRefusal::ReservedLift(_) => 62,
            LiftRefusal::Memory(_) => 0,
        }
    }

    /// The place in bytes, or 0 where there is none.
    pub fn place(&self) -> u32
        ensures { result ≡ place self.now }
    {
        match self {
            LiftRefusal::BadByte(at)
            | LiftRefusal::Syntax(at)
            | LiftRefusal::NumberRange(at)
            | LiftRefusal::TooDeep(at)
            | LiftRefusal::TooManyParameters(at)
            | LiftRefusal::ReservedLift(at) => *at,
            LiftRefusal::TextTooLong => MOST_BYTES,
            LiftRefusal::Memory(_) => 0,
        }
    }
}
