//! Why a text is no program.

ghost use Rattle.std.specs.Prelude.{◌≡◌};
ghost use Rattle.core_reader.specs.declared.refusal.ReadRefusal.TheVariants.{Memory};
ghost use Rattle.std.specs.Prelude.{alloc_error};

use std::alloc::{AllocError, AllocFailed};
use thiserror::Error;

/// The first rule that a text breaks, with the place in bytes, or want of memory.
#[derive(Debug, Drop, Error)]
pub enum ReadRefusal {
    /// Rule 1: no token begins at this byte.
    #[error("no token begins at byte {0}")]
    BadByte(u32),
    /// Rule 2: no program begins with the tokens up to this one, or the text ends too early.
    #[error("the token at byte {0} cannot stand there")]
    Syntax(u32),
    /// Rule 3: an integer is outside -2147483648 to 2147483647.
    #[error("the integer at byte {0} is out of range")]
    NumberRange(u32),
    /// Rule 4: this `(`, `let` or `case` would be the 201st open one.
    #[error("too many constructs are open at byte {0}")]
    TooDeep(u32),
    /// Rule 5: the text has more than 1,048,576 bytes.
    #[error("the text has more than 1048576 bytes")]
    TextTooLong,
    #[error("out of memory")]
    Memory(AllocError),
}

impl From<AllocError> for ReadRefusal {
    ghost from_gives = { λ _ e. e ≡ Memory alloc_error };

    fn from(error: AllocError) -> ReadRefusal {
        ReadRefusal::Memory(error)
    }
}

impl<T: Drop> From<AllocFailed<T>> for ReadRefusal {
    ghost from_gives = { λ _ e. e ≡ Memory alloc_error };

    fn from(_failed: AllocFailed<T>) -> ReadRefusal {
        ReadRefusal::Memory(AllocError)
    }
}
