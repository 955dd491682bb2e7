// Why a program has no later stages.

ghost use Rattle.std.specs.Prelude.{◌≡◌, alloc_error};
ghost use Rattle.grin_stages.specs.declared.refusal.CompileRefusal.TheVariants.{Memory};

use std::alloc::AllocError;
use thiserror::Error;

/// Why an accepted program is not compiled.
#[derive(Clone, Copy, Debug, Error)]
pub enum CompileRefusal {
    /// Rule 36: once its evaluations and applications are inlined the program has this size, which
    /// is over 131,072.
    #[error("the program has size {0} once it is inlined, which is over 131072")]
    ExpandedTooLarge(u64),
    #[error("out of memory")]
    Memory(AllocError),
}

impl From<AllocError> for CompileRefusal {
    ghost from_gives = { λ _ e. e ≡ Memory alloc_error };

    fn from(error: AllocError) -> CompileRefusal {
        CompileRefusal::Memory(error)
    }
}
