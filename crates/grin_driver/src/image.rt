//! The image of a text: accepted, and compiled; and its program.

ghost use Rattle.std.specs.Prelude.{◌≤◌, ℕ, List, length, IfOk, IfErr};
ghost use Rattle.elf32.specs.Rules.{Loads};
ghost use Rattle.grin_compile.specs.Limits.{SizesAreInRange};
ghost use Rattle.grin_driver.specs.Outcome.{IsImageOf, IsBuildFailure};
ghost use Rattle.grin_driver.specs.CodeListing.{IsCodeOf};
ghost use Rattle.grin_driver.specs.Kept.{IsBuiltImage};
ghost use Rattle.limits.specs.Limits.{most_code};

use crate::list::no_stages_status;
use elf32::{Loaded, read};
use grin_compile::{Built, Options, build};
use limits::{DEFAULT_CELLS, DEFAULT_STACK};
use std::alloc::Global;
use text_commands::accept::accept;
use text_commands::status::Status;

/// The heap and the stack of an image where the command line says none.
pub(crate) const DEFAULTS: Options = Options {
    cells: DEFAULT_CELLS,
    stack: DEFAULT_STACK,
};

/// The code and the image of a text, or why there are none.
pub(crate) fn compiled(alloc: Global, text: &[u8], options: Options) -> Result<Built, Status>
    requires { SizesAreInRange options.cells options.stack }
    ensures image { IfOk result (λ c.
        IsImageOf text.now options.cells options.stack c.image.items) }
    ensures kept { IfOk result (IsBuiltImage text.now options.cells options.stack) }
    ensures code { IfOk result (λ c. IsCodeOf text.now options.cells options.stack c.code.items) }
    ensures short { IfOk result (λ c. length c.code.items ≤ most_code) }
    ensures unmade { IfErr result (IsBuildFailure text.now) }
{
    let accepted = accept(alloc, text)?;
    match build(alloc, &accepted.program, options) {
        Ok(built) => Ok(built),
        Err(refusal) => Err(no_stages_status(&refusal)),
    }
}

/// The program of an image that was made, which loads, so that only memory can be wanting.
pub(crate) fn program_of(alloc: Global, image: &[u8]) -> Result<Loaded, Status>
    ensures loads { IfOk result (Loads image.now) }
    ensures unloaded { (text : List ℕ) → IfErr result (IsBuildFailure text) }
{
    match read(alloc, image) {
        Ok(program) => Ok(program),
        Err(_) => Err(Status::OutOfMemory),
    }
}
