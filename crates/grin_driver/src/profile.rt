//! The profile of a text's image.

ghost use Rattle.std.specs.Prelude.{◌≡◌, ◌≤◌, ℕ, List, [], length, IfOk};
ghost use Rattle.limits.specs.Limits.{default_steps, most_code};
ghost use Rattle.rv32_machine.specs.Steps.{start_of};
ghost use Rattle.rv32_steps.specs.Trace.{trace};
ghost use Rattle.image_trace.specs.Profile.{counts_in, profile_text};
ghost use Rattle.grin_compile.specs.Words.{code_words};
ghost use Rattle.grin_driver.specs.Outcome.{IsRunRefusal};
ghost use Rattle.grin_driver.specs.Profiling.{IsProfileText};

use crate::image::{DEFAULTS, compiled, program_of};
use elf32::Loaded;
use grin_compile::Built;
use grin_compile::words::code_words;
use image_trace::profiled;
use std::alloc::{AllocError, Global};
use text_commands::status::Status;
use text_commands::writing::Maker;

/// What compiles a text as `build` does by default, and makes the profile of its image's run on no
/// input. What the image writes is dropped.
pub(crate) struct Profile;

impl Maker for Profile {
    ghost made = { λ _ text bytes. IsProfileText text bytes };

    ghost refused = { λ _ text rule number. IsRunRefusal text rule number };

    fn make(&self, alloc: Global, text: &[u8]) -> Result<Vec<u8>, Status> {
        let built = compiled(alloc, text, DEFAULTS)?;
        let program = program_of(alloc, built.image.as_slice())?;
        match profile_of(alloc, &built, &program) {
            Ok(bytes) => Ok(bytes),
            Err(_) => Err(Status::OutOfMemory),
        }
    }

    fn refuses_long(&self) {}
}

/// The profile of the program of an image.
fn profile_of(alloc: Global, built: &Built, program: &Loaded) -> Result<Vec<u8>, AllocError>
    requires short { length built.now.code.items ≤ most_code }
    requires one_each { length built.now.starts.items ≡ length built.now.names.items }
    ensures { let way = trace default_steps [] (start_of program.now) in IfOk result (λ text.
        text.items ≡ profile_text built.now.names.items (length way)
        (counts_in way built.now.starts.items
        (code_words built.now.code.items built.now.starts.items))) }
{
    let starts = built.starts.as_slice();
    let names = built.names.as_slice();
    let words = code_words(alloc, built.code.as_slice(), starts)?;
    profiled(alloc, program, starts, words.as_slice(), names)
}
