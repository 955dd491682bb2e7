//! The translation of a program in normal form to GRIN.
//!
//! `translate` gives exactly the program that `specs/Translation` says, with the tags of
//! `specs/Tags` and the blocks of `specs/Blocks`. `translation_preserves_runs` says that it does
//! what evaluation by need does, and `translation_refines` that this holds for each program that
//! breaks no rule. `specs/Lib` names the devices of the proofs apart.
#![tactic(auto)]

ghost use Rattle.std.specs.Prelude.{◌≡◌, IfOk};
ghost use Rattle.arity_check.specs.Program.{program};
ghost use Rattle.grin_syntax.specs.Tree.{program_of};
ghost use Rattle.grin_translate.specs.Translation.{tr};
ghost use Rattle.grin_translate.specs.Same.{TranslationPreservesRuns, ValidTranslationPreservesRuns};

mod block;
mod bodies;
mod counts;
mod lists;
mod lookup;
mod names;
mod numbering;
mod procedures;
mod tags;
mod variables;
mod waiting;

use arity_check::normal::Checked;
use grin_syntax::program::{Grin, ProcId};
use numbering::{NumberedProgram, Numbers};
use std::alloc::{AllocError, Global};
use variables::sum;
use waiting::takes_input;

/// The translation of a program in normal form.
pub fn translate(alloc: Global, p: &Checked) -> Result<Grin, AllocError>
    ensures { IfOk result (λ g. program_of g ≡ tr (program p.now)) }
{
    let numbers = Numbers::new(alloc, p)?;
    let numbered = NumberedProgram { p, numbers };
    let tags = lists::tags(alloc, &numbered)?;
    let globals = lists::globals(alloc, &numbered)?;
    let procs = lists::procedures(alloc, &numbered)?;
    if takes_input(p) {
        let start = ProcId(sum(1, numbered.numbers.waiting)?);
        return Ok(Grin {
            tags,
            globals,
            procs,
            start,
            argument: None,
        });
    }
    let main = numbered.global(p.main);
    Ok(Grin {
        tags,
        globals,
        procs,
        start: ProcId(numbered.numbers.waiting),
        argument: Some(main),
    })
}

/// The translated program does what the program means.
pub fn translation_preserves_runs()
    ensures { TranslationPreservesRuns }
{}

/// The translation of the normal form of a program that breaks no rule does what the program means.
pub fn translation_refines()
    ensures { ValidTranslationPreservesRuns }
{}
