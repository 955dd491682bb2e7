//! From GRIN to low code: words without tags, cells of one width, and procedures that give words.
#![tactic(auto)]

ghost use Rattle.std.specs.Prelude.{IfOk};
ghost use Rattle.grin_syntax.specs.Formed.{Formed};
ghost use Rattle.grin_syntax.specs.Tree.{program_of};
ghost use Rattle.grin_meaning.specs.Ready.{Ready, IsVectorised};
ghost use Rattle.low_code.specs.Formed as low_formed;
ghost use Rattle.low_code.specs.Tree as low;
ghost use Rattle.low_translate.specs.Lowers.{Lowers, TargetsFitCells, LoweredIsSmall};

use grin_syntax::Grin;
use low_code::Low;
use std::alloc::{AllocError, Global};

mod blocks;
mod emit;
mod fresh;
mod groups;
mod patterns;
mod program;
mod results;
mod words;
mod writes;

/// The low code of a vectorised program: a tag becomes its number, a number its pattern of 32 bits,
/// and a cell a word for the tag and one for each field of the largest tag. Procedures that tail
/// calls join give as many words as the widest of them. The variables of the program keep their
/// numbers, and further ones come after them.
///
/// Numbers past those of 32 bits, for variables, sites of calls, procedures and tags, count as want
/// of memory.
pub fn lower(alloc: Global, g: &Grin) -> Result<Low, AllocError>
    requires formed { Formed (program_of g.now) }
    requires ready { Ready (program_of g.now) }
    requires vectorised { IsVectorised (program_of g.now) }
    ensures formed { IfOk result (λ l. low_formed.Formed (low.program_of l)) }
    ensures lowers { IfOk result (λ l. Lowers (program_of g.now) (low.program_of l)) }
    ensures small { IfOk result (λ l. TargetsFitCells (program_of g.now)
        → LoweredIsSmall (program_of g.now) (low.program_of l)) }
{
    let low = program::translated(alloc, g)?;
    Ok(low)
}
