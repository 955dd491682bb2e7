// The pass.
#![tactic(auto)]

ghost use Rattle.std.specs.Prelude.{◌≡◌, option_copied, IfOk};
ghost use Rattle.grin_syntax.specs.Tree.{program_of};
ghost use Rattle.pass_ground.specs.Vectors.{IsVectorForm};
ghost use Rattle.pass_known.specs.Known.{known};
ghost use Rattle.pass_known.specs.KnownWords.{MadeByLeastSolution, KnownWords, ToldWords};
ghost use Rattle.pass_known.specs.Told.{silent, solution_or_empty};

use crate::told::Told;
use grin_meaning::Pass;
use grin_rewrite::{FactTable, rewrite_with_facts};
use grin_syntax::Grin;
use least_flow::least;
use points_to::Flow;
use std::alloc::{AllocError, Global};

/// A literal stands for each variable that an alternative around it tells the tag or the number of,
/// and for each one whose set in the least solution of the program's own flow system is one tag.
/// An alternative goes whose tag isn't in that of the tag word of its case, and an else that no tag
/// is left to. It takes programs of vectors.
pub struct KnownWords;

impl Pass for KnownWords {
    ghost takes = { λ g. IsVectorForm (program_of g) };

    ghost gives = { λ g h. KnownWords (program_of g) (program_of h) };

    fn apply(&self, alloc: Global, g: Grin) -> Result<Grin, AllocError> {
        let h = with_known_words(alloc, g)?;
        Ok(h)
    }
}

/// A literal stands for each variable that an alternative around it tells the tag or the number of.
/// It takes programs of vectors.
pub struct ToldWords;

impl Pass for ToldWords {
    ghost takes = { λ g. IsVectorForm (program_of g) };

    ghost gives = { λ g h. ToldWords (program_of g) (program_of h) };

    fn apply(&self, alloc: Global, g: Grin) -> Result<Grin, AllocError> {
        let h = with_locally_known_words(alloc, g)?;
        Ok(h)
    }
}

/// What this pass makes of any program, whatever its runs do.
pub fn with_locally_known_words(alloc: Global, g: Grin) -> Result<Grin, AllocError>
    ensures { IfOk result (λ h. program_of h ≡ known silent (program_of g)) }
{
    let h = with_literals(alloc, g, None)?;
    Ok(h)
}

/// What the pass makes of any program, whatever its runs do.
pub fn with_known_words(alloc: Global, g: Grin) -> Result<Grin, AllocError>
    ensures { IfOk result (λ h. MadeByLeastSolution (program_of g) (program_of h)) }
{
    let flow = least(alloc, &g)?;
    let h = with_literals(alloc, g, Some(&flow))?;
    Ok(h)
}

fn with_literals(alloc: Global, g: Grin, flow: Option<&Flow>) -> Result<Grin, AllocError>
    ensures { IfOk result (λ h. program_of h ≡ known (solution_or_empty (option_copied flow.entry)) (program_of g)) }
{
    let told = Told {
        count: g.tags.len(),
        flow,
    };
    let mut facts = FactTable::new(alloc);
    let h = rewrite_with_facts(alloc, &told, &mut facts, g)?;
    Ok(h)
}
