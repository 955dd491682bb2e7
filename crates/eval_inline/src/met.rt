// The tags that an evaluation may meet.

ghost use Rattle.std.specs.Prelude.{◌≡◌, map};
ghost use Rattle.std.specs.List.{filter};
ghost use Rattle.grin_syntax.specs.Tree.{program_of};
ghost use Rattle.grin_syntax.specs.declared.program.Word.TheVariants.{Global as of_global};
ghost use Rattle.inline_theory.specs.Evaluations.{tags_of};
ghost use Rattle.points_to.specs.Found.{found};
ghost use Rattle.eval_inline.specs.Met.{is_tag};

use grin_syntax::{Grin, TagId, Word};
use points_to::Flow;

/// The tags, ascending, that the solution has at a cell that the word may stand for. Those that are
/// the program's are the word's.
pub fn tags_met<'a>(g: &'a Grin, flow: &'a Flow, word: &Word) -> &'a [TagId]
    ensures { tags_of (program_of g.now) (found flow.now) word.now
        ≡ filter (is_tag (program_of g.now)) (map (λ t. t.0) result.now) }
{
    match word {
        Word::Var(x) => flow.tags_met(*x),
        Word::Global(i) => tags_at_global(g, flow, *i),
        Word::Lit(_) => &[],
        Word::TagWord(_) => &[],
    }
}

fn tags_at_global<'a>(g: &'a Grin, flow: &'a Flow, global: u32) -> &'a [TagId]
    ensures { tags_of (program_of g.now) (found flow.now) (of_global global)
        ≡ filter (is_tag (program_of g.now)) (map (λ t. t.0) result.now) }
{
    match g.globals.get(global as usize) {
        Some(cell) => flow.tags_at(cell.site),
        None => &[],
    }
}
