// The pass.
#![tactic(auto)]

ghost use Rattle.std.specs.Prelude.{◌≡◌, map, IfOk};
ghost use Rattle.grin_syntax.specs.Tree.{program_of, procedure_of};
ghost use Rattle.grin_syntax.specs.Fresh.{past_procs};
ghost use Rattle.pass_ground.specs.Vectors.{IsVectorForm};
ghost use Rattle.fetch_passes.specs.Split.{split, split_procs};
ghost use Rattle.fetch_passes.specs.Fetched.{Fetched};

use crate::notes::{Notes, Place};
use crate::split::FetchSplitter;
use grin_meaning::Pass;
use grin_syntax::fresh::Fresh;
use grin_syntax::{Grin, Proc, Tag, Word};
use seq::Seq;
use std::alloc::{AllocError, Global};

/// Takes the fetches of whole nodes apart. The tag is read first, then the words that somebody
/// needs. A word that only some alternatives of the tag's case need is read as those begin, so long
/// as nothing but fetches comes between the tag and that case; the others are read together with
/// the tag.
pub struct Fetches;

impl Pass for Fetches {
    ghost takes = { λ g. IsVectorForm (program_of g) };

    ghost gives = { λ g h. Fetched (program_of g) (program_of h) };

    fn apply(&self, alloc: Global, g: Grin) -> Result<Grin, AllocError> {
        let h = with_word_fetches(alloc, g)?;
        Ok(h)
    }
}

// The procedures of a program with these tags.
fn split_procs(alloc: Global, tags: &Seq<Tag>, procs: &[Proc]) -> Result<Seq<Proc>, AllocError>
    ensures { IfOk result (λ made. map procedure_of made
        ≡ split_procs tags.now (past_procs (map procedure_of procs.now))
        (map procedure_of procs.now)) }
{
    let mut fresh = Fresh::past(procs);
    let mut made = Seq::new(alloc);
    for proc in procs {
        let none = Seq::new(alloc);
        let before = Seq::new(alloc);
        let notes = Notes::of(alloc, &proc.body)?;
        let splitting = FetchSplitter {
            tags,
            notes: &notes,
        };
        let begin = Place { at: 0, piece: 0 };
        let cell = Word::Lit(0);
        let body = splitting.block(alloc, &mut fresh, &proc.body, none, cell, before, begin)?;
        made.push(Proc {
            name: Seq::from_slice(alloc, proc.name.as_slice())?,
            params: Seq::from_slice(alloc, proc.params.as_slice())?,
            body,
        })?;
    }
    Ok(made)
}

/// What the pass makes of any program, whatever its runs do.
pub fn with_word_fetches(alloc: Global, g: Grin) -> Result<Grin, AllocError>
    ensures { IfOk result (λ h. program_of h ≡ split (program_of g)) }
{
    let procs = split_procs(alloc, &g.tags, g.procs.as_slice())?;
    Ok(Grin { procs, ..g })
}
