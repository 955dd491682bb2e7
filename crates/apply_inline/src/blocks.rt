// Blocks in which each application is a case.
#![tactic(auto, using(grin_syntax::proofs::TreeOf::tree_of))]

ghost use Rattle.std.specs.Prelude.{◌≡◌, ℕ, [], ◌∷◌, ◌++◌, map, drop, IfOk};
ghost use Rattle.grin_syntax.specs.declared.program.Word.TheVariants.{Var};
ghost use Rattle.grin_syntax.specs.Tree.{end, act_of};
ghost use Rattle.grin_syntax.specs.Tags.{part_from};
ghost use Rattle.grin_syntax.specs.Fresh.{variables};
ghost use Rattle.inline_theory.specs.Applications.{part_body, apply_body, apply_opening, others_of, else_fail, apply_rule};
ghost use Rattle.apply_inline.specs.Known.{program, solution};
ghost use Rattle.apply_inline.specs.Applied.{meets_part};
ghost use Rattle.flow_system.specs.Starts.{NoPartTagBeforeStart};

use crate::known::Known;
use flow_system::starts::partial_tag;
use grin_rewrite::{FreshRule, Opens, as_words, block_of, opening};
use grin_syntax::fresh::Fresh;
use grin_syntax::{Alt, Block, Op, ProcId, Shape, Stmt, Tag, TagId, Val, VarId, Word};
use seq::Seq;
use std::alloc::{AllocError, Global};

/// Inlines the applications of a program.
#[derive(Drop)]
pub(crate) struct ApplyInliner<'a> {
    pub known: Known<'a>,
    /// For each procedure where its tags begin that lack arguments: none stands before.
    pub starts: &'a [usize],
    ghost begin: { NoPartTagBeforeStart known.program.now.tags starts.now 0 },
}

impl FreshRule for ApplyInliner<'_> {
    ghost rule = { λ k. apply_rule (program k.known) (solution k.known) };

    fn leaf(
        &self,
        alloc: Global,
        fresh: &mut Fresh,
        op: Op,
        before: &mut Seq<Stmt>,
    ) -> Result<Op, AllocError> {
        match op {
            Op::Apply(v, a) => {
                let applied = Applied {
                    inliner: self,
                    value: &v,
                    argument: a,
                };
                let alts = opening(alloc, fresh, &applied, self.known.candidates(&v))?;
                Ok(Op::Case(v, alts))
            }
            other => Ok(other),
        }
    }
}

impl ApplyInliner<'_> {
    // A function that lacks arguments, given one more: its call where it lacked this one alone, and
    // otherwise its node with one argument more.
    fn applied(&self, alloc: Global, fields: &[VarId], tag: &Tag, a: Word) -> Result<Op, AllocError>
        ensures { IfOk result (λ o. (x : ℕ) → fields.now ≡ variables x tag.now.fields
            → end (act_of o) ≡ part_body (program self.now.known) (solution self.now.known) x a
            tag.now tag.now.proc) }
    {
        match tag.proc {
            Some(f) => self.given(f, tag.missing, with_argument(alloc, fields, a)?),
            None => Ok(Op::Fail),
        }
    }

    fn given(&self, f: ProcId, missing: u32, words: Seq<Word>) -> Result<Op, AllocError>
        ensures { IfOk result (λ o. end (act_of o) ≡ apply_body (program self.now.known)
            (solution self.now.known) f.0 missing words) }
    {
        match missing {
            0 => Ok(Op::Fail),
            1 => Ok(Op::Call(f, words)),
            _ => match partial_tag(
                self.known.program.tags.as_slice(),
                self.start(f),
                f,
                missing - 1,
            )? {
                Some(t) => Ok(Op::Unit(Val::Node(t, words))),
                None => Ok(Op::Fail),
            },
        }
    }

    // A place among the tags with none before it for this procedure that lacks arguments.
    fn start(&self, f: ProcId) -> usize
        ensures { (r : ℕ) → part_from 0 self.now.known.program.now.tags f.0 r
            ≡ part_from result (drop result self.now.known.program.now.tags) f.0 r }
    {
        match self.starts.get(f.0 as usize) {
            Some(start) => *start,
            None => 0,
        }
    }
}

// A value that is given one argument more.
#[derive(Drop)]
struct Applied<'a, 'b> {
    inliner: &'b ApplyInliner<'a>,
    value: &'b Val,
    argument: Word,
}

impl Opens for Applied<'_, '_> {
    ghost tags = { λ k. k.inliner.now.known.program.now.tags };

    ghost meets = { λ k.
        meets_part (program k.inliner.now.known) (solution k.inliner.now.known) k.value.now };

    ghost opening = { λ k.
        apply_opening (program k.inliner.now.known) (solution k.inliner.now.known) k.argument
        (else_fail (program k.inliner.now.known) (solution k.inliner.now.known)
        (others_of (program k.inliner.now.known) (solution k.inliner.now.known) k.value.now)) };

    fn met(&self, tag: TagId) -> Option<&Tag> {
        self.inliner.known.part(self.value, tag)
    }

    fn body(
        &self,
        alloc: Global,
        fresh: &mut Fresh,
        fields: &[VarId],
        tag: &Tag,
    ) -> Result<Block, AllocError> {
        let op = self.inliner.applied(alloc, fields, tag, self.argument)?;
        block_of(alloc, op)
    }

    fn last(&self, alloc: Global) -> Result<Seq<Alt>, AllocError> {
        let mut alts = Seq::new(alloc);
        if self.inliner.known.has_other(self.value) {
            alts.push(Alt {
                pattern: Shape::Else,
                body: block_of(alloc, Op::Fail)?,
            })?;
        }
        Ok(alts)
    }
}

// The variables, and then a word.
fn with_argument(alloc: Global, fields: &[VarId], a: Word) -> Result<Seq<Word>, AllocError>
    ensures { IfOk result (λ words. words ≡ map Var fields.now ++ a ∷ []) }
{
    let mut words = as_words(alloc, fields)?;
    words.push(a)?;
    Ok(words)
}
