// Blocks in which each evaluation is a fetch and a case.
#![tactic(auto, using(grin_syntax::proofs::TreeOf::tree_of))]

ghost use Rattle.std.specs.Prelude.{◌≡◌, map, IfOk};
ghost use Rattle.grin_syntax.specs.declared.program.Word.TheVariants.{Var};
ghost use Rattle.grin_syntax.specs.declared.program.Val.TheVariants.{NodeVar};
ghost use Rattle.grin_syntax.specs.declared.program.Target.TheVariants.{Nothing, Node as NodeTarget};
ghost use Rattle.grin_syntax.specs.Tree.{end, bind, leaf, call, update, unit, code_of};
ghost use Rattle.inline_theory.specs.Evaluations.{eval_opening, eval_rule};
ghost use Rattle.eval_inline.specs.Known.{program, solution};
ghost use Rattle.eval_inline.specs.Met.{is_tag};

use crate::met::tags_met;
use grin_rewrite::{FreshRule, Opens, as_words, block_of, opening};
use grin_syntax::fresh::Fresh;
use grin_syntax::{
    Alt, Block, Grin, Op, ProcId, Stmt, Tag, TagId, TagKind, Target, Val, VarId, Word,
};
use points_to::Flow;
use seq::Seq;
use std::alloc::{AllocError, Global};

/// What decides how evaluations are inlined: the program's tags and global cells, whatever
/// procedures it has, and the solution.
#[derive(Drop)]
pub(crate) struct EvalInliner<'a> {
    pub program: &'a Grin,
    pub flow: &'a Flow,
}

impl FreshRule for EvalInliner<'_> {
    ghost rule = { λ k. eval_rule (program k) (solution k) };

    // An evaluation is a fetch, and then a case over the tags of the node.
    fn leaf(
        &self,
        alloc: Global,
        fresh: &mut Fresh,
        op: Op,
        before: &mut Seq<Stmt>,
    ) -> Result<Op, AllocError> {
        match op {
            Op::Eval(word) => {
                let node = fresh.variable()?;
                before.push(Stmt::Bind(Target::Node(node), Op::Fetch(word)))?;
                let fetched = Fetched {
                    known: self,
                    node,
                    word,
                };
                let tags = tags_met(self.program, self.flow, &word);
                let alts = opening(alloc, fresh, &fetched, tags)?;
                Ok(Op::Case(Val::NodeVar(node), alts))
            }
            other => Ok(other),
        }
    }
}

// The node that was fetched from the cell of a word.
#[derive(Drop)]
struct Fetched<'a, 'b> {
    known: &'b EvalInliner<'a>,
    node: VarId,
    word: Word,
}

impl Opens for Fetched<'_, '_> {
    ghost tags = { λ k. k.known.now.program.now.tags };

    ghost meets = { λ k. is_tag (program k.known.now) };

    ghost opening = { λ k.
        eval_opening (program k.known.now) (solution k.known.now) k.word k.node.0 };

    fn met(&self, tag: TagId) -> Option<&Tag> {
        self.known.program.tags.get(tag.0 as usize)
    }

    // A delayed call is made and the cell updated, every other node is given.
    fn body(
        &self,
        alloc: Global,
        fresh: &mut Fresh,
        fields: &[VarId],
        tag: &Tag,
    ) -> Result<Block, AllocError> {
        let given = fresh.variable()?;
        match tag.kind {
            TagKind::Fun => match tag.proc {
                Some(f) => updating(alloc, f, fields, self.word, given),
                None => block_of(alloc, Op::Fail),
            },
            TagKind::Con => block_of(alloc, Op::Unit(Val::NodeVar(self.node))),
            TagKind::Part => block_of(alloc, Op::Unit(Val::NodeVar(self.node))),
        }
    }

    fn last(&self, alloc: Global) -> Result<Seq<Alt>, AllocError> {
        Ok(Seq::new(alloc))
    }
}

// Calls a procedure with these variables, writes what it gives over the cell of a word, and gives
// it.
fn updating(
    alloc: Global,
    f: ProcId,
    fields: &[VarId],
    word: Word,
    given: VarId,
) -> Result<Block, AllocError>
    ensures { IfOk result (λ b. code_of b
        ≡ bind (NodeTarget given) (leaf (call f (map Var fields.now)))
        (bind Nothing (leaf (update word (NodeVar given))) (end (leaf (unit (NodeVar given)))))) }
{
    let mut stmts = Seq::new(alloc);
    let words = as_words(alloc, fields)?;
    stmts.push(Stmt::Bind(Target::Node(given), Op::Call(f, words)))?;
    stmts.push(Stmt::Bind(Target::Nothing, Op::Update(word, Val::NodeVar(given))))?;
    Ok(Block {
        stmts,
        last: Box::new(alloc, Op::Unit(Val::NodeVar(given)))?,
    })
}
