// Blocks of procedures with their parameters raised.
#![tactic(auto, using(grin_syntax::proofs::TreeOf::tree_of), unfolding(raise_theory::specs::Raising::raised_act, raise_theory::specs::Raising::new_act))]

ghost use Rattle.std.specs.Prelude.{◌≡◌, ◌+◌, map, IfOk, OnOk};
ghost use Rattle.grin_syntax.specs.Tree.{Code, end, act_of, before_of, arm_of, code_of, all_before};
ghost use Rattle.raise_theory.specs.Raising.{decided, decisions_at, fetched, fetches_before, new_before, new_act, new_code, raised_act, raised_code};

use crate::calls::arguments;
use crate::decide::Decisions;
use crate::params::{decided, fetched};
use grin_syntax::fresh::Fresh;
use grin_syntax::{Alt, Block, Op, ProcId, Stmt, VarId, Word};
use raise_theory::Raising;
use seq::Seq;
use std::alloc::{AllocError, Global};

/// Raises what a procedure's blocks use and call.
#[derive(Drop)]
pub(crate) struct Within<'a> {
    /// What is decided of the parameters of each procedure.
    pub all: &'a Seq<Decisions>,
    /// What is decided of the parameters of this one.
    pub own: &'a [Option<Raising>],
    /// Its parameters.
    pub params: &'a [VarId],
}

impl Within<'_> {
    // What is decided of the parameters of a procedure.
    fn decisions(&self, f: ProcId) -> &[Option<Raising>]
        ensures { result.now ≡ decisions_at self.now.all.now f.0 }
    {
        match self.all.get(f.0 as usize) {
            Some(decisions) => decisions.as_slice(),
            None => &[],
        }
    }

    // A fetch of a word.
    fn fetch_word(&self, cell: Word, i: u32) -> Result<Op, AllocError>
        ensures { IfOk result (λ o. act_of o
            ≡ fetched (decided self.now.own.now self.now.params.now) cell i) }
    {
        match cell {
            Word::Var(x) => fetched(decided(self.own, self.params, x), cell, i),
            Word::Lit(_) => Ok(Op::FetchWord(cell, i)),
            Word::Global(_) => Ok(Op::FetchWord(cell, i)),
            Word::TagWord(_) => Ok(Op::FetchWord(cell, i)),
        }
    }

    // An operation; what is fetched before it goes to `made`.
    #[cycle(raise)]
    fn op(
        &self,
        alloc: Global,
        fresh: &mut Fresh,
        op: Op,
        made: &mut Seq<Stmt>,
    ) -> Result<Op, AllocError>
        ensures stmts { OnOk result ((c : Code) → all_before (map before_of made.new) c
            ≡ all_before (map before_of made.old)
            (fetches_before self.now.all.now fresh.old.next (act_of op) c)) }
        ensures is { IfOk result (λ o. act_of o
            ≡ raised_act self.now.all.now (decided self.now.own.now self.now.params.now)
            fresh.old.next (act_of op)) }
        ensures next { OnOk result (fresh.new.next
            ≡ fresh.old.next + (new_before self.now.all.now (act_of op) + new_act self.now.all.now
            (act_of op))) }
    {
        match op {
            Op::FetchWord(cell, i) => self.fetch_word(cell, i),
            Op::Call(f, words) => {
                let decisions = self.decisions(f);
                let args = arguments(alloc, fresh, decisions, words.as_slice(), made)?;
                Ok(Op::Call(f, args))
            }
            Op::Case(v, alts) => {
                let mut arms = Seq::new(alloc);
                for alt in alts.into_vec() {
                    arms.push(self.alt(alloc, fresh, alt)?)?;
                }
                Ok(Op::Case(v, arms))
            }
            Op::Nested(block) => {
                let inner = self.block(alloc, fresh, Box::into_inner(block))?;
                Ok(Op::Nested(Box::new(alloc, inner)?))
            }
            Op::Unit(v) => Ok(Op::Unit(v)),
            Op::Fetch(w) => Ok(Op::Fetch(w)),
            Op::Update(w, v) => Ok(Op::Update(w, v)),
            Op::Eval(w) => Ok(Op::Eval(w)),
            Op::Apply(v, w) => Ok(Op::Apply(v, w)),
            Op::Prim(p, a, b) => Ok(Op::Prim(p, a, b)),
            Op::Read => Ok(Op::Read),
            Op::Write(w) => Ok(Op::Write(w)),
            Op::Fail => Ok(Op::Fail),
        }
    }

    #[cycle(raise)]
    fn alt(&self, alloc: Global, fresh: &mut Fresh, alt: Alt) -> Result<Alt, AllocError>
        ensures pattern { IfOk result (λ a. a.pattern ≡ alt.pattern) }
        ensures body { IfOk result (λ a. code_of a.body
            ≡ raised_code self.now.all.now (decided self.now.own.now self.now.params.now)
            fresh.old.next (code_of alt.body)) }
        ensures next { OnOk result (fresh.new.next
            ≡ fresh.old.next + new_code self.now.all.now (code_of alt.body)) }
    {
        Ok(Alt {
            pattern: alt.pattern,
            body: self.block(alloc, fresh, alt.body)?,
        })
    }

    #[cycle(raise)]
    fn stmt(
        &self,
        alloc: Global,
        fresh: &mut Fresh,
        stmt: Stmt,
        made: &mut Seq<Stmt>,
    ) -> Result<(), AllocError>
        ensures is { OnOk result ((c : Code)
            → all_before (map before_of made.new)
            (raised_code self.now.all.now (decided self.now.own.now self.now.params.now)
            fresh.new.next c) ≡ all_before (map before_of made.old)
            (raised_code self.now.all.now (decided self.now.own.now self.now.params.now)
            fresh.old.next (before_of stmt c))) }
        ensures next { OnOk result ((c : Code) → fresh.new.next + new_code self.now.all.now c
            ≡ fresh.old.next + new_code self.now.all.now (before_of stmt c)) }
    {
        match stmt {
            Stmt::Store(cells) => {
                made.push(Stmt::Store(cells))?;
                Ok(())
            }
            Stmt::Bind(target, op) => {
                let raised = self.op(alloc, fresh, op, made)?;
                made.push(Stmt::Bind(target, raised))?;
                Ok(())
            }
        }
    }

    /// A block with what it uses and calls raised.
    #[cycle(raise)]
    pub(crate) fn block(
        &self,
        alloc: Global,
        fresh: &mut Fresh,
        block: Block,
    ) -> Result<Block, AllocError>
        ensures is { IfOk result (λ b. code_of b
            ≡ raised_code self.now.all.now (decided self.now.own.now self.now.params.now)
            fresh.old.next (code_of block)) }
        ensures next { OnOk result (fresh.new.next
            ≡ fresh.old.next + new_code self.now.all.now (code_of block)) }
    {
        let mut stmts = Seq::new(alloc);
        for stmt in block.stmts.into_vec() {
            self.stmt(alloc, fresh, stmt, &mut stmts)?;
        }
        let last = self.op(alloc, fresh, Box::into_inner(block.last), &mut stmts)?;
        Ok(Block {
            stmts,
            last: Box::new(alloc, last)?,
        })
    }
}
