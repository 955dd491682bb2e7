// Blocks whose fetches of remembered words give way to the words.
#![tactic(auto, using(grin_syntax::proofs::TreeOf::tree_of), unfolding(crate::specs::Remembered::told_act))]

ghost use Rattle.std.specs.Prelude.{◌≡◌, [], ◌∷◌, map, IfOk, OnOk};
ghost use Rattle.grin_syntax.specs.Tree.{Code, act_of, before_of, arm_of, code_of, all_before};
ghost use Rattle.pass_cells.specs.Memory.{remembered_word_of, after_act};
ghost use Rattle.pass_cells.specs.Remembered.{word_or_fetch, told_act, told_code, told_arm};
ghost use Rattle.pass_cells.specs.Entries.{memories, ExtendsEntries, unshown_by_set};

use crate::memory::{Entry, forget, store, told, truncate_entries, update};
use grin_syntax::{Alt, Block, Op, Stmt, Val, Word};
use pass_ground::updated::{alts_updated, block_updated};
use seq::Seq;
use std::alloc::{AllocError, Global};
use std::collections::BTreeSet;

fn fetch_word(entries: &Seq<Entry>, a: Word, i: u32) -> Op
    ensures { act_of result ≡ word_or_fetch a i (remembered_word_of (memories entries.now) a i) }
{
    match told(entries.as_slice(), a, i) {
        Some(word) => Op::Unit(Val::One(word)),
        None => Op::FetchWord(a, i),
    }
}

// An operation that changes nothing of what is remembered.
fn nothing(entries: &mut Seq<Entry>) -> Result<(), AllocError>
    ensures is { OnOk result (entries.new ≡ entries.old) }
    ensures more { OnOk result (ExtendsEntries entries.old entries.new) }
{
    Ok(())
}

// What is remembered behind an operation.
fn put_after(alloc: Global, op: &Op, entries: &mut Seq<Entry>) -> Result<(), AllocError>
    ensures is { OnOk result (memories entries.new
        ≡ after_act (act_of op.now) (memories entries.old)) }
    ensures more { OnOk result (ExtendsEntries entries.old entries.new) }
{
    match op {
        Op::Update(a, v) => {
            update(alloc, *a, v, entries)?;
            Ok(())
        }
        Op::Case(_, alts) => {
            let mut words = Seq::new(alloc);
            alts_updated(alts.as_slice(), &mut words)?;
            forget(words.as_slice(), entries)?;
            Ok(())
        }
        Op::Nested(block) => {
            let mut words = Seq::new(alloc);
            block_updated(block, &mut words)?;
            forget(words.as_slice(), entries)?;
            Ok(())
        }
        Op::Unit(_) => nothing(entries),
        Op::Fetch(_) => nothing(entries),
        Op::FetchWord(_, _) => nothing(entries),
        Op::Eval(_) => nothing(entries),
        Op::Apply(_, _) => nothing(entries),
        Op::Call(_, _) => nothing(entries),
        Op::Prim(_, _, _) => nothing(entries),
        Op::Read => nothing(entries),
        Op::Write(_) => nothing(entries),
        Op::Fail => nothing(entries),
    }
}

/// Within a procedure that shows these variables.
#[derive(Drop)]
pub(crate) struct Within<'a> {
    pub shown: &'a BTreeSet<u32>,
}

impl Within<'_> {
    #[cycle(tell)]
    #[tactic(auto, using(grin_syntax::proofs::TreeOf::tree_of, crate::proofs::Rewriting::case_told), unfolding(crate::specs::Remembered::told_act))]
    fn op(&self, alloc: Global, op: Op, entries: &mut Seq<Entry>) -> Result<Op, AllocError>
        ensures is { IfOk result (λ o. act_of o ≡ told_act (unshown_by_set self.now.shown.now.keys)
            (memories entries.old) (act_of op)) }
        ensures same { OnOk result (entries.new ≡ entries.old) }
    {
        match op {
            Op::FetchWord(a, i) => Ok(fetch_word(entries, a, i)),
            Op::Case(v, alts) => {
                let mut arms = Seq::new(alloc);
                for alt in alts.into_vec() {
                    arms.push(self.alt(alloc, alt, entries)?)?;
                }
                Ok(Op::Case(v, arms))
            }
            Op::Nested(block) => {
                let inner = self.inner(alloc, Box::into_inner(block), entries)?;
                Ok(Op::Nested(Box::new(alloc, inner)?))
            }
            Op::Unit(v) => Ok(Op::Unit(v)),
            Op::Fetch(a) => Ok(Op::Fetch(a)),
            Op::Update(a, v) => Ok(Op::Update(a, v)),
            Op::Eval(a) => Ok(Op::Eval(a)),
            Op::Apply(v, a) => Ok(Op::Apply(v, a)),
            Op::Call(f, words) => Ok(Op::Call(f, words)),
            Op::Prim(p, a, b) => Ok(Op::Prim(p, a, b)),
            Op::Read => Ok(Op::Read),
            Op::Write(a) => Ok(Op::Write(a)),
            Op::Fail => Ok(Op::Fail),
        }
    }

    #[cycle(tell)]
    fn alt(&self, alloc: Global, alt: Alt, entries: &mut Seq<Entry>) -> Result<Alt, AllocError>
        ensures is { IfOk result (λ a. arm_of a ≡ told_arm (unshown_by_set self.now.shown.now.keys)
            (memories entries.old) (arm_of alt)) }
        ensures same { OnOk result (entries.new ≡ entries.old) }
    {
        Ok(Alt {
            pattern: alt.pattern,
            body: self.inner(alloc, alt.body, entries)?,
        })
    }

    // A block behind which is forgotten what is remembered in it.
    #[cycle(tell)]
    fn inner(
        &self,
        alloc: Global,
        block: Block,
        entries: &mut Seq<Entry>,
    ) -> Result<Block, AllocError>
        ensures is { IfOk result (λ b. code_of b ≡ told_code (unshown_by_set self.now.shown.now.keys)
            (memories entries.old) (code_of block)) }
        ensures same { OnOk result (entries.new ≡ entries.old) }
    {
        let count = entries.len();
        let inner = self.block(alloc, block, entries)?;
        truncate_entries(entries, count);
        Ok(inner)
    }

    #[cycle(tell)]
    fn stmt(
        &self,
        alloc: Global,
        stmt: Stmt,
        entries: &mut Seq<Entry>,
        made: &mut Seq<Stmt>,
    ) -> Result<(), AllocError>
        ensures is { OnOk result ((c : Code) → all_before (map before_of made.new)
            (told_code (unshown_by_set self.now.shown.now.keys) (memories entries.new) c)
            ≡ all_before (map before_of made.old) (told_code (unshown_by_set self.now.shown.now.keys)
            (memories entries.old) (before_of stmt c))) }
        ensures more { OnOk result (ExtendsEntries entries.old entries.new) }
    {
        match stmt {
            Stmt::Store(cells) => {
                store(alloc, self.shown, cells.as_slice(), entries)?;
                made.push(Stmt::Store(cells))?;
                Ok(())
            }
            Stmt::Bind(target, op) => {
                let told = self.op(alloc, op, entries)?;
                put_after(alloc, &told, entries)?;
                made.push(Stmt::Bind(target, told))?;
                Ok(())
            }
        }
    }

    /// A block; what is remembered in it is put to the entries.
    #[cycle(tell)]
    pub(crate) fn block(
        &self,
        alloc: Global,
        block: Block,
        entries: &mut Seq<Entry>,
    ) -> Result<Block, AllocError>
        ensures is { IfOk result (λ b. code_of b ≡ told_code (unshown_by_set self.now.shown.now.keys)
            (memories entries.old) (code_of block)) }
        ensures more { OnOk result (ExtendsEntries entries.old entries.new) }
    {
        let mut stmts = Seq::new(alloc);
        for stmt in block.stmts.into_vec() {
            self.stmt(alloc, stmt, entries, &mut stmts)?;
        }
        let last = self.op(alloc, Box::into_inner(block.last), entries)?;
        Ok(Block {
            stmts,
            last: Box::new(alloc, last)?,
        })
    }
}
