// Words in place of their copies.
#![tactic(auto, using(grin_syntax::proofs::TreeOf::tree_of), unfolding(grin_rewrite::specs::WithFacts::walk_act))]

ghost use Rattle.std.specs.Prelude.{◌≡◌, length, IfOk, OnOk};
ghost use Rattle.grin_syntax.specs.Tree.{act_of};
ghost use Rattle.grin_rewrite.specs.ByWords.{words_by, val_by, cells_by};
ghost use Rattle.grin_rewrite.specs.Table.{facts_of, AppendsFacts};
ghost use Rattle.grin_rewrite.proofs.Tables.{adds_none, adds_again};
ghost use Rattle.copy_prop.specs.Copies.{copies_of};
ghost use Rattle.copy_prop.specs.Resolved.{Standing, as_word, note_all, noted_copies, copies_stand};

use crate::copies::{Alias, copies_of};
use grin_rewrite::{FactRule, FactTable};
use grin_syntax::{Alt, Cell, Op, Shape, Target, Val, Word};
use seq::Seq;
use std::alloc::{AllocError, Global};

/// The rule by which words stand for their copies.
#[derive(Drop)]
pub(crate) struct CopiesStand {
    pub alloc: Global,
}

impl FactRule for CopiesStand {
    type Facts = FactTable<Word>;

    ghost Known = { Standing };

    ghost known = { facts_of };

    ghost rule = { λ _. copies_stand };

    ghost extends = { AppendsFacts };

    ghost mark_of = { λ fs. length fs };

    fn leaf(&self, alloc: Global, standing: &FactTable<Word>, op: Op) -> Result<Op, AllocError> {
        match op {
            Op::Unit(v) => Ok(Op::Unit(val(alloc, standing, v)?)),
            Op::Fetch(w) => Ok(Op::Fetch(word(standing, w))),
            Op::FetchWord(w, i) => Ok(Op::FetchWord(word(standing, w), i)),
            Op::Update(w, v) => Ok(Op::Update(word(standing, w), val(alloc, standing, v)?)),
            Op::Eval(w) => Ok(Op::Eval(word(standing, w))),
            Op::Apply(v, w) => Ok(Op::Apply(val(alloc, standing, v)?, word(standing, w))),
            Op::Call(f, ws) => Ok(Op::Call(f, words(alloc, standing, ws.as_slice())?)),
            Op::Prim(p, a, b) => Ok(Op::Prim(p, word(standing, a), word(standing, b))),
            Op::Read => Ok(Op::Read),
            Op::Write(w) => Ok(Op::Write(word(standing, w))),
            Op::Case(v, alts) => Ok(Op::Case(v, alts)),
            Op::Nested(block) => Ok(Op::Nested(block)),
            Op::Fail => Ok(Op::Fail),
        }
    }

    fn value(
        &self,
        alloc: Global,
        standing: &FactTable<Word>,
        value: Val,
    ) -> Result<Val, AllocError> {
        let made = val(alloc, standing, value)?;
        Ok(made)
    }

    fn cells(
        &self,
        alloc: Global,
        standing: &FactTable<Word>,
        cells: Seq<Cell>,
    ) -> Result<Seq<Cell>, AllocError> {
        let made = all_cells(alloc, standing, cells)?;
        Ok(made)
    }

    fn case(
        &self,
        _: Global,
        _: &FactTable<Word>,
        value: Val,
        alts: Seq<Alt>,
    ) -> Result<Op, AllocError> {
        Ok(Op::Case(value, alts))
    }

    fn note(
        &self,
        standing: &mut FactTable<Word>,
        target: &Target,
        op: &Op,
    ) -> Result<(), AllocError> {
        note_statement(self.alloc, standing, target, op)?;
        Ok(())
    }

    fn enter(&self, _: &mut FactTable<Word>, _: &Val, _: &Shape) -> Result<(), AllocError> {
        Ok(())
    }

    fn mark(&self, standing: &FactTable<Word>) -> usize {
        standing.count()
    }

    fn forget(&self, standing: &mut FactTable<Word>, mark: usize) {
        standing.keep(mark)
    }

    ghost same = { adds_none };

    ghost further = { adds_again };
}

// The word that stands for a word.
fn word(standing: &FactTable<Word>, word: Word) -> Word
    ensures { result ≡ as_word (facts_of standing.now) word }
{
    match word {
        Word::Var(x) => match standing.known_of(x) {
            Some(w) => w,
            None => Word::Var(x),
        },
        Word::Lit(k) => Word::Lit(k),
        Word::Global(i) => Word::Global(i),
        Word::TagWord(t) => Word::TagWord(t),
    }
}

fn words(alloc: Global, standing: &FactTable<Word>, items: &[Word]) -> Result<Seq<Word>, AllocError>
    ensures { IfOk result (λ made. made ≡ words_by (as_word (facts_of standing.now)) items.now) }
{
    let mut made = Seq::new(alloc);
    'items: for item in items {
        made.push(word(standing, *item))?;
    }
    Ok(made)
}

fn val(alloc: Global, standing: &FactTable<Word>, v: Val) -> Result<Val, AllocError>
    ensures { IfOk result (λ made. made ≡ val_by (as_word (facts_of standing.now)) v) }
{
    match v {
        Val::NodeVar(x) => Ok(Val::NodeVar(x)),
        Val::Node(tag, ws) => Ok(Val::Node(tag, words(alloc, standing, ws.as_slice())?)),
        Val::Vector(ws) => Ok(Val::Vector(words(alloc, standing, ws.as_slice())?)),
        Val::One(w) => Ok(Val::One(word(standing, w))),
    }
}

fn all_cells(
    alloc: Global,
    standing: &FactTable<Word>,
    cells: Seq<Cell>,
) -> Result<Seq<Cell>, AllocError>
    ensures { IfOk result (λ made. made ≡ cells_by (as_word (facts_of standing.now)) cells) }
{
    let mut made = Seq::new(alloc);
    'cells: for cell in cells.into_vec() {
        made.push(Cell {
            var: cell.var,
            site: cell.site,
            val: val(alloc, standing, cell.val)?,
        })?;
    }
    Ok(made)
}

// From a copy on, its words stand for its variables.
#[tactic(auto, using(grin_rewrite::proofs::Tables::adds_none))]
fn note_statement(
    alloc: Global,
    standing: &mut FactTable<Word>,
    target: &Target,
    op: &Op,
) -> Result<(), AllocError>
    ensures facts { OnOk result (facts_of standing.new
        ≡ noted_copies (copies_of target.now (act_of op.now)) (facts_of standing.old)) }
    ensures adds { OnOk result (AppendsFacts standing.old standing.new) }
{
    match copies_of(alloc, target, op)? {
        Some(copies) => note_copies(standing, copies.as_slice()),
        None => Ok(()),
    }
}

fn note_copies(standing: &mut FactTable<Word>, copies: &[Alias]) -> Result<(), AllocError>
    ensures facts { OnOk result (facts_of standing.new
        ≡ note_all copies.now (facts_of standing.old)) }
    ensures adds { OnOk result (AppendsFacts standing.old standing.new) }
{
    'copies: for alias in copies {
        standing.note(alias.var, alias.word)?;
    }
    Ok(())
}
