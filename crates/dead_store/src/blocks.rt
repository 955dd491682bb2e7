// Blocks without the cells that leave.
#![tactic(auto, using(grin_syntax::proofs::TreeOf::tree_of), unfolding(crate::specs::Without::without_act))]

ghost use Rattle.std.specs.Prelude.{◌≡◌, ◌++◌, [], ◌∷◌, map, IfOk, OnOk};
ghost use Rattle.grin_syntax.specs.Tree.{Code, act_of, before_of, arm_of, code_of, all_before};
ghost use Rattle.dead_store.specs.Holding.{set_holds};
ghost use Rattle.dead_store.specs.Without.{without_word, without_val, kept_cell, kept_cells, store_if_any, without_act, without_code, without_arm};

use grin_syntax::{Alt, Block, Cell, Op, Stmt, Val, Word};
use seq::Seq;
use std::alloc::{AllocError, Global};
use std::collections::BTreeSet;

// A group of cells, where there is a cell.
fn put_group(cells: Seq<Cell>, made: &mut Seq<Stmt>) -> Result<(), AllocError>
    ensures { OnOk result ((c : Code) → all_before (map before_of made.new) c
        ≡ all_before (map before_of made.old) (store_if_any cells c)) }
{
    if cells.is_empty() {
        return Ok(());
    }
    made.push(Stmt::Store(cells))?;
    Ok(())
}

/// Takes cells out of blocks.
#[derive(Drop)]
pub(crate) struct DeadCellRemover<'a> {
    /// The sites whose cells stay.
    pub sites: &'a BTreeSet<u32>,
    /// The variables of the cells that leave.
    pub gone: &'a BTreeSet<u32>,
}

impl DeadCellRemover<'_> {
    fn word(&self, word: Word) -> Word
        ensures { result ≡ without_word (set_holds self.now.gone.now.keys) word }
    {
        match word {
            Word::Var(x) => {
                if self.gone.contains(&x.0) {
                    Word::Lit(0)
                } else {
                    word
                }
            }
            Word::Lit(_) => word,
            Word::Global(_) => word,
            Word::TagWord(_) => word,
        }
    }

    fn words(&self, alloc: Global, words: Seq<Word>) -> Result<Seq<Word>, AllocError>
        ensures { IfOk result (λ ws. ws ≡ map (without_word (set_holds self.now.gone.now.keys))
            words) }
    {
        let mut made = Seq::new(alloc);
        for word in words.into_vec() {
            made.push(self.word(word))?;
        }
        Ok(made)
    }

    fn val(&self, alloc: Global, val: Val) -> Result<Val, AllocError>
        ensures { IfOk result (λ v. v ≡ without_val (set_holds self.now.gone.now.keys) val) }
    {
        match val {
            Val::NodeVar(x) => Ok(Val::NodeVar(x)),
            Val::Node(tag, words) => Ok(Val::Node(tag, self.words(alloc, words)?)),
            Val::Vector(words) => Ok(Val::Vector(self.words(alloc, words)?)),
            Val::One(word) => Ok(Val::One(self.word(word))),
        }
    }

    fn cell(&self, alloc: Global, cell: Cell) -> Result<Cell, AllocError>
        ensures { IfOk result (λ c. c ≡ kept_cell (set_holds self.now.gone.now.keys) cell) }
    {
        Ok(Cell {
            var: cell.var,
            site: cell.site,
            val: self.val(alloc, cell.val)?,
        })
    }

    // A cell, where it stays.
    fn put_cell(&self, alloc: Global, cell: Cell, made: &mut Seq<Cell>) -> Result<(), AllocError>
        ensures { OnOk result (made.new ≡ made.old ++ kept_cells (set_holds self.now.sites.now.keys)
            (set_holds self.now.gone.now.keys) (cell ∷ [])) }
    {
        if self.sites.contains(&cell.site.0) {
            made.push(self.cell(alloc, cell)?)?;
        }
        Ok(())
    }

    // The cells of a group that stay.
    fn cells(&self, alloc: Global, cells: Seq<Cell>) -> Result<Seq<Cell>, AllocError>
        ensures { IfOk result (λ cs. cs ≡ kept_cells (set_holds self.now.sites.now.keys)
            (set_holds self.now.gone.now.keys) cells) }
    {
        let mut made = Seq::new(alloc);
        for cell in cells.into_vec() {
            self.put_cell(alloc, cell, &mut made)?;
        }
        Ok(made)
    }

    #[cycle(leave)]
    #[tactic(auto, using(grin_syntax::proofs::TreeOf::tree_of, crate::proofs::Rewriting::case_without), unfolding(crate::specs::Without::without_act))]
    fn op(&self, alloc: Global, op: Op) -> Result<Op, AllocError>
        ensures { IfOk result (λ o. act_of o ≡ without_act (set_holds self.now.sites.now.keys)
            (set_holds self.now.gone.now.keys) (act_of op)) }
    {
        match op {
            Op::Unit(v) => Ok(Op::Unit(self.val(alloc, v)?)),
            Op::Fetch(a) => Ok(Op::Fetch(self.word(a))),
            Op::FetchWord(a, i) => Ok(Op::FetchWord(self.word(a), i)),
            Op::Update(a, v) => Ok(Op::Update(self.word(a), self.val(alloc, v)?)),
            Op::Eval(a) => Ok(Op::Eval(self.word(a))),
            Op::Apply(v, a) => Ok(Op::Apply(self.val(alloc, v)?, self.word(a))),
            Op::Call(f, words) => Ok(Op::Call(f, self.words(alloc, words)?)),
            Op::Prim(p, a, b) => Ok(Op::Prim(p, self.word(a), self.word(b))),
            Op::Read => Ok(Op::Read),
            Op::Write(a) => Ok(Op::Write(self.word(a))),
            Op::Case(v, alts) => {
                let value = self.val(alloc, v)?;
                let mut arms = Seq::new(alloc);
                for alt in alts.into_vec() {
                    arms.push(self.alt(alloc, alt)?)?;
                }
                Ok(Op::Case(value, arms))
            }
            Op::Nested(block) => {
                let inner = self.block(alloc, Box::into_inner(block))?;
                Ok(Op::Nested(Box::new(alloc, inner)?))
            }
            Op::Fail => Ok(Op::Fail),
        }
    }

    #[cycle(leave)]
    fn alt(&self, alloc: Global, alt: Alt) -> Result<Alt, AllocError>
        ensures { IfOk result (λ a. arm_of a ≡ without_arm (set_holds self.now.sites.now.keys)
            (set_holds self.now.gone.now.keys) (arm_of alt)) }
    {
        Ok(Alt {
            pattern: alt.pattern,
            body: self.block(alloc, alt.body)?,
        })
    }

    // A statement, but for a group that loses all its cells.
    #[cycle(leave)]
    fn stmt(&self, alloc: Global, stmt: Stmt, made: &mut Seq<Stmt>) -> Result<(), AllocError>
        ensures { OnOk result ((c : Code) → all_before (map before_of made.new)
            (without_code (set_holds self.now.sites.now.keys) (set_holds self.now.gone.now.keys) c)
            ≡ all_before (map before_of made.old) (without_code (set_holds self.now.sites.now.keys)
            (set_holds self.now.gone.now.keys) (before_of stmt c))) }
    {
        match stmt {
            Stmt::Store(cells) => {
                let kept = self.cells(alloc, cells)?;
                put_group(kept, made)?;
                Ok(())
            }
            Stmt::Bind(target, op) => {
                let bound = self.op(alloc, op)?;
                made.push(Stmt::Bind(target, bound))?;
                Ok(())
            }
        }
    }

    /// A block without the cells that leave.
    #[cycle(leave)]
    pub(crate) fn block(&self, alloc: Global, block: Block) -> Result<Block, AllocError>
        ensures { IfOk result (λ b. code_of b ≡ without_code (set_holds self.now.sites.now.keys)
            (set_holds self.now.gone.now.keys) (code_of block)) }
    {
        let mut stmts = Seq::new(alloc);
        for stmt in block.stmts.into_vec() {
            self.stmt(alloc, stmt, &mut stmts)?;
        }
        let last = self.op(alloc, Box::into_inner(block.last))?;
        Ok(Block {
            stmts,
            last: Box::new(alloc, last)?,
        })
    }
}
