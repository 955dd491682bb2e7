// The uses of a procedure in the order of its text, and the sizes of the pieces in it.
#![tactic(auto, using(grin_syntax::proofs::TreeOf::tree_of, seq::proofs::Lists::append_again, seq::proofs::Lists::append_nil), unfolding(crate::specs::Notes::act_trace))]

ghost use Rattle.std.specs.Prelude.{◌≡◌, ◌++◌, ◌-◌, [], ◌∷◌, map, length, List, IfOk, OnOk};
ghost use Rattle.grin_syntax.specs.Tree.{Code, act_of, before_of, arms_of, arm_of, code_of};
ghost use Rattle.fetch_passes.specs.Notes.{Trace, with_own_size, only, word_used, words_used, val_used, cells_used, act_trace, code_trace, arms_trace};

use crate::notes::Size;
use grin_syntax::{Alt, Block, Cell, Op, Stmt, Val, Word};
use std::alloc::{AllocError, Global};

/// The variables that are used, in the order of the text, and of each piece, as it begins, its
/// size.
#[derive(Drop)]
pub(crate) struct Scan {
    pub used: Vec<u32>,
    pub sizes: Vec<Size>,
}

/// A number of 32 bits; past those there is none, which counts as want of memory.
pub(crate) fn as_u32(many: usize) -> Result<u32, AllocError>
    ensures { IfOk result (λ n. n ≡ many) }
{
    match u32::try_from(many) {
        Ok(n) => Ok(n),
        Err(_) => Err(AllocError),
    }
}

fn less(a: usize, b: usize) -> usize
    ensures { result ≡ a - b }
{
    a.saturating_sub(b)
}

impl Scan {
    /// Nothing yet.
    pub(crate) fn new(alloc: Global) -> Scan
        ensures used { result.used.items ≡ [] }
        ensures sizes { result.sizes.items ≡ [] }
    {
        Scan {
            used: Vec::new(alloc),
            sizes: Vec::new(alloc),
        }
    }

    fn word(&mut self, word: Word) -> Result<(), AllocError>
        ensures used { OnOk result (self.new.used.items ≡ self.old.used.items ++ word_used word) }
        ensures sizes { OnOk result (self.new.sizes.items ≡ self.old.sizes.items) }
    {
        match word {
            Word::Var(x) => self.used.push(x.0)?,
            Word::Lit(_) => {}
            Word::Global(_) => {}
            Word::TagWord(_) => {}
        }
        Ok(())
    }

    fn words(&mut self, words: &[Word]) -> Result<(), AllocError>
        ensures used { OnOk result (self.new.used.items
            ≡ self.old.used.items ++ words_used words.now) }
        ensures sizes { OnOk result (self.new.sizes.items ≡ self.old.sizes.items) }
    {
        for word in words {
            self.word(*word)?;
        }
        Ok(())
    }

    fn val(&mut self, v: &Val) -> Result<(), AllocError>
        ensures used { OnOk result (self.new.used.items ≡ self.old.used.items ++ val_used v.now) }
        ensures sizes { OnOk result (self.new.sizes.items ≡ self.old.sizes.items) }
    {
        match v {
            Val::NodeVar(x) => self.used.push(x.0)?,
            Val::Node(_, words) => self.words(words.as_slice())?,
            Val::Vector(words) => self.words(words.as_slice())?,
            Val::One(word) => self.word(*word)?,
        }
        Ok(())
    }

    fn cells(&mut self, cells: &[Cell]) -> Result<(), AllocError>
        ensures used { OnOk result (self.new.used.items
            ≡ self.old.used.items ++ cells_used cells.now) }
        ensures sizes { OnOk result (self.new.sizes.items ≡ self.old.sizes.items) }
    {
        for cell in cells {
            self.val(&cell.val)?;
        }
        Ok(())
    }

    // A piece begins; its size is not known yet.
    fn begin(&mut self) -> Result<(usize, usize), AllocError>
        ensures place { IfOk result (λ p. (p.0 ≡ length self.old.used.items)
            × (p.1 ≡ length self.old.sizes.items)) }
        ensures used { OnOk result (self.new.used.items ≡ self.old.used.items) }
        ensures sizes { OnOk result (self.new.sizes.items
            ≡ self.old.sizes.items ++ record { uses = 0; pieces = 0 } ∷ []) }
    {
        let begun = (self.used.len(), self.sizes.len());
        self.sizes.push(Size { uses: 0, pieces: 0 })?;
        Ok(begun)
    }

    // The piece that began there ends.
    fn finish(&mut self, at: usize, piece: usize) -> Result<(), AllocError>
        ensures used { OnOk result (self.new.used.items ≡ self.old.used.items) }
        ensures sizes { OnOk result ((s t : Trace) → at ≡ length s.used → piece ≡ length s.sizes
            → self.old.used.items ≡ s.used ++ t.used
            → self.old.sizes.items ≡ s.sizes ++ record { uses = 0; pieces = 0 } ∷ t.sizes
            → self.new.sizes.items ≡ s.sizes ++ (with_own_size t).sizes) }
    {
        let uses = as_u32(less(self.used.len(), at))?;
        let pieces = as_u32(less(less(self.sizes.len(), piece), 1))?;
        if piece < self.sizes.len() {
            self.sizes[piece] = Size { uses, pieces };
        }
        Ok(())
    }

    // The value of a case, as a piece.
    fn tested(&mut self, v: &Val) -> Result<(), AllocError>
        ensures used { OnOk result (self.new.used.items ≡ self.old.used.items ++ val_used v.now) }
        ensures sizes { OnOk result (self.new.sizes.items
            ≡ self.old.sizes.items ++ (with_own_size (only (val_used v.now))).sizes) }
    {
        let (at, piece) = self.begin()?;
        self.val(v)?;
        self.finish(at, piece)?;
        Ok(())
    }

    fn store(&mut self, cells: &[Cell]) -> Result<(), AllocError>
        ensures used { OnOk result (self.new.used.items
            ≡ self.old.used.items ++ cells_used cells.now) }
        ensures sizes { OnOk result (self.new.sizes.items
            ≡ self.old.sizes.items ++ (with_own_size (only (cells_used cells.now))).sizes) }
    {
        let (at, piece) = self.begin()?;
        self.cells(cells)?;
        self.finish(at, piece)?;
        Ok(())
    }

    #[cycle(scan)]
    fn inside(&mut self, op: &Op) -> Result<(), AllocError>
        ensures used { OnOk result (self.new.used.items
            ≡ self.old.used.items ++ (act_trace (act_of op.now)).used) }
        ensures sizes { OnOk result (self.new.sizes.items
            ≡ self.old.sizes.items ++ (act_trace (act_of op.now)).sizes) }
    {
        match op {
            Op::Unit(v) => self.val(v)?,
            Op::Fetch(a) => self.word(*a)?,
            Op::FetchWord(a, _) => self.word(*a)?,
            Op::Update(a, v) => {
                self.word(*a)?;
                self.val(v)?;
            }
            Op::Eval(a) => self.word(*a)?,
            Op::Apply(v, a) => {
                self.val(v)?;
                self.word(*a)?;
            }
            Op::Call(_, words) => self.words(words.as_slice())?,
            Op::Prim(_, a, b) => {
                self.word(*a)?;
                self.word(*b)?;
            }
            Op::Read => {}
            Op::Write(a) => self.word(*a)?,
            Op::Case(v, alts) => {
                self.tested(v)?;
                self.alts(alts.as_slice())?;
            }
            Op::Nested(block) => self.block(block)?,
            Op::Fail => {}
        }
        Ok(())
    }

    #[cycle(scan)]
    fn op(&mut self, op: &Op) -> Result<(), AllocError>
        ensures used { OnOk result (self.new.used.items
            ≡ self.old.used.items ++ (act_trace (act_of op.now)).used) }
        ensures sizes { OnOk result (self.new.sizes.items
            ≡ self.old.sizes.items ++ (with_own_size (act_trace (act_of op.now))).sizes) }
    {
        let (at, piece) = self.begin()?;
        self.inside(op)?;
        self.finish(at, piece)?;
        Ok(())
    }

    #[cycle(scan)]
    fn alts(&mut self, alts: &[Alt]) -> Result<(), AllocError>
        ensures used { OnOk result (self.new.used.items
            ≡ self.old.used.items ++ (arms_trace (arms_of (map arm_of alts.now))).used) }
        ensures sizes { OnOk result (self.new.sizes.items
            ≡ self.old.sizes.items ++ (arms_trace (arms_of (map arm_of alts.now))).sizes) }
    {
        for alt in alts {
            self.inner(&alt.body)?;
        }
        Ok(())
    }

    #[cycle(scan)]
    fn stmt(&mut self, stmt: &Stmt) -> Result<(), AllocError>
        ensures used { OnOk result ((c : Code) → self.old.used.items
            ++ (code_trace (before_of stmt.now c)).used ≡ self.new.used.items
            ++ (code_trace c).used) }
        ensures sizes { OnOk result ((c : Code) → self.old.sizes.items
            ++ (code_trace (before_of stmt.now c)).sizes ≡ self.new.sizes.items
            ++ (code_trace c).sizes) }
    {
        match stmt {
            Stmt::Store(cells) => self.store(cells.as_slice())?,
            Stmt::Bind(_, op) => self.op(op)?,
        }
        Ok(())
    }

    #[cycle(scan)]
    fn block(&mut self, block: &Block) -> Result<(), AllocError>
        ensures used { OnOk result (self.new.used.items
            ≡ self.old.used.items ++ (code_trace (code_of block.now)).used) }
        ensures sizes { OnOk result (self.new.sizes.items
            ≡ self.old.sizes.items ++ (code_trace (code_of block.now)).sizes) }
    {
        for stmt in block.stmts.as_slice() {
            self.stmt(stmt)?;
        }
        self.op(&block.last)?;
        Ok(())
    }

    /// Goes through a block, as a piece. `AllocError` where memory is wanting.
    #[cycle(scan)]
    pub(crate) fn inner(&mut self, block: &Block) -> Result<(), AllocError>
        ensures used { OnOk result (self.new.used.items
            ≡ self.old.used.items ++ (code_trace (code_of block.now)).used) }
        ensures sizes { OnOk result (self.new.sizes.items
            ≡ self.old.sizes.items ++ (with_own_size (code_trace (code_of block.now))).sizes) }
    {
        let (at, piece) = self.begin()?;
        self.block(block)?;
        self.finish(at, piece)?;
        Ok(())
    }
}
