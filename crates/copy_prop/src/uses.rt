// The variables that were used so far.
#![tactic(auto)]

ghost use Rattle.std.specs.Prelude.{◌≡◌, [], ◌∷◌, ◌++◌, not, ◌&&◌, length, drop, OnOk};
ghost use Rattle.grin_syntax.specs.Binders.{target_vars, numbers_of};
ghost use Rattle.grin_syntax.specs.Tree.{act_of};
ghost use Rattle.copy_prop.specs.Lean.{are_disjoint, used_beside_blocks, used_in_word, used_in_words, used_in_val, used_in_cells};
ghost use Rattle.seq.specs.Lists.{is_among as stands};

use grin_syntax::{Cell, Op, Target, Val, VarId, Word};
use std::alloc::{AllocError, Global};
use std::marker::Model;

/// The variables that were used so far, in the order of their uses. Whether one was used after a
/// place is known at once.
#[derive(Drop)]
pub struct Uses {
    seen: Vec<u32>,
    // by the number of a variable: how many were used up to its latest use, and 0 where it was not
    latest: Vec<u64>,
}

impl Model for Uses {
    ghost use Rattle.std.specs.Prelude.{ℕ, List};
    ghost use Rattle.copy_prop.specs.Latest.{Latest};

    ghost Value = { List ℕ };

    ghost view = { λ u. u.seen.items };

    ghost invariant = { λ u. Latest u.seen.items u.latest.items };
}

impl Uses {
    /// Nothing was used yet.
    pub fn new(alloc: Global) -> Uses
        ensures { result ≡ [] }
    {
        Uses {
            seen: Vec::new(alloc),
            latest: Vec::new(alloc),
        }
    }

    /// How many uses there were.
    pub fn count(&self) -> u64
        ensures { result ≡ length self.now }
    {
        self.seen.len() as u64
    }

    fn note(&mut self, x: VarId) -> Result<(), AllocError>
        ensures { OnOk result (self.new ≡ self.old ++ x.0 ∷ []) }
    {
        let at = x.0 as usize;
        for _ in self.latest.len()..(at + 1) {
            self.latest.push(0)?;
        }
        self.seen.push(x.0)?;
        self.latest[at] = self.seen.len() as u64;
        Ok(())
    }

    /// Whether a variable was used after the first so many uses.
    pub fn used_after(&self, from: u64, x: VarId) -> bool
        ensures { result ≡ stands x.0 (drop from self.now) }
    {
        match self.latest.get(x.0 as usize) {
            Some(latest) => from < *latest,
            None => false,
        }
    }

    /// Whether none of a target's variables was used after the first so many uses.
    pub fn spare(&self, from: u64, target: &Target) -> bool
        ensures { result ≡ are_disjoint (target_vars target.now) (drop from self.now) }
    {
        match target {
            Target::Nothing => true,
            Target::Node(x) => !self.used_after(from, *x),
            Target::One(x) => !self.used_after(from, *x),
            Target::Vector(xs) => self.all_spare(from, xs.as_slice()),
        }
    }

    fn all_spare(&self, from: u64, xs: &[VarId]) -> bool
        ensures { result ≡ are_disjoint (numbers_of xs.now) (drop from self.now) }
    {
        let mut spare = true;
        for x in xs {
            spare = spare_too(spare, self.used_after(from, *x));
        }
        spare
    }

    /// A word is used.
    pub fn note_word(&mut self, word: Word) -> Result<(), AllocError>
        ensures { OnOk result (self.new ≡ self.old ++ used_in_word word) }
    {
        match word {
            Word::Var(x) => self.note(x),
            Word::Lit(_) => Ok(()),
            Word::Global(_) => Ok(()),
            Word::TagWord(_) => Ok(()),
        }
    }

    /// Words are used.
    pub fn note_words(&mut self, words: &[Word]) -> Result<(), AllocError>
        ensures { OnOk result (self.new ≡ self.old ++ used_in_words words.now) }
    {
        for word in words {
            self.note_word(*word)?;
        }
        Ok(())
    }

    /// A value is used.
    pub fn note_val(&mut self, v: &Val) -> Result<(), AllocError>
        ensures { OnOk result (self.new ≡ self.old ++ used_in_val v.now) }
    {
        match v {
            Val::NodeVar(x) => self.note(*x),
            Val::Node(_, words) => self.note_words(words.as_slice()),
            Val::Vector(words) => self.note_words(words.as_slice()),
            Val::One(word) => self.note_word(*word),
        }
    }

    /// What an operation uses, without the blocks inside it.
    #[tactic(auto, using(grin_syntax::proofs::TreeOf::tree_of, seq::proofs::Lists::append_again, seq::proofs::Lists::append_nil))]
    pub fn note_op(&mut self, op: &Op) -> Result<(), AllocError>
        ensures { OnOk result (self.new ≡ self.old ++ used_beside_blocks (act_of op.now)) }
    {
        match op {
            Op::Unit(v) => self.note_val(v),
            Op::Fetch(w) => self.note_word(*w),
            Op::FetchWord(w, _) => self.note_word(*w),
            Op::Update(w, v) => {
                self.note_word(*w)?;
                self.note_val(v)
            }
            Op::Eval(w) => self.note_word(*w),
            Op::Apply(v, w) => {
                self.note_val(v)?;
                self.note_word(*w)
            }
            Op::Call(_, words) => self.note_words(words.as_slice()),
            Op::Prim(_, a, b) => {
                self.note_word(*a)?;
                self.note_word(*b)
            }
            Op::Read => Ok(()),
            Op::Write(w) => self.note_word(*w),
            Op::Case(v, _) => self.note_val(v),
            Op::Nested(_) => Ok(()),
            Op::Fail => Ok(()),
        }
    }

    /// What goes into cells is used.
    pub fn note_cells(&mut self, cells: &[Cell]) -> Result<(), AllocError>
        ensures { OnOk result (self.new ≡ self.old ++ used_in_cells cells.now) }
    {
        for cell in cells {
            self.note_val(&cell.val)?;
        }
        Ok(())
    }
}

fn spare_too(spare: bool, used: bool) -> bool
    ensures { result ≡ (spare && not used) }
{
    if used { false } else { spare }
}
