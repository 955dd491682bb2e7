//! The variables of a procedure: every other number from the first one on is a local's, the others
//! are those of values between operations.

ghost use Rattle.std.specs.Prelude.{◌≡◌, ◌+◌, ◌*◌, IfOk, OnOk, map};
ghost use Rattle.grin_syntax.specs.Fresh.{variable};
ghost use Rattle.grin_translate.specs.Pieces.{cell_of_local};

use grin_syntax::program::{Cell, Site, Val, VarId};
use seq::Seq;
use std::alloc::{AllocError, Global};

/// A length as a number of 32 bits. More counts as want of memory.
pub fn as_u32(len: usize) -> Result<u32, AllocError>
    ensures { IfOk result (λ n. n ≡ len) }
{
    match u32::try_from(len) {
        Ok(n) => Ok(n),
        Err(_) => Err(AllocError),
    }
}

/// The sum of two numbers. A greater one counts as want of memory.
pub fn sum(a: u32, b: u32) -> Result<u32, AllocError>
    ensures { IfOk result (λ n. n ≡ a + b) }
{
    match a.checked_add(b) {
        Some(n) => Ok(n),
        None => Err(AllocError),
    }
}

/// The variables of one procedure.
#[derive(Drop)]
pub struct Variables {
    /// The number of the first one.
    pub base: u32,
    /// How many values between operations are bound already.
    pub bound: u32,
}

impl Variables {
    /// The variable of a local.
    pub fn local(&self, x: u32) -> Result<VarId, AllocError>
        ensures { IfOk result (λ v. v ≡ variable (self.now.base + 2 * x)) }
    {
        let twice = sum(x, x)?;
        Ok(VarId(sum(self.base, twice)?))
    }

    /// The cell of a local.
    pub fn cell(&self, x: u32, val: Val) -> Result<Cell, AllocError>
        ensures { IfOk result (λ c. c ≡ cell_of_local self.now.base x val) }
    {
        let var = self.local(x)?;
        Ok(Cell {
            var,
            site: Site(var.0),
            val,
        })
    }

    /// The variables of some locals, in their order.
    pub fn locals(&self, alloc: Global, xs: &[u32]) -> Result<Seq<VarId>, AllocError>
        ensures { IfOk result (λ vs. vs ≡ map (λ x. variable (self.now.base + 2 * x)) xs.now) }
    {
        let mut made = Seq::new(alloc);
        for x in xs {
            made.push(self.local(*x)?)?;
        }
        Ok(made)
    }

    /// The variable of a value between operations, by its place.
    pub fn value(&self, t: u32) -> Result<VarId, AllocError>
        ensures { IfOk result (λ v. v ≡ variable (self.now.base + 2 * t + 1)) }
    {
        let twice = sum(t, t)?;
        Ok(VarId(sum(sum(self.base, twice)?, 1)?))
    }

    /// A variable for the next value between operations.
    pub fn fresh(&mut self) -> Result<VarId, AllocError>
        ensures is { IfOk result (λ v. v ≡ variable (self.old.base + 2 * self.old.bound + 1)) }
        ensures next { OnOk result (self.new.bound ≡ self.old.bound + 1) }
        ensures base { self.new.base ≡ self.old.base }
    {
        let twice = sum(self.bound, self.bound)?;
        let number = sum(sum(self.base, twice)?, 1)?;
        self.bound = sum(self.bound, 1)?;
        Ok(VarId(number))
    }
}
