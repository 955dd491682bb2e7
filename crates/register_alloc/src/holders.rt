// The variables that hold the registers x8 to x31 at a point of a procedure.

ghost use Rattle.std.specs.Prelude.{◌≡◌, ◌<◌, ◌++◌, ◌∷◌, [], ℕ, true, false, List, length, slice_get, slice_set, Some, None, Option, vec_len, IfOk, OnOk, IfSome, MatchOption};
ghost use Rattle.variable_uses.specs.Uses.{AreUses};
ghost use Rattle.register_alloc.specs.Holders.{HoldsRegister, AreStillUsed, AreMarkedForJoin, AllFree, AreRegisters, StaysIfWanted, IsMarkedIfWanted, Pairwise, new_holder};
ghost use Rattle.register_alloc.specs.declared.holders.Holder.{Holder};

use crate::either::either;
use crate::wish::Among;
use seq::Seq;
use std::alloc::{AllocError, Global};
use variable_uses::Uses;

/// The stack's base lasts in x27 where no variable stands there; its number from x8 on.
const STACK_BASE: usize = 19;

/// A variable that holds a register, and whether it is used after the joins around the block.
#[derive(Clone, Copy, Debug, PartialEq, Eq)]
pub struct Holder {
    pub variable: u32,
    pub later: bool,
}

/// Who holds each of the registers from x8 on, if any variable does.
#[derive(Drop)]
pub struct Holders {
    pub of: Vec<Option<Holder>>,
    ghost many: { vec_len of ≡ 24 },
}

impl Holders {
    /// All registers are free.
    pub fn none(alloc: Global) -> Result<Holders, AllocError>
        ensures { IfOk result (λ h. AllFree h.of.items) }
    {
        let mut of = Vec::new(alloc);
        of.resize(24, None)?;
        Ok(Holders { of })
    }

    /// Those that are still used: at a position from `from` on and before `to`, or later.
    pub fn live(
        &self,
        alloc: Global,
        uses: &Uses,
        from: u32,
        to: u32,
    ) -> Result<Holders, AllocError>
        ensures { IfOk result (λ h. (used : List ℕ) → AreUses used uses.now
            → AreStillUsed used from to self.now.of.items h.of.items) }
    {
        self.each(alloc, |held| still(held, uses, from, to))
    }

    /// The same at the head of a join's block, after which come the positions from `from` on and
    /// before `to`.
    pub fn entering(
        &self,
        alloc: Global,
        uses: &Uses,
        from: u32,
        to: u32,
    ) -> Result<Holders, AllocError>
        ensures { IfOk result (λ h. (used : List ℕ) → AreUses used uses.now
            → AreMarkedForJoin used from to self.now.of.items h.of.items) }
    {
        self.each(alloc, |held| within_join(held, uses, from, to))
    }

    /// What each register's holder becomes.
    fn each<F: Fn(Option<Holder>) -> Option<Holder>>(
        &self,
        alloc: Global,
        becomes: F,
    ) -> Result<Holders, AllocError>
        requires { F.IsAlwaysCallable becomes }
        ensures { IfOk result (λ h. Pairwise (F.post becomes) self.now.of.items h.of.items) }
    {
        let mut of = Vec::new(alloc);
        for held in self.of.as_slice() {
            of.push(becomes(*held))?;
        }
        Ok(Holders { of })
    }

    /// A copy.
    pub fn copied(&self, alloc: Global) -> Result<Holders, AllocError>
        ensures { IfOk result (λ h. h.of.items ≡ self.now.of.items) }
    {
        let of = Vec::from_slice(alloc, self.of.as_slice())?;
        Ok(Holders { of })
    }

    /// A free register: the first of these wishes that is free, else the last where the variable
    /// stays across a call, else the first from its place on that isn't one of the other words'
    /// among which it stands, else the first. They are numbered from x8 on.
    pub fn free(&self, wishes: &[Option<usize>], stays: bool, among: Among) -> Option<usize>
        ensures { MatchOption result ((r : ℕ) → r < length self.now.of.items → (d : Holder)
            × HoldsRegister self.now.of.items r d) (λ r. slice_get self.now.of.items r ≡ Some None) }
    {
        match self.wished(wishes) {
            Some(register) => Some(register),
            None => self.any_free(stays, among),
        }
    }

    /// The first of these registers that is free.
    fn wished(&self, wishes: &[Option<usize>]) -> Option<usize>
        ensures { IfSome result (λ r. slice_get self.now.of.items r ≡ Some None) }
    {
        let mut found = None;
        for wish in wishes {
            found = self.earlier(found, *wish);
        }
        found
    }

    /// The register that was found before, else the wished one where it is free.
    fn earlier(&self, found: Option<usize>, wish: Option<usize>) -> Option<usize>
        ensures { IfSome found (λ r. slice_get self.now.of.items r ≡ Some None)
            → IfSome result (λ r. slice_get self.now.of.items r ≡ Some None) }
    {
        match found {
            Some(register) => Some(register),
            None => self.wanted(wish),
        }
    }

    /// A wished register, where it is free.
    fn wanted(&self, wish: Option<usize>) -> Option<usize>
        ensures { IfSome result (λ r. slice_get self.now.of.items r ≡ Some None) }
    {
        match wish {
            Some(register) => self.if_free(register),
            None => None,
        }
    }

    fn if_free(&self, register: usize) -> Option<usize>
        ensures { IfSome result (λ r. slice_get self.now.of.items r ≡ Some None) }
    {
        if self.is_free(register) {
            Some(register)
        } else {
            None
        }
    }

    fn any_free(&self, stays: bool, among: Among) -> Option<usize>
        ensures { MatchOption result ((r : ℕ) → r < length self.now.of.items → (d : Holder)
            × HoldsRegister self.now.of.items r d) (λ r. slice_get self.now.of.items r ≡ Some None) }
    {
        match self.last_free(stays) {
            Some(register) => Some(register),
            None => match self.free_from(among) {
                Some(register) => Some(register),
                None => self.first_free(),
            },
        }
    }

    /// The first free register from a place on that isn't one of the words' themselves.
    fn free_from(&self, among: Among) -> Option<usize>
        ensures { IfSome result (λ r. slice_get self.now.of.items r ≡ Some None) }
    {
        for place in among.place..self.of.len() {
            let register = among.beside(place);
            if self.is_free(register) {
                return Some(register);
            }
        }
        None
    }

    /// The last free register, where it is asked for.
    fn last_free(&self, asked: bool) -> Option<usize>
        ensures { IfSome result (λ r. slice_get self.now.of.items r ≡ Some None) }
    {
        if !asked {
            return None;
        }
        let mut last = None;
        for register in 0..self.of.len() {
            last = self.later(last, register);
        }
        last
    }

    /// This register where it is free and isn't the stack base's, else the one before.
    fn later(&self, last: Option<usize>, register: usize) -> Option<usize>
        ensures { IfSome last (λ r. slice_get self.now.of.items r ≡ Some None)
            → IfSome result (λ r. slice_get self.now.of.items r ≡ Some None) }
    {
        if register == STACK_BASE {
            last
        } else if self.is_free(register) {
            Some(register)
        } else {
            last
        }
    }

    fn is_free(&self, register: usize) -> bool
        ensures { result ≡ true → slice_get self.now.of.items register ≡ Some None }
    {
        match self.of.get(register) {
            Some(held) => held.is_none(),
            None => false,
        }
    }

    fn first_free(&self) -> Option<usize>
        ensures { MatchOption result ((r : ℕ) → r < length self.now.of.items → (d : Holder)
            × HoldsRegister self.now.of.items r d) (λ r. slice_get self.now.of.items r ≡ Some None) }
    {
        for register in 0..self.of.len() {
            if is_none(self.of[register]) {
                return Some(register);
            }
        }
        None
    }

    /// Lets a variable that isn't used later hold a register.
    pub fn hold(&mut self, register: usize, variable: u32)
        requires { register < length self.old.of.items }
        ensures { self.new.of.items
            ≡ slice_set self.old.of.items register (Some (new_holder variable)) }
    {
        self.of[register] = Some(Holder {
            variable,
            later: false,
        });
    }

    /// The register of a variable, if it holds one.
    pub fn register_of(&self, variable: u32) -> Option<usize> {
        for register in 0..self.of.len() {
            if is_held_by(self.of[register], variable) {
                return Some(register);
            }
        }
        None
    }

    /// The registers that are held, ascending, by their own numbers.
    pub fn registers(&self, alloc: Global) -> Result<Seq<u8>, AllocError>
        ensures { IfOk result (AreRegisters self.now.of.items) }
    {
        let mut registers = Seq::new(alloc);
        for register in 0..24u8 {
            add_held(&mut registers, self.of[register as usize], 8 + register)?;
        }
        Ok(registers)
    }
}

fn is_none(held: Option<Holder>) -> bool
    ensures free { result ≡ true → held ≡ None }
    ensures held { result ≡ false → (d : Holder) × (held ≡ Some d) }
{
    match held {
        Some(_) => false,
        None => true,
    }
}

/// Adds a register where it is held.
fn add_held(registers: &mut Seq<u8>, held: Option<Holder>, register: u8) -> Result<(), AllocError>
    ensures { OnOk result (MatchOption held (registers.new ≡ registers.old) (λ d. registers.new
        ≡ registers.old ++ (register ∷ []))) }
{
    match held {
        Some(_) => registers.push(register)?,
        None => {}
    }
    Ok(())
}

fn is_held_by(held: Option<Holder>, variable: u32) -> bool {
    match held {
        Some(holder) => holder.variable == variable,
        None => false,
    }
}

fn still(held: Option<Holder>, uses: &Uses, from: u32, to: u32) -> Option<Holder>
    ensures { (used : List ℕ) → AreUses used uses.now → StaysIfWanted used from to held result }
{
    match held {
        Some(holder) => {
            if either(holder.later, uses.within(holder.variable, from, to)) {
                Some(holder)
            } else {
                None
            }
        }
        None => None,
    }
}

fn within_join(held: Option<Holder>, uses: &Uses, from: u32, to: u32) -> Option<Holder>
    ensures { (used : List ℕ) → AreUses used uses.now → IsMarkedIfWanted used from to held result }
{
    match held {
        Some(holder) => Some(Holder {
            variable: holder.variable,
            later: either(holder.later, uses.within(holder.variable, from, to)),
        }),
        None => None,
    }
}
