// The walk that gives each variable of a procedure its place, where it is bound.

#![tactic(auto, using(low_code::proofs::TreeOf::tree_of))]

ghost use Rattle.std.specs.Prelude.{◌≡◌, ◌⊎◌, ◌↔◌, ◌<◌, ◌≤◌, ◌+◌, ◌++◌, ◌∷◌, [], ℕ, List, length, map, slice_index_or, Option, IfOk, OnOk};
ghost use Rattle.low_code.specs.Tree.{Code, set, prim, load, save, take, put, get, call, join, give, tail, choose, before_of, end_of, code_of, arm_of, arms_before, procedure_of};
ghost use Rattle.low_code.specs.Formed.{used_by, used_by_all, used_by_tests};
ghost use Rattle.register_alloc.specs.Holders.{AreRegisters};
ghost use Rattle.register_alloc.specs.Point.{IsFreshWalk, SameGiven, SameText, SamePlaces, EntersInner, GivesPlace, GivesSlot, AllGiven, AddsPlaces, Binds, WalksCall, WalksStatement, WalksArm, WalksBlock, WalksProcedure};
ghost use Rattle.register_alloc.specs.declared.holders.Holder.{Holder};
ghost use Rattle.register_alloc.specs.declared.registers.Text.{Text};
ghost use Rattle.register_alloc.specs.declared.registers.CallSite.{CallSite};

use crate::hints::Hints;
use crate::holders::Holders;
use crate::scan::Scan;
use crate::wish::{GivenFirst, Wish, else_where_held, wish_where_held};
use low_code::{LowArm, LowBlock, LowEnd, LowProc, LowStmt, LowTest, Operand, PrimOp};
use parallel_move::Spot;
use seq::Seq;
use std::alloc::{AllocError, Global};
use variable_uses::Uses;

/// A variable and its place.
#[derive(Clone, Copy, Debug, PartialEq, Eq)]
pub struct Given {
    pub variable: u32,
    pub spot: Spot,
}

/// A call: its site, the procedure, and the registers of the variables that are live after it,
/// ascending.
#[derive(Drop)]
pub struct CallSite {
    pub site: u32,
    pub proc: u32,
    pub live: Seq<u8>,
}

/// What the walk reads of a procedure: where its variables are used, the sizes of its inner blocks,
/// and where variables would best stand.
#[derive(Drop)]
pub struct Text {
    pub uses: Uses,
    pub sizes: Vec<u32>,
    pub hints: Hints,
}

/// Where the walk stands: the position of the next use and the number of the next inner block; and
/// what it has made so far: the places of variables, the number of slots among them, and the calls.
#[derive(Drop)]
pub struct Registers {
    alloc: Global,
    pub at: u32,
    pub block: u32,
    pub slots: u32,
    pub given: Vec<Given>,
    pub calls: Vec<CallSite>,
}

fn uses_of(operand: &Operand) -> u32
    ensures { result ≡ length (used_by operand.now) }
{
    match operand {
        Operand::Var(_) => 1,
        Operand::Num(_) => 0,
        Operand::Cell(_) => 0,
    }
}

/// A sum of 32 bits; past those there is none, which counts as want of memory.
pub fn sum(a: u32, b: u32) -> Result<u32, AllocError>
    ensures { IfOk result (λ n. n ≡ a + b) }
{
    match a.checked_add(b) {
        Some(n) => Ok(n),
        None => Err(AllocError),
    }
}

/// The size of an inner block by its number.
fn size_at(sizes: &[u32], block: u32) -> u32
    ensures { result ≡ slice_index_or sizes.now block 0 }
{
    match sizes.get(block as usize) {
        Some(size) => *size,
        None => 0,
    }
}

/// The first of two registers that is there.
fn first_of(wanted: Option<usize>, other: Option<usize>) -> Option<usize> {
    match wanted {
        Some(_) => wanted,
        None => other,
    }
}

impl Registers {
    /// Before the first use.
    pub fn new(alloc: Global) -> Registers
        ensures { IsFreshWalk result }
    {
        Registers {
            alloc,
            at: 0,
            block: 0,
            slots: 0,
            given: Vec::new(alloc),
            calls: Vec::new(alloc),
        }
    }

    /// Goes past so many uses.
    fn pass(&mut self, many: u32) -> Result<(), AllocError>
        ensures at { OnOk result (self.new.at ≡ self.old.at + many) }
        ensures stays { OnOk result (SameGiven self.old self.new) }
    {
        let at = sum(self.at, many)?;
        self.at = at;
        Ok(())
    }

    fn pass_operands(&mut self, operands: &[Operand]) -> Result<(), AllocError>
        ensures at { OnOk result (self.new.at ≡ self.old.at + length (used_by_all operands.now)) }
        ensures stays { OnOk result (SameGiven self.old self.new) }
    {
        for operand in operands {
            self.pass(uses_of(operand))?;
        }
        Ok(())
    }

    fn pass_tests(&mut self, tests: &[LowTest]) -> Result<(), AllocError>
        ensures at { OnOk result (self.new.at ≡ self.old.at + length (used_by_tests tests.now)) }
        ensures stays { OnOk result (SameGiven self.old self.new) }
    {
        for test in tests {
            self.pass(uses_of(&test.left))?;
        }
        Ok(())
    }

    /// Where the inner block ends that begins here.
    fn inner_end(&mut self, text: &Text) -> Result<u32, AllocError>
        ensures { IfOk result (λ end. EntersInner text.now self.old self.new end) }
    {
        let size = size_at(text.sizes.as_slice(), self.block);
        let end = sum(self.at, size)?;
        let next = sum(self.block, 1)?;
        self.block = next;
        Ok(end)
    }

    /// Gives a variable a free register, where it can the wanted one or one by its later uses, and
    /// where none is free the next slot.
    fn give(
        &mut self,
        text: &Text,
        holders: &mut Holders,
        variable: u32,
        wish: Wish,
        index: usize,
    ) -> Result<(), AllocError>
        ensures { OnOk result (GivesPlace variable self.old holders.old.of.items self.new
            holders.new.of.items) }
    {
        let hint = text.hints.of(variable);
        let wanted = first_of(wish.at(index), hint.register);
        let among = hint.among.unwrap_or(wish.among(index));
        match holders.free(&[wanted, wish.otherwise()], hint.stays, among) {
            Some(register) => {
                holders.hold(register, variable);
                self.given.push(Given {
                    variable,
                    spot: Spot::Reg(8 + register as u8),
                })?;
                Ok(())
            }
            None => self.give_slot(variable),
        }
    }

    fn give_slot(&mut self, variable: u32) -> Result<(), AllocError>
        ensures { OnOk result (GivesSlot variable self.old self.new) }
    {
        let slot = self.slots;
        let next = sum(slot, 1)?;
        self.given.push(Given {
            variable,
            spot: Spot::Slot(slot),
        })?;
        self.slots = next;
        Ok(())
    }

    /// Gives each of these variables a place, where it can the register that it is wished in.
    fn give_all(
        &mut self,
        text: &Text,
        holders: &mut Holders,
        variables: &[u32],
        wish: Wish,
    ) -> Result<(), AllocError>
        ensures giving { OnOk result
            (AllGiven variables.now self.old holders.old.of.items self.new holders.new.of.items) }
        ensures adds { OnOk result (AddsPlaces variables.now self.old self.new) }
        ensures stays { OnOk result (SameText self.old self.new) }
        ensures calls { OnOk result (self.new.calls.items ≡ self.old.calls.items) }
    {
        for i in 0..variables.len() {
            self.give(text, holders, variables[i], wish, i)?;
        }
        Ok(())
    }

    /// Binds variables in a block that ends at `end`. Who holds the registers then.
    fn bind(
        &mut self,
        text: &Text,
        holders: &Holders,
        end: u32,
        variables: &[u32],
        wish: Wish,
    ) -> Result<Holders, AllocError>
        ensures bound { IfOk result (λ h.
            Binds text.now variables.now end self.old holders.now.of.items self.new h.of.items) }
        ensures adds { OnOk result (AddsPlaces variables.now self.old self.new) }
        ensures block { OnOk result (self.new.block ≡ self.old.block) }
        ensures calls { OnOk result (self.new.calls.items ≡ self.old.calls.items) }
    {
        let mut live = holders.live(self.alloc, &text.uses, self.at, end)?;
        self.give_all(text, &mut live, variables, wish)?;
        Ok(live)
    }

    /// Notes a call, and binds its targets, where it can where results stand.
    fn call(
        &mut self,
        text: &Text,
        holders: &Holders,
        end: u32,
        site: u32,
        proc: u32,
        targets: &[u32],
    ) -> Result<Holders, AllocError>
        ensures bound { IfOk result (λ h.
            Binds text.now targets.now end self.old holders.now.of.items self.new h.of.items) }
        ensures notes { OnOk result
            (WalksCall text.now site proc end self.old holders.now.of.items self.new) }
        ensures adds { OnOk result (AddsPlaces targets.now self.old self.new) }
        ensures block { OnOk result (self.new.block ≡ self.old.block) }
    {
        let mut live = holders.live(self.alloc, &text.uses, self.at, end)?;
        self.note(site, proc, &live)?;
        self.give_all(text, &mut live, targets, Wish::arguments())?;
        Ok(live)
    }

    /// Notes a call, after which these hold the registers.
    fn note(&mut self, site: u32, proc: u32, holders: &Holders) -> Result<(), AllocError>
        ensures call { OnOk result ((k : CallSite)
            × ((self.new.calls.items ≡ self.old.calls.items ++ (k ∷ []))
            × ((k.site ≡ site) × ((k.proc ≡ proc) × AreRegisters holders.now.of.items k.live)))) }
        ensures text { OnOk result (SameText self.old self.new) }
        ensures stays { OnOk result (SamePlaces self.old self.new) }
    {
        let live = holders.registers(self.alloc)?;
        self.calls.push(CallSite { site, proc, live })?;
        Ok(())
    }

    fn set(
        &mut self,
        text: &Text,
        holders: &Holders,
        end: u32,
        variable: u32,
        value: &Operand,
    ) -> Result<Holders, AllocError>
        ensures { IfOk result (λ h.
            WalksStatement text.now (set variable value.now) end self.old holders.now.of.items self.new
            h.of.items) }
    {
        self.pass(uses_of(value))?;
        let next = self.bind(
            text,
            holders,
            end,
            &[variable],
            wish_where_held(holders, value),
        )?;
        Ok(next)
    }

    fn prim(
        &mut self,
        text: &Text,
        holders: &Holders,
        end: u32,
        op: PrimOp,
        variable: u32,
        left: &Operand,
        right: &Operand,
    ) -> Result<Holders, AllocError>
        ensures { IfOk result (λ h.
            WalksStatement text.now (prim op variable left.now right.now) end self.old holders.now.of.items
            self.new h.of.items) }
    {
        self.pass(uses_of(left))?;
        self.pass(uses_of(right))?;
        let next = self.bind(
            text,
            holders,
            end,
            &[variable],
            else_where_held(holders, left),
        )?;
        Ok(next)
    }

    fn load(
        &mut self,
        text: &Text,
        holders: &Holders,
        end: u32,
        variable: u32,
        cell: &Operand,
        index: u32,
    ) -> Result<Holders, AllocError>
        ensures { IfOk result (λ h.
            WalksStatement text.now (load variable cell.now index) end self.old holders.now.of.items self.new
            h.of.items) }
    {
        self.pass(uses_of(cell))?;
        let next = self.bind(text, holders, end, &[variable], Wish::Any)?;
        Ok(next)
    }

    fn store(&mut self, cell: &Operand, index: u32, value: &Operand) -> Result<(), AllocError>
        ensures { OnOk result ((text : Text) (end : ℕ) (held : List (Option Holder))
            → WalksStatement text (save cell.now index value.now) end self.old held self.new held) }
    {
        self.pass(uses_of(cell))?;
        self.pass(uses_of(value))?;
        Ok(())
    }

    fn take(
        &mut self,
        text: &Text,
        holders: &Holders,
        end: u32,
        variables: &[u32],
    ) -> Result<Holders, AllocError>
        ensures { IfOk result (λ h.
            WalksStatement text.now (take variables.now) end self.old holders.now.of.items self.new
            h.of.items) }
    {
        let next = self.bind(text, holders, end, variables, Wish::Any)?;
        Ok(next)
    }

    fn output(&mut self, value: &Operand) -> Result<(), AllocError>
        ensures { OnOk result ((text : Text) (end : ℕ) (held : List (Option Holder))
            → WalksStatement text (put value.now) end self.old held self.new held) }
    {
        self.pass(uses_of(value))?;
        Ok(())
    }

    fn input(
        &mut self,
        text: &Text,
        holders: &Holders,
        end: u32,
        variable: u32,
    ) -> Result<Holders, AllocError>
        ensures { IfOk result (λ h.
            WalksStatement text.now (get variable) end self.old holders.now.of.items self.new h.of.items) }
    {
        let next = self.bind(text, holders, end, &[variable], Wish::Any)?;
        Ok(next)
    }

    fn result_of(
        &mut self,
        text: &Text,
        holders: &Holders,
        end: u32,
        proc: u32,
        site: u32,
        given: &[Operand],
        targets: &[u32],
    ) -> Result<Holders, AllocError>
        ensures { IfOk result (λ h.
            WalksStatement text.now (call proc site given.now targets.now) end self.old holders.now.of.items
            self.new h.of.items) }
    {
        self.pass_operands(given)?;
        let next = self.call(text, holders, end, site, proc, targets)?;
        Ok(next)
    }

    /// Goes through a block that ends at `end`. `AllocError` where memory is wanting.
    #[cycle(registers)]
    fn block(
        &mut self,
        text: &Text,
        block: &LowBlock,
        holders: Holders,
        end: u32,
        first: &mut GivenFirst,
    ) -> Result<(), AllocError>
        ensures { OnOk result (WalksBlock text.now (code_of block.now) end self.old holders.of.items
            self.new) }
    {
        let mut holders = holders;
        for stmt in block.stmts.as_slice() {
            holders = self.stmt(text, stmt, holders, end)?;
        }
        self.end(text, &block.last, holders, end, first)?;
        Ok(())
    }

    #[cycle(registers)]
    fn stmt(
        &mut self,
        text: &Text,
        stmt: &LowStmt,
        holders: Holders,
        end: u32,
    ) -> Result<Holders, AllocError>
        ensures { IfOk result (λ h.
            WalksStatement text.now (before_of stmt.now) end self.old holders.of.items self.new h.of.items) }
    {
        match stmt {
            LowStmt::Set(x, a) => self.set(text, &holders, end, *x, a),
            LowStmt::Prim(op, x, a, b) => self.prim(text, &holders, end, *op, *x, a, b),
            LowStmt::Load(x, a, index) => self.load(text, &holders, end, *x, a, *index),
            LowStmt::Save(a, index, b) => {
                self.store(a, *index, b)?;
                Ok(holders)
            }
            LowStmt::Take(xs) => self.take(text, &holders, end, xs.as_slice()),
            LowStmt::Put(a) => {
                self.output(a)?;
                Ok(holders)
            }
            LowStmt::Get(x) => self.input(text, &holders, end, *x),
            LowStmt::Call(proc, site, given, xs) => {
                self.result_of(
                    text,
                    &holders,
                    end,
                    *proc,
                    *site,
                    given.as_slice(),
                    xs.as_slice(),
                )
            }
            LowStmt::Join(xs, block) => self.join(text, &holders, end, xs.as_slice(), block),
        }
    }

    #[cycle(registers)]
    fn join(
        &mut self,
        text: &Text,
        holders: &Holders,
        end: u32,
        targets: &[u32],
        block: &LowBlock,
    ) -> Result<Holders, AllocError>
        ensures { IfOk result (λ h.
            WalksStatement text.now (join targets.now (code_of block.now)) end self.old holders.now.of.items
            self.new h.of.items) }
    {
        let inner_end = self.inner_end(text)?;
        let entering = holders.entering(self.alloc, &text.uses, inner_end, end)?;
        let mut first = GivenFirst::new(self.alloc);
        self.block(text, block, entering, inner_end, &mut first)?;
        let next = self.bind(text, holders, end, targets, first.wish())?;
        Ok(next)
    }

    #[cycle(registers)]
    fn end(
        &mut self,
        text: &Text,
        last: &LowEnd,
        holders: Holders,
        end: u32,
        first: &mut GivenFirst,
    ) -> Result<(), AllocError>
        ensures { OnOk result (WalksBlock text.now (end_of last.now) end self.old holders.of.items
            self.new) }
    {
        match last {
            LowEnd::Give(given) => {
                let words = given.as_slice();
                first.note(&holders, words)?;
                self.last_give(words)?;
            }
            LowEnd::Tail(proc, site, given) => self.last_call(*proc, *site, given.as_slice())?,
            LowEnd::Choose(arms, block) => {
                self.arms(text, arms.as_slice(), &holders, first)?;
                self.block(text, block, holders, end, first)?;
            }
            LowEnd::Fail => {}
        }
        Ok(())
    }

    fn last_give(&mut self, given: &[Operand]) -> Result<(), AllocError>
        ensures { OnOk result ((text : Text) (end : ℕ) (held : List (Option Holder))
            → WalksBlock text (give given.now) end self.old held self.new) }
    {
        self.pass_operands(given)?;
        Ok(())
    }

    fn last_call(&mut self, proc: u32, site: u32, given: &[Operand]) -> Result<(), AllocError>
        ensures { OnOk result ((text : Text) (end : ℕ) (held : List (Option Holder))
            → WalksBlock text (tail proc site given.now) end self.old held self.new) }
    {
        self.pass_operands(given)?;
        self.tail(site, proc)?;
        Ok(())
    }

    /// Notes a tail call, after which nothing is live.
    fn tail(&mut self, site: u32, proc: u32) -> Result<(), AllocError>
        ensures call { OnOk result ((k : CallSite)
            × ((self.new.calls.items ≡ self.old.calls.items ++ (k ∷ []))
            × ((k.site ≡ site) × ((k.proc ≡ proc) × (k.live ≡ []))))) }
        ensures text { OnOk result (SameText self.old self.new) }
        ensures stays { OnOk result (SamePlaces self.old self.new) }
    {
        self.calls.push(CallSite {
            site,
            proc,
            live: Seq::new(self.alloc),
        })?;
        Ok(())
    }

    #[cycle(registers)]
    fn arms(
        &mut self,
        text: &Text,
        arms: &[LowArm],
        holders: &Holders,
        first: &mut GivenFirst,
    ) -> Result<(), AllocError>
        ensures { OnOk result ((end : ℕ)
            → WalksStatement text.now (λ c. choose (arms_before (map arm_of arms.now) c)) end self.old
            holders.now.of.items self.new holders.now.of.items) }
    {
        for arm in arms {
            self.arm(text, arm, holders, first)?;
        }
        Ok(())
    }

    #[cycle(registers)]
    fn arm(
        &mut self,
        text: &Text,
        arm: &LowArm,
        holders: &Holders,
        first: &mut GivenFirst,
    ) -> Result<(), AllocError>
        ensures { OnOk result (WalksArm text.now arm.now.tests (code_of arm.now.block) self.old
            holders.now.of.items self.new) }
    {
        self.pass_tests(arm.tests.as_slice())?;
        let end = self.inner_end(text)?;
        let copy = holders.copied(self.alloc)?;
        self.block(text, &arm.block, copy, end, first)?;
        Ok(())
    }
}

/// Gives each variable of a procedure its place.
pub fn walked(alloc: Global, proc: &LowProc) -> Result<Registers, AllocError>
    ensures { IfOk result (WalksProcedure (procedure_of proc.now)) }
{
    let mut scan = Scan::new(alloc);
    scan.block(&proc.body)?;
    let end = crate::scan::number(scan.used.len())?;
    let uses = Uses::new(alloc, scan.used.as_slice())?;
    let hints = Hints::of_body(alloc, &proc.body)?;
    let text = Text {
        uses,
        sizes: scan.sizes,
        hints,
    };
    let mut walk = Registers::new(alloc);
    let mut holders = Holders::none(alloc)?;
    walk.give_all(
        &text,
        &mut holders,
        proc.params.as_slice(),
        Wish::arguments(),
    )?;
    let mut first = GivenFirst::new(alloc);
    walk.block(&text, &proc.body, holders, end, &mut first)?;
    Ok(walk)
}
