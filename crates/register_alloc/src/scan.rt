// The uses of a procedure in the order of its text, and how many of them stand in each block of a
// join and each arm.

#![tactic(auto, using(low_code::proofs::TreeOf::tree_of, crate::proofs::Walked::nothing_more, crate::proofs::Walked::in_front, crate::proofs::Walked::grouped))]

ghost use Rattle.std.specs.Prelude.{◌≡◌, ◌≤◌, ◌<◌, ◌-◌, ◌++◌, ◌∷◌, [], IfOk, OnOk, map, length, slice_set};
ghost use Rattle.low_code.specs.Tree.{Code, before_of, end_of, code_of, arm_of, arms_before};
ghost use Rattle.low_code.specs.Formed.{used_by, used_by_all, used_by_tests, uses, arms_uses};
ghost use Rattle.register_alloc.specs.Inner.{sizes_of, arms_sizes};

use low_code::{LowArm, LowBlock, LowEnd, LowStmt, LowTest, Operand};
use std::alloc::{AllocError, Global};

/// The variables that are used, in the order of the text, and for each block of a join and each arm
/// but the last one, as they begin, the number of its uses.
#[derive(Drop)]
pub struct Scan {
    pub used: Vec<u32>,
    pub sizes: Vec<u32>,
}

impl Scan {
    /// Nothing yet.
    pub fn new(alloc: Global) -> Scan
        ensures used { result.used.items ≡ [] }
        ensures sizes { result.sizes.items ≡ [] }
    {
        Scan {
            used: Vec::new(alloc),
            sizes: Vec::new(alloc),
        }
    }

    fn operand(&mut self, operand: &Operand) -> Result<(), AllocError>
        ensures used { OnOk result (self.new.used.items ≡ self.old.used.items
            ++ used_by operand.now) }
        ensures sizes { OnOk result (self.new.sizes.items ≡ self.old.sizes.items) }
    {
        match operand {
            Operand::Var(x) => self.used.push(*x)?,
            Operand::Num(_) => {}
            Operand::Cell(_) => {}
        }
        Ok(())
    }

    fn operands(&mut self, operands: &[Operand]) -> Result<(), AllocError>
        ensures used { OnOk result (self.new.used.items ≡ self.old.used.items
            ++ used_by_all operands.now) }
        ensures sizes { OnOk result (self.new.sizes.items ≡ self.old.sizes.items) }
    {
        for operand in operands {
            self.operand(operand)?;
        }
        Ok(())
    }

    fn tests(&mut self, tests: &[LowTest]) -> Result<(), AllocError>
        ensures used { OnOk result (self.new.used.items ≡ self.old.used.items
            ++ used_by_tests tests.now) }
        ensures sizes { OnOk result (self.new.sizes.items ≡ self.old.sizes.items) }
    {
        for test in tests {
            self.operand(&test.left)?;
        }
        Ok(())
    }

    /// Notes that the block whose number is `at` has the uses from position `from` on.
    fn end_of_block(&mut self, at: usize, from: usize) -> Result<(), AllocError>
        requires at { at < length self.old.sizes.items }
        requires from { from ≤ length self.old.used.items }
        ensures used { OnOk result (self.new.used.items ≡ self.old.used.items) }
        ensures sizes { OnOk result (self.new.sizes.items
            ≡ slice_set self.old.sizes.items at (length self.old.used.items - from)) }
    {
        let many = number(self.used.len() - from)?;
        self.sizes[at] = many;
        Ok(())
    }

    /// Goes through a block. `AllocError` where memory is wanting.
    #[cycle(scan)]
    pub fn block(&mut self, block: &LowBlock) -> Result<(), AllocError>
        ensures used { OnOk result (self.new.used.items ≡ self.old.used.items
            ++ uses (code_of block.now)) }
        ensures sizes { OnOk result (self.new.sizes.items ≡ self.old.sizes.items
            ++ sizes_of (code_of block.now)) }
    {
        for stmt in block.stmts.as_slice() {
            self.stmt(stmt)?;
        }
        self.end(&block.last)?;
        Ok(())
    }

    /// Goes through a block of a join or an arm.
    #[cycle(scan)]
    fn inner(&mut self, block: &LowBlock) -> Result<(), AllocError>
        ensures used { OnOk result (self.new.used.items ≡ self.old.used.items
            ++ uses (code_of block.now)) }
        ensures sizes { OnOk result (self.new.sizes.items ≡ self.old.sizes.items
            ++ (length (uses (code_of block.now)) ∷ sizes_of (code_of block.now))) }
    {
        let at = self.sizes.len();
        let from = self.used.len();
        self.sizes.push(0)?;
        self.block(block)?;
        self.end_of_block(at, from)
    }

    #[cycle(scan)]
    fn stmt(&mut self, stmt: &LowStmt) -> Result<(), AllocError>
        ensures used { OnOk result ((c : Code) → self.old.used.items ++ uses (before_of stmt.now c)
            ≡ self.new.used.items ++ uses c) }
        ensures sizes { OnOk result ((c : Code) → self.old.sizes.items
            ++ sizes_of (before_of stmt.now c) ≡ self.new.sizes.items ++ sizes_of c) }
    {
        match stmt {
            LowStmt::Set(_, a) => self.operand(a)?,
            LowStmt::Prim(_, _, a, b) => {
                self.operand(a)?;
                self.operand(b)?;
            }
            LowStmt::Load(_, a, _) => self.operand(a)?,
            LowStmt::Save(a, _, b) => {
                self.operand(a)?;
                self.operand(b)?;
            }
            LowStmt::Take(_) => {}
            LowStmt::Put(a) => self.operand(a)?,
            LowStmt::Get(_) => {}
            LowStmt::Call(_, _, given, _) => self.operands(given.as_slice())?,
            LowStmt::Join(_targets, block) => self.inner(block)?,
        }
        Ok(())
    }

    #[cycle(scan)]
    fn end(&mut self, end: &LowEnd) -> Result<(), AllocError>
        ensures used { OnOk result (self.new.used.items ≡ self.old.used.items
            ++ uses (end_of end.now)) }
        ensures sizes { OnOk result (self.new.sizes.items ≡ self.old.sizes.items
            ++ sizes_of (end_of end.now)) }
    {
        match end {
            LowEnd::Give(given) => self.operands(given.as_slice()),
            LowEnd::Tail(_, _, given) => self.operands(given.as_slice()),
            LowEnd::Choose(arms, block) => {
                self.arms(arms.as_slice())?;
                self.block(block)
            }
            LowEnd::Fail => Ok(()),
        }
    }

    #[cycle(scan)]
    fn arms(&mut self, arms: &[LowArm]) -> Result<(), AllocError>
        ensures used { OnOk result ((c : Code) → self.old.used.items
            ++ arms_uses (arms_before (map arm_of arms.now) c) ≡ self.new.used.items ++ uses c) }
        ensures sizes { OnOk result ((c : Code) → self.old.sizes.items
            ++ arms_sizes (arms_before (map arm_of arms.now) c) ≡ self.new.sizes.items
            ++ sizes_of c) }
    {
        for arm in arms {
            self.tests(arm.tests.as_slice())?;
            self.inner(&arm.block)?;
        }
        Ok(())
    }
}

/// A number of 32 bits; past those there is none, which counts as want of memory.
pub fn number(many: usize) -> Result<u32, AllocError>
    ensures { IfOk result (λ n. n ≡ many) }
{
    match u32::try_from(many) {
        Ok(n) => Ok(n),
        Err(_) => Err(AllocError),
    }
}
