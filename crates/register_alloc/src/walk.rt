// The variables that a block binds, in the order of the text.
#![tactic(auto, using(low_code::proofs::TreeOf::tree_of, crate::proofs::Walked::nothing_more, crate::proofs::Walked::in_front, crate::proofs::Walked::grouped))]

ghost use Rattle.std.specs.Prelude.{◌≡◌, ◌++◌, ◌∷◌, [], OnOk, map};
ghost use Rattle.low_code.specs.Tree.{Code, before_of, end_of, code_of, arm_of, arms_before};
ghost use Rattle.low_code.specs.Formed.{binds, arms_binds};

use low_code::{LowArm, LowBlock, LowEnd, LowStmt};
use std::alloc::{AllocError, Global};

/// What a block binds.
#[derive(Drop)]
pub struct BindingWalk {
    pub variables: Vec<u32>,
}

impl BindingWalk {
    /// Nothing yet.
    pub fn new(alloc: Global) -> BindingWalk
        ensures { result.variables.items ≡ [] }
    {
        BindingWalk {
            variables: Vec::new(alloc),
        }
    }

    /// Binds more variables.
    pub fn bind(&mut self, variables: &[u32]) -> Result<(), AllocError>
        ensures { OnOk result (self.new.variables.items ≡ self.old.variables.items
            ++ variables.now) }
    {
        self.variables.extend_from_slice(variables)?;
        Ok(())
    }

    fn bind_one(&mut self, variable: u32) -> Result<(), AllocError>
        ensures { OnOk result (self.new.variables.items ≡ self.old.variables.items
            ++ (variable ∷ [])) }
    {
        self.variables.push(variable)?;
        Ok(())
    }

    /// Goes through a block, by its text. `AllocError` where memory is wanting.
    #[cycle(walk)]
    pub fn block(&mut self, block: &LowBlock) -> Result<(), AllocError>
        ensures { OnOk result (self.new.variables.items ≡ self.old.variables.items
            ++ binds (code_of block.now)) }
    {
        for stmt in block.stmts.as_slice() {
            self.stmt(stmt)?;
        }
        self.end(&block.last)?;
        Ok(())
    }

    #[cycle(walk)]
    fn stmt(&mut self, stmt: &LowStmt) -> Result<(), AllocError>
        ensures { OnOk result ((c : Code) → self.old.variables.items
            ++ binds (before_of stmt.now c) ≡ self.new.variables.items ++ binds c) }
    {
        match stmt {
            LowStmt::Set(x, _) => self.bind_one(*x)?,
            LowStmt::Prim(_, x, _, _) => self.bind_one(*x)?,
            LowStmt::Load(x, _, _) => self.bind_one(*x)?,
            LowStmt::Save(_, _, _) => {}
            LowStmt::Take(xs) => self.bind(xs.as_slice())?,
            LowStmt::Put(_) => {}
            LowStmt::Get(x) => self.bind_one(*x)?,
            LowStmt::Call(_, _, _, xs) => self.bind(xs.as_slice())?,
            LowStmt::Join(xs, block) => {
                self.block(block)?;
                self.bind(xs.as_slice())?;
            }
        }
        Ok(())
    }

    #[cycle(walk)]
    fn end(&mut self, end: &LowEnd) -> Result<(), AllocError>
        ensures { OnOk result (self.new.variables.items ≡ self.old.variables.items
            ++ binds (end_of end.now)) }
    {
        match end {
            LowEnd::Give(_) => Ok(()),
            LowEnd::Tail(_, _, _) => Ok(()),
            LowEnd::Choose(arms, block) => {
                self.arms(arms.as_slice())?;
                self.block(block)
            }
            LowEnd::Fail => Ok(()),
        }
    }

    #[cycle(walk)]
    fn arms(&mut self, arms: &[LowArm]) -> Result<(), AllocError>
        ensures { OnOk result ((c : Code) → self.old.variables.items
            ++ arms_binds (arms_before (map arm_of arms.now) c) ≡ self.new.variables.items
            ++ binds c) }
    {
        for arm in arms {
            self.block(&arm.block)?;
        }
        Ok(())
    }
}
