// What is known of a variable's later uses that tells where it would best stand. No clause depends
// on it.
#![tactic(auto)]

use crate::wish::{Among, Wish};
use low_code::{LowArm, LowBlock, LowEnd, LowStmt, LowTest, Operand};
use std::alloc::{AllocError, Global};
use std::collections::BTreeMap;

/// The last use of a variable: its place among the arguments of a call or the words that a block
/// gives, where it is one of them; where it goes to a target of a join, this target and how many
/// there are; and the most calls before one of its uses.
#[derive(Clone, Copy, Debug, PartialEq, Eq)]
struct LastUse {
    argument: Option<usize>,
    target: Option<u32>,
    many: usize,
    calls: u32,
}

/// Where a variable would best stand: in which register, numbered from x8 on, if in one; whether it
/// stays across a call; and its place among the words that go to the targets of a join.
#[derive(Clone, Copy, Debug, PartialEq, Eq)]
pub struct Hint {
    pub register: Option<usize>,
    pub stays: bool,
    pub among: Option<Among>,
}

/// The last uses of the variables of a procedure, and how many calls come before each is bound, and
/// before the place that is gone through, on the way that has the most.
#[derive(Drop)]
pub struct Hints {
    last: BTreeMap<u32, LastUse>,
    bound: BTreeMap<u32, u32>,
    calls: u32,
}

impl Hints {
    /// Those of a procedure with this body. `AllocError` where memory is wanting.
    pub fn of_body(alloc: Global, body: &LowBlock) -> Result<Hints, AllocError> {
        let mut hints = Hints {
            last: BTreeMap::new(alloc),
            bound: BTreeMap::new(alloc),
            calls: 0,
        };
        hints.block(body, &[])?;
        Ok(hints)
    }

    /// What is known of a variable.
    pub fn of(&self, variable: u32) -> Hint {
        let last = self.last_use(variable);
        Hint {
            register: Wish::arguments().at_place(argument_of(last)),
            stays: self.stays(variable),
            among: self.among(last),
        }
    }

    fn last_use(&self, variable: u32) -> Option<LastUse> {
        match self.last.get(&variable) {
            Some(last) => Some(*last),
            None => None,
        }
    }

    /// Whether a call comes between where a variable is bound and a use.
    fn stays(&self, variable: u32) -> bool {
        self.calls_before(variable) < calls_of(self.last_use(variable))
    }

    /// The place among the words that go to the targets of a join, apart from the registers of most
    /// others where the target stays across a call.
    fn among(&self, last: Option<LastUse>) -> Option<Among> {
        let Some(target) = target_of(last) else {
            return None;
        };
        match among_of(last) {
            Some(among) => {
                if self.stays(target) {
                    Some(among.apart())
                } else {
                    Some(among)
                }
            }
            None => None,
        }
    }

    fn calls_before(&self, variable: u32) -> u32 {
        match self.bound.get(&variable) {
            Some(calls) => *calls,
            None => 0,
        }
    }

    fn operand(&mut self, operand: &Operand, last: LastUse) -> Result<(), AllocError> {
        match operand {
            Operand::Var(x) => {
                let calls = calls_of(self.last_use(*x)).max(self.calls);
                self.last.insert(*x, LastUse { calls, ..last })?;
                Ok(())
            }
            Operand::Num(_) => Ok(()),
            Operand::Cell(_) => Ok(()),
        }
    }

    fn single(&mut self, operand: &Operand) -> Result<(), AllocError> {
        self.operand(
            operand,
            LastUse {
                argument: None,
                target: None,
                many: 0,
                calls: 0,
            },
        )
    }

    /// Words that go to the targets of a join, or to none.
    fn words(&mut self, operands: &[Operand], targets: &[u32]) -> Result<(), AllocError> {
        for (place, operand) in operands.iter().enumerate() {
            self.operand(
                operand,
                LastUse {
                    argument: Some(place),
                    target: target_at(targets, place),
                    many: targets.len(),
                    calls: 0,
                },
            )?;
        }
        Ok(())
    }

    fn tests(&mut self, tests: &[LowTest]) -> Result<(), AllocError> {
        for test in tests {
            self.single(&test.left)?;
        }
        Ok(())
    }

    fn bind(&mut self, variable: u32) -> Result<(), AllocError> {
        self.bound.insert(variable, self.calls)?;
        Ok(())
    }

    fn bind_all(&mut self, variables: &[u32]) -> Result<(), AllocError> {
        for variable in variables {
            self.bind(*variable)?;
        }
        Ok(())
    }

    fn call(&mut self, given: &[Operand], targets: &[u32]) -> Result<(), AllocError> {
        self.words(given, &[])?;
        self.calls = self.calls.saturating_add(1);
        self.bind_all(targets)
    }

    /// Goes through a block whose words go to these targets. How many calls come before, at the end
    /// that has the most.
    #[cycle(hints)]
    fn block(&mut self, block: &LowBlock, targets: &[u32]) -> Result<u32, AllocError> {
        for stmt in block.stmts.as_slice() {
            self.stmt(stmt)?;
        }
        self.end(&block.last, targets)
    }

    #[cycle(hints)]
    fn stmt(&mut self, stmt: &LowStmt) -> Result<(), AllocError> {
        match stmt {
            LowStmt::Set(x, a) => {
                self.single(a)?;
                self.bind(*x)
            }
            LowStmt::Prim(_, x, a, b) => {
                self.single(a)?;
                self.single(b)?;
                self.bind(*x)
            }
            LowStmt::Load(x, a, _) => {
                self.single(a)?;
                self.bind(*x)
            }
            LowStmt::Save(a, _, b) => {
                self.single(a)?;
                self.single(b)
            }
            LowStmt::Take(xs) => self.bind_all(xs.as_slice()),
            LowStmt::Put(a) => self.single(a),
            LowStmt::Get(x) => self.bind(*x),
            LowStmt::Call(_, _, given, xs) => self.call(given.as_slice(), xs.as_slice()),
            LowStmt::Join(targets, block) => {
                self.calls = self.block(block, targets.as_slice())?;
                self.bind_all(targets.as_slice())
            }
        }
    }

    #[cycle(hints)]
    fn end(&mut self, end: &LowEnd, targets: &[u32]) -> Result<u32, AllocError> {
        match end {
            LowEnd::Give(given) => {
                self.words(given.as_slice(), targets)?;
                Ok(self.calls)
            }
            LowEnd::Tail(_, _, given) => {
                self.words(given.as_slice(), &[])?;
                Ok(0)
            }
            LowEnd::Choose(arms, block) => {
                let before = self.calls;
                let most = self.arms(arms.as_slice(), targets)?;
                self.calls = before;
                let other = self.block(block, targets)?;
                Ok(other.max(most))
            }
            LowEnd::Fail => Ok(0),
        }
    }

    #[cycle(hints)]
    fn arms(&mut self, arms: &[LowArm], targets: &[u32]) -> Result<u32, AllocError> {
        let before = self.calls;
        let mut most = 0;
        for arm in arms {
            self.calls = before;
            self.tests(arm.tests.as_slice())?;
            let calls = self.block(&arm.block, targets)?;
            most = calls.max(most);
        }
        Ok(most)
    }
}

fn argument_of(last: Option<LastUse>) -> Option<usize> {
    match last {
        Some(last) => last.argument,
        None => None,
    }
}

fn calls_of(last: Option<LastUse>) -> u32 {
    match last {
        Some(last) => last.calls,
        None => 0,
    }
}

fn target_of(last: Option<LastUse>) -> Option<u32> {
    match last {
        Some(last) => last.target,
        None => None,
    }
}

fn among_of(last: Option<LastUse>) -> Option<Among> {
    match last {
        Some(last) => Some(Among {
            place: last.argument.unwrap_or(0),
            many: last.many,
        }),
        None => None,
    }
}

fn target_at(targets: &[u32], place: usize) -> Option<u32> {
    match targets.get(place) {
        Some(target) => Some(*target),
        None => None,
    }
}
