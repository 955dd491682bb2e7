//! Low code as text.

use low_code::{Low, LowArm, LowBlock, LowEnd, LowProc, LowStmt, Operand};
use std::alloc::{AllocError, Global};
use std::fmt::Write;

/// A text of low code. Variables are numbered anew in each procedure, and sites of calls in the
/// whole program, in the order in which they stand.
#[derive(Drop)]
struct Listing {
    text: String,
    known_variables: Vec<u32>,
    known_sites: Vec<u32>,
}

/// The place of a number among those before it; it is the last of them where it is new.
fn place(numbers: &mut Vec<u32>, number: u32) -> Result<usize, AllocError> {
    if let Some(i) = numbers.iter().position(|known| *known == number) {
        return Ok(i);
    }
    let next = numbers.len();
    numbers.push(number)?;
    Ok(next)
}

impl Listing {
    fn number(&mut self, before: &str, number: u32) -> Result<(), AllocError> {
        write!(self.text, "{before}{number}")?;
        Ok(())
    }

    fn variable(&mut self, x: u32) -> Result<(), AllocError> {
        let i = place(&mut self.known_variables, x)?;
        write!(self.text, " v{i}")?;
        Ok(())
    }

    fn variables(&mut self, xs: &[u32]) -> Result<(), AllocError> {
        for x in xs {
            self.variable(*x)?;
        }
        Ok(())
    }

    fn operand(&mut self, a: Operand) -> Result<(), AllocError> {
        match a {
            Operand::Var(x) => self.variable(x),
            Operand::Num(k) => self.number(" ", k),
            Operand::Cell(i) => self.number(" @", i),
        }
    }

    fn operands(&mut self, operands: &[Operand]) -> Result<(), AllocError> {
        for a in operands {
            self.operand(*a)?;
        }
        Ok(())
    }

    /// A call of a procedure at a site.
    fn called(
        &mut self,
        how: &str,
        f: u32,
        site: u32,
        operands: &[Operand],
    ) -> Result<(), AllocError> {
        let i = place(&mut self.known_sites, site)?;
        write!(self.text, "{how} {f} at s{i} with")?;
        self.operands(operands)
    }

    #[cycle(listing)]
    fn statement(&mut self, stmt: &LowStmt) -> Result<(), AllocError> {
        match stmt {
            LowStmt::Set(x, a) => {
                self.text.push_str("set")?;
                self.variable(*x)?;
                self.operand(*a)?;
            }
            LowStmt::Prim(op, x, a, b) => {
                write!(self.text, "prim {op:?}")?;
                self.variable(*x)?;
                self.operands(&[*a, *b])?;
            }
            LowStmt::Load(x, cell, i) => {
                self.text.push_str("load")?;
                self.variable(*x)?;
                self.operand(*cell)?;
                self.number(" ", *i)?;
            }
            LowStmt::Save(cell, i, a) => {
                self.text.push_str("save")?;
                self.operand(*cell)?;
                self.number(" ", *i)?;
                self.operand(*a)?;
            }
            LowStmt::Take(xs) => {
                self.text.push_str("take")?;
                self.variables(xs.as_slice())?;
            }
            LowStmt::Put(a) => {
                self.text.push_str("put")?;
                self.operand(*a)?;
            }
            LowStmt::Get(x) => {
                self.text.push_str("get")?;
                self.variable(*x)?;
            }
            LowStmt::Call(f, site, operands, xs) => {
                self.called("call", *f, *site, operands.as_slice())?;
                self.text.push_str(" to")?;
                self.variables(xs.as_slice())?;
            }
            LowStmt::Join(xs, block) => {
                self.text.push_str("join")?;
                self.variables(xs.as_slice())?;
                self.text.push_str("\n")?;
                self.block(block)?;
                self.text.push_str("joined")?;
            }
        }
        self.text.push_str("\n")?;
        Ok(())
    }

    #[cycle(listing)]
    fn end(&mut self, end: &LowEnd) -> Result<(), AllocError> {
        match end {
            LowEnd::Give(operands) => {
                self.text.push_str("give")?;
                self.operands(operands.as_slice())?;
                self.text.push_str("\n")?;
            }
            LowEnd::Tail(f, site, operands) => {
                self.called("tail", *f, *site, operands.as_slice())?;
                self.text.push_str("\n")?;
            }
            LowEnd::Choose(arms, block) => {
                for arm in arms.as_slice() {
                    self.arm(arm)?;
                }
                self.text.push_str("else\n")?;
                self.block(block)?;
            }
            LowEnd::Fail => self.text.push_str("fail\n")?,
        }
        Ok(())
    }

    #[cycle(listing)]
    fn arm(&mut self, arm: &LowArm) -> Result<(), AllocError> {
        self.text.push_str("when")?;
        for test in arm.tests.as_slice() {
            self.operand(test.left)?;
            self.number(" = ", test.right)?;
        }
        self.text.push_str("\n")?;
        self.block(&arm.block)
    }

    #[cycle(listing)]
    fn block(&mut self, block: &LowBlock) -> Result<(), AllocError> {
        for stmt in block.stmts.as_slice() {
            self.statement(stmt)?;
        }
        self.end(&block.last)
    }

    fn procedure(&mut self, proc: &LowProc) -> Result<(), AllocError> {
        self.known_variables.clear();
        self.text.push_str("proc")?;
        self.variables(proc.params.as_slice())?;
        self.number(" gives ", proc.results)?;
        self.text.push_str("\n")?;
        self.block(&proc.body)
    }
}

/// The text of the procedures of low code.
pub(crate) fn listed(alloc: Global, low: &Low) -> Result<String, AllocError> {
    let mut listing = Listing {
        text: String::new(alloc),
        known_variables: Vec::new(alloc),
        known_sites: Vec::new(alloc),
    };
    for proc in low.procs.as_slice() {
        listing.procedure(proc)?;
    }
    Ok(listing.text)
}
