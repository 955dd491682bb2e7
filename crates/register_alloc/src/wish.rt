// Where variables would best stand. No clause depends on a wish: where the register is held,
// another one is taken.
#![tactic(auto)]

use crate::holders::Holders;
use low_code::Operand;
use std::alloc::{AllocError, Global};

/// Arguments and results stand in x10 and up: its number from x8 on.
const FIRST_ARGUMENT: usize = 2;

/// A place among so many words that go to registers at once.
#[derive(Clone, Copy, Debug, PartialEq, Eq)]
pub struct Among {
    pub place: usize,
    pub many: usize,
}

impl Among {
    /// Where a variable stands alone.
    pub fn none() -> Among {
        Among { place: 0, many: 0 }
    }

    /// A place behind those of all these words, and of two more.
    pub fn apart(&self) -> Among {
        Among {
            place: self.place.max(FIRST_ARGUMENT),
            many: self.many.saturating_add(2),
        }
    }

    /// A register past those in which the words would stand, where this one isn't before them.
    pub fn beside(&self, register: usize) -> usize {
        if register < FIRST_ARGUMENT {
            register
        } else {
            register.saturating_add(self.many)
        }
    }
}

/// The registers, numbered from x8 on, in which variables that are bound at one point would best
/// stand.
#[derive(Clone, Copy)]
pub enum Wish<'a> {
    /// Any.
    Any,
    /// The first variable in this register, and each other one in the register that follows.
    From(usize),
    /// As its later uses wish, and where they wish none or one that is held, in this register.
    Otherwise(usize),
    /// Each in its own, and where there is none as an argument.
    Each(&'a [Option<usize>]),
}

impl<'a> Wish<'a> {
    /// As arguments and results do.
    pub fn arguments() -> Wish<'a> {
        Wish::From(FIRST_ARGUMENT)
    }

    /// The register that the variable at this place of a list is wished in.
    pub fn at(&self, index: usize) -> Option<usize> {
        match self {
            Wish::Any => None,
            Wish::Otherwise(_) => None,
            Wish::From(first) => first.checked_add(index),
            Wish::Each(registers) => each_at(registers, index),
        }
    }

    /// The register that is wished where later uses have none.
    pub fn otherwise(&self) -> Option<usize> {
        match self {
            Wish::Any => None,
            Wish::Otherwise(register) => Some(*register),
            Wish::From(_) => None,
            Wish::Each(_) => None,
        }
    }

    /// The place in a list of which each word has a register of its own.
    pub fn among(&self, index: usize) -> Among {
        match self {
            Wish::Any => Among::none(),
            Wish::Otherwise(_) => Among::none(),
            Wish::From(_) => Among::none(),
            Wish::Each(registers) => Among {
                place: index,
                many: registers.len(),
            },
        }
    }

    /// The same at a place that may not be there.
    pub fn at_place(&self, place: Option<usize>) -> Option<usize> {
        match place {
            Some(index) => self.at(index),
            None => None,
        }
    }
}

fn each_at(registers: &[Option<usize>], index: usize) -> Option<usize> {
    match registers.get(index) {
        Some(Some(register)) => Some(*register),
        Some(None) => FIRST_ARGUMENT.checked_add(index),
        None => FIRST_ARGUMENT.checked_add(index),
    }
}

/// The register of the variable of an operand, if it holds one, as a wish.
pub fn wish_where_held(holders: &Holders, operand: &Operand) -> Wish<'static> {
    match held_by(holders, operand) {
        Some(register) => Wish::From(register),
        None => Wish::Any,
    }
}

/// The same, behind what later uses wish.
pub fn else_where_held(holders: &Holders, operand: &Operand) -> Wish<'static> {
    match held_by(holders, operand) {
        Some(register) => Wish::Otherwise(register),
        None => Wish::Any,
    }
}

fn held_by(holders: &Holders, operand: &Operand) -> Option<usize> {
    match operand {
        Operand::Var(x) => holders.register_of(*x),
        Operand::Num(_) => None,
        Operand::Cell(_) => None,
    }
}

/// The registers of the words that a block gives at the first of its ends that gives any. The
/// targets of a join that stand there need no move at that end.
#[derive(Drop)]
pub struct GivenFirst {
    registers: Vec<Option<usize>>,
}

impl GivenFirst {
    /// No end was met yet.
    pub fn new(alloc: Global) -> GivenFirst {
        GivenFirst {
            registers: Vec::new(alloc),
        }
    }

    /// Notes what an end gives, where none did before.
    pub fn note(&mut self, holders: &Holders, given: &[Operand]) -> Result<(), AllocError> {
        if self.registers.is_empty() {
            for operand in given {
                self.registers.push(held_by(holders, operand))?;
            }
        }
        Ok(())
    }

    /// The wish to stand there.
    pub fn wish(&self) -> Wish<'_> {
        Wish::Each(self.registers.as_slice())
    }
}
