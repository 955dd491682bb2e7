// What becomes of the pieces of a program: cases alone change, wherever they stand.
#![tactic(auto)]

ghost use Rattle.pass_order.specs.Order.{ordering};

use crate::order::Order;
use grin_rewrite::FactRule;
use grin_syntax::{Alt, Cell, Op, Shape, Target, Val};
use seq::Seq;
use std::alloc::{AllocError, Global};

impl FactRule for Order {
    type Facts = ();

    ghost Known = { Unit {0} };

    ghost known = { λ _. tt };

    ghost rule = { λ order. ordering order.delayed };

    ghost extends = { λ _ _. Unit {0} };

    ghost mark_of = { λ _. 0 };

    fn leaf(&self, _: Global, _: &(), op: Op) -> Result<Op, AllocError> {
        Ok(op)
    }

    fn value(&self, _: Global, _: &(), value: Val) -> Result<Val, AllocError> {
        Ok(value)
    }

    fn cells(&self, _: Global, _: &(), cells: Seq<Cell>) -> Result<Seq<Cell>, AllocError> {
        Ok(cells)
    }

    fn case(&self, alloc: Global, _: &(), value: Val, alts: Seq<Alt>) -> Result<Op, AllocError> {
        Ok(Op::Case(value, self.values_first(alloc, alts)?))
    }

    fn note(&self, _: &mut (), _: &Target, _: &Op) -> Result<(), AllocError> {
        Ok(())
    }

    fn enter(&self, _: &mut (), _: &Val, _: &Shape) -> Result<(), AllocError> {
        Ok(())
    }

    fn mark(&self, _: &()) -> usize {
        0
    }

    fn forget(&self, _: &mut (), _: usize) {}

    ghost same = { λ _. tt };

    ghost further = { λ _ _ _ _ _. tt };
}
