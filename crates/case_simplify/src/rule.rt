// What becomes of the pieces of a program.
#![tactic(auto)]

ghost use Rattle.std.specs.Prelude.{length};
ghost use Rattle.grin_rewrite.specs.Table.{facts_of, AppendsFacts};
ghost use Rattle.grin_rewrite.proofs.Tables.{adds_none, adds_again};
ghost use Rattle.case_simplify.specs.Known.{Facts};
ghost use Rattle.case_simplify.specs.Simple.{simplifying};

use crate::blocks::simple_case;
use crate::known::{Known, note_pattern, note_statement};
use crate::pass::Simplify;
use grin_rewrite::{FactRule, FactTable};
use grin_syntax::{Alt, Cell, Op, Shape, Target, Val};
use seq::Seq;
use std::alloc::{AllocError, Global};

impl FactRule for Simplify {
    type Facts = FactTable<Known>;

    ghost Known = { Facts };

    ghost known = { facts_of };

    ghost rule = { λ _. simplifying };

    ghost extends = { AppendsFacts };

    ghost mark_of = { λ fs. length fs };

    fn leaf(&self, _: Global, _: &FactTable<Known>, op: Op) -> Result<Op, AllocError> {
        Ok(op)
    }

    fn value(&self, _: Global, _: &FactTable<Known>, value: Val) -> Result<Val, AllocError> {
        Ok(value)
    }

    fn cells(
        &self,
        _: Global,
        _: &FactTable<Known>,
        cells: Seq<Cell>,
    ) -> Result<Seq<Cell>, AllocError> {
        Ok(cells)
    }

    fn case(
        &self,
        alloc: Global,
        facts: &FactTable<Known>,
        value: Val,
        alts: Seq<Alt>,
    ) -> Result<Op, AllocError> {
        let case = simple_case(alloc, facts, value, alts)?;
        Ok(case)
    }

    fn note(
        &self,
        facts: &mut FactTable<Known>,
        target: &Target,
        op: &Op,
    ) -> Result<(), AllocError> {
        note_statement(facts, target, op)?;
        Ok(())
    }

    fn enter(
        &self,
        facts: &mut FactTable<Known>,
        value: &Val,
        pattern: &Shape,
    ) -> Result<(), AllocError> {
        note_pattern(facts, value, pattern)?;
        Ok(())
    }

    fn mark(&self, facts: &FactTable<Known>) -> usize {
        facts.count()
    }

    fn forget(&self, facts: &mut FactTable<Known>, mark: usize) {
        facts.keep(mark)
    }

    ghost same = { adds_none };

    ghost further = { adds_again };
}
