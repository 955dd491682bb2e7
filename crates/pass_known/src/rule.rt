// What becomes of the pieces of a program.
#![tactic(auto, using(grin_syntax::proofs::TreeOf::tree_of), unfolding(grin_rewrite::specs::WithFacts::walk_act))]

ghost use Rattle.std.specs.Prelude.{◌≡◌, map, length, IfOk};
ghost use Rattle.grin_syntax.specs.Tree.{arm_of, arms_of};
ghost use Rattle.pass_ground.specs.OpenUpdates.{tag_variable};
ghost use Rattle.grin_rewrite.specs.Table.{facts_of, AppendsFacts};
ghost use Rattle.grin_rewrite.proofs.Tables.{adds_none, adds_again};
ghost use Rattle.case_simplify.specs.Known.{Facts};
ghost use Rattle.pass_known.specs.Needed.{needed_arms, tags_at};
ghost use Rattle.pass_known.specs.Telling.{known_solution};
ghost use Rattle.pass_known.specs.Known.{literals_for_known};

use crate::needed::{is_arm_needed, left_after, tags_at};
use crate::told::Told;
use case_simplify::{Known, note_pattern, note_statement};
use grin_rewrite::{FactRule, FactTable};
use grin_syntax::{Alt, Cell, Op, Shape, Target, Val};
use seq::Seq;
use std::alloc::{AllocError, Global};

impl FactRule for Told<'_> {
    type Facts = FactTable<Known>;

    ghost Known = { Facts };

    ghost known = { facts_of };

    ghost rule = { λ told. literals_for_known told.count (known_solution told) };

    ghost extends = { AppendsFacts };

    ghost mark_of = { λ fs. length fs };

    fn leaf(&self, alloc: Global, facts: &FactTable<Known>, op: Op) -> Result<Op, AllocError> {
        match op {
            Op::Unit(v) => Ok(Op::Unit(self.val(alloc, facts, v)?)),
            Op::Fetch(w) => Ok(Op::Fetch(self.word(alloc, facts, w)?)),
            Op::FetchWord(w, i) => Ok(Op::FetchWord(self.word(alloc, facts, w)?, i)),
            Op::Update(w, v) => Ok(Op::Update(
                self.word(alloc, facts, w)?,
                self.val(alloc, facts, v)?,
            )),
            Op::Eval(w) => Ok(Op::Eval(self.word(alloc, facts, w)?)),
            Op::Apply(v, w) => Ok(Op::Apply(
                self.val(alloc, facts, v)?,
                self.word(alloc, facts, w)?,
            )),
            Op::Call(f, words) => Ok(Op::Call(f, self.words(alloc, facts, words.as_slice())?)),
            Op::Prim(p, a, b) => Ok(Op::Prim(
                p,
                self.word(alloc, facts, a)?,
                self.word(alloc, facts, b)?,
            )),
            Op::Read => Ok(Op::Read),
            Op::Write(w) => Ok(Op::Write(self.word(alloc, facts, w)?)),
            Op::Case(v, alts) => Ok(Op::Case(v, alts)),
            Op::Nested(block) => Ok(Op::Nested(block)),
            Op::Fail => Ok(Op::Fail),
        }
    }

    fn value(
        &self,
        alloc: Global,
        facts: &FactTable<Known>,
        value: Val,
    ) -> Result<Val, AllocError> {
        let made = self.val(alloc, facts, value)?;
        Ok(made)
    }

    fn cells(
        &self,
        alloc: Global,
        facts: &FactTable<Known>,
        cells: Seq<Cell>,
    ) -> Result<Seq<Cell>, AllocError> {
        let made = self.known_cells(alloc, facts, cells)?;
        Ok(made)
    }

    fn case(
        &self,
        alloc: Global,
        _: &FactTable<Known>,
        value: Val,
        alts: Seq<Alt>,
    ) -> Result<Op, AllocError> {
        let needed = needed_alts(alloc, self, &value, alts)?;
        Ok(Op::Case(value, needed))
    }

    fn note(
        &self,
        facts: &mut FactTable<Known>,
        target: &Target,
        op: &Op,
    ) -> Result<(), AllocError> {
        note_statement(facts, target, op)?;
        Ok(())
    }

    fn enter(
        &self,
        facts: &mut FactTable<Known>,
        value: &Val,
        pattern: &Shape,
    ) -> Result<(), AllocError> {
        note_pattern(facts, value, pattern)?;
        Ok(())
    }

    fn mark(&self, facts: &FactTable<Known>) -> usize {
        facts.count()
    }

    fn forget(&self, facts: &mut FactTable<Known>, mark: usize) {
        facts.keep(mark)
    }

    ghost same = { adds_none };

    ghost further = { adds_again };
}

// The alternatives of a case on `v`, but those that no run takes.
fn needed_alts(alloc: Global, told: &Told, v: &Val, alts: Seq<Alt>) -> Result<Seq<Alt>, AllocError>
    ensures { IfOk result (λ made. arms_of (map arm_of made) ≡ needed_arms (tags_at told.now.count
        (known_solution told.now) (tag_variable v.now)) (arms_of (map arm_of alts))) }
{
    let mut left = tags_at(alloc, told, v)?;
    let mut made = Seq::new(alloc);
    for alt in alts.into_vec() {
        if !is_arm_needed(&left, &alt.pattern) {
            continue;
        }
        left = left_after(alloc, &left, &alt.pattern)?;
        made.push(alt)?;
    }
    Ok(made)
}
