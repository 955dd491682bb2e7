// Statements, arms and blocks.
#![tactic(auto, using(low_code::proofs::TreeOf::tree_of, crate::proofs::Plain::plain_append, crate::proofs::Emitted::emitted), unfolding(crate::specs::Emit::plain))]

ghost use Rattle.std.specs.Prelude.{◌≡◌, ◌++◌, [], ◌∷◌, ◌<◌, ◌+◌, ◌*◌, ◌≤◌, suc, length, map, slice_get, Some, OnOk, IfOk, true, false, if◌then◌else◌};
ghost use Rattle.low_code.specs.Tree.{join, choose, before_of, end_of, code_of, arm_of};
ghost use Rattle.rv32_select.specs.Emit.{take_items};
ghost use Rattle.rv32_select.specs.IsSelected.{moves_between as moves_across};
ghost use Rattle.rv32_select.specs.Decides.{decides as decides_all};
ghost use Rattle.rv32_select.specs.Ranges.{AreTargets};
ghost use Rattle.rv32_select.specs.InContext.{alternatives, compared, heap_end_in, heap_full_in, no_alternative_in, source_in, sources_in, places_in, argument_spots_in, result_spots_in, tests_in, HavePlacesIn, TargetsPlacedIn, OperandPlacedIn, OperandsPlacedIn, ComparisonPlacedIn, TestsPlacedIn, CallPlacedIn, PlacedIn, StmtPlacedIn, ArmPlacedIn, ArmsPlacedIn, BlocksPlacedIn, CalledIn, TailCalledIn, EmittedIn, EmittedArmsIn, EmittedLastIn, EmittedDecidedFirstIn, EmittedDecidedLastIn, SearchedIn, BeforeIn, ArmsBeforeIn};
ghost use Rattle.rv32_select.specs.Emitting.{EmitsMoves, EmitsParallelMoves, one_arm, TestsAscend};
ghost use Rattle.rv32_select.specs.Halves.{last_test as last_test_items};

use crate::code::Code;
use crate::context::{Context, Frame, result_spots};
use crate::decides::{Comparison, condition, deciding_last_comparison, other_condition, tested};
use crate::links::continued_by_jump;
use crate::rare::first_arm_goes_last;
use crate::search::{Search, extra_words, number_of, searched_word};
use crate::source::{Continuation, Destination};
use crate::statements::spared_by_offset;
use limits::HEAP_START;
use low_code::{LowArm, LowBlock, LowEnd, LowStmt, LowTest, Operand};
use parallel_move::Spot;
use rv32_isa::Reg;
use rv32_items::{Cond, Item};
use std::alloc::AllocError;

/// The items so far, the next label, and the words that were spared.
#[derive(Drop)]
pub(crate) struct Selection {
    pub(crate) code: Code,
    pub(crate) next: u32,
    pub(crate) spared: u32,
}

impl Selection {
    /// A label of its own. There is no memory for more items than there are labels.
    fn fresh(&mut self) -> Result<u32, AllocError>
        ensures { IfOk result (λ label. (label ≡ self.old.next)
            × (self.new.next ≡ suc self.old.next) × (self.new.code ≡ self.old.code)) }
    {
        let label = self.next;
        self.next = label.checked_add(1).ok_or(AllocError)?;
        Ok(label)
    }
}

impl<'a> Context<'a> {
    pub(crate) fn heap_end(&self) -> u32
        ensures { result ≡ heap_end_in self.now }
    {
        HEAP_START + 4 * self.low.width * self.cells
    }

    pub(crate) fn no_alternative(&self) -> u32
        ensures { result ≡ no_alternative_in self.now }
    {
        self.low.procs.len() as u32
    }

    pub(crate) fn heap_full(&self) -> u32
        ensures { result ≡ heap_full_in self.now }
    {
        1 + self.low.procs.len() as u32
    }

    /// Words of operands go to spots at once.
    fn send(&self, code: &mut Code, to: &[Spot], operands: &[Operand]) -> Result<(), AllocError>
        requires targets { AreTargets to.now }
        requires operands { OperandsPlacedIn self.now operands.now }
        ensures { OnOk result
            (EmitsParallelMoves to.now (sources_in self.now operands.now) code.old code.new) }
    {
        let from = self.sources(operands)?;
        code.send(self.alloc, to, from.as_slice())
    }

    /// Words go to the spots of a procedure's arguments.
    fn send_arguments(
        &self,
        code: &mut Code,
        proc: u32,
        operands: &[Operand],
    ) -> Result<(), AllocError>
        requires proc { proc < length self.now.low.now.procs }
        requires operands { OperandsPlacedIn self.now operands.now }
        ensures { OnOk result (EmitsParallelMoves (argument_spots_in self.now proc)
            (sources_in self.now operands.now) code.old code.new) }
    {
        let to = self.argument_spots(proc)?;
        self.send(code, to.as_slice(), operands)
    }

    /// A procedure's results go to variables.
    fn take_results(&self, code: &mut Code, proc: u32, variables: &[u32]) -> Result<(), AllocError>
        requires proc { proc < length self.now.low.now.procs }
        requires variables { TargetsPlacedIn self.now variables.now }
        ensures { OnOk result (EmitsMoves (moves_across
            (places_in self.now variables.now) (result_spots_in self.now proc)) code.old code.new) }
    {
        let to = self.spots(variables)?;
        let results = self.low.procs.as_slice()[proc as usize].results;
        let from = result_spots(self.alloc, results)?;
        code.send_between(self.alloc, to.as_slice(), from.as_slice())
    }

    /// A call, with the registers that are saved over it.
    fn call(
        &self,
        code: &mut Code,
        frame: Frame,
        proc: u32,
        site: u32,
        operands: &[Operand],
        variables: &[u32],
    ) -> Result<(), AllocError>
        requires call { CallPlacedIn self.now proc site operands.now variables.now }
        ensures { OnOk result
            (CalledIn self.now frame proc site operands.now variables.now code.old code.new) }
    {
        let registers = self.places.saved(site);
        code.save_registers(frame.saved, registers)?;
        self.send_arguments(code, proc, operands)?;
        code.put(Item::Jump {
            link: Reg(1),
            label: proc,
        })?;
        self.take_results(code, proc, variables)?;
        code.restore_registers(frame.saved, registers)?;
        Ok(())
    }

    /// A tail call.
    fn tail(
        &self,
        code: &mut Code,
        frame: Frame,
        proc: u32,
        operands: &[Operand],
    ) -> Result<(), AllocError>
        requires proc { proc < length self.now.low.now.procs }
        requires operands { OperandsPlacedIn self.now operands.now }
        ensures { OnOk result (TailCalledIn self.now frame proc operands.now code.old code.new) }
    {
        self.send_arguments(code, proc, operands)?;
        code.leave(frame.framed, frame.words)?;
        code.put(Item::Jump {
            link: Reg(0),
            label: proc,
        })
    }

    fn take(&self, code: &mut Code, variables: &[u32]) -> Result<(), AllocError>
        requires variables { HavePlacesIn self.now variables.now }
        requires bytes { 4 * self.now.low.now.width * length variables.now < 4294967296 }
        ensures { OnOk result (code.new ≡ code.old ++ take_items (4 * self.now.low.now.width)
            (heap_full_in self.now) (places_in self.now variables.now)) }
    {
        let spots = self.spots(variables)?;
        code.take(4 * self.low.width, self.heap_full(), spots.as_slice())
    }

    /// Tests, of which each that fails goes on to the label.
    fn tests(&self, code: &mut Code, next: u32, tests: &[LowTest]) -> Result<(), AllocError>
        requires tests { TestsPlacedIn self.now tests.now }
        ensures { OnOk result (code.new ≡ code.old ++ tests_in self.now next tests.now) }
    {
        for test in tests {
            code.test(next, self.source(test.left), test.right)?;
        }
        Ok(())
    }

    #[cycle(blocks)]
    fn stmt(&self, frame: Frame, out: &mut Selection, stmt: &LowStmt) -> Result<(), AllocError>
        requires placed { StmtPlacedIn self.now stmt.now }
        ensures { OnOk result (BeforeIn self.now frame (before_of stmt.now) out.old out.new) }
    {
        match stmt {
            LowStmt::Set(x, a) => {
                let source = self.source(*a);
                out.code.set(self.places.place(*x), source)
            }
            LowStmt::Prim(f, x, a, b) => {
                let left = self.source(*a);
                let right = self.source(*b);
                out.code.prim(*f, self.places.place(*x), left, right)
            }
            LowStmt::Load(x, a, k) => {
                let cell = self.source(*a);
                out.spared = spared_by_offset(out.spared, *k, cell);
                out.code.load(self.places.place(*x), cell, *k)
            }
            LowStmt::Save(a, k, b) => {
                let cell = self.source(*a);
                let word = self.source(*b);
                out.spared = spared_by_offset(out.spared, *k, cell);
                out.code.save(cell, *k, word)
            }
            LowStmt::Take(xs) => self.take(&mut out.code, xs.as_slice()),
            LowStmt::Put(a) => {
                let word = self.source(*a);
                out.code.link_aside(frame.framed)?;
                out.code.put_byte(self.heap_end(), word)?;
                out.code.link_back(frame.framed)
            }
            LowStmt::Get(x) => {
                out.code.link_aside(frame.framed)?;
                out.code.get_byte(self.heap_end(), self.places.place(*x))?;
                out.code.link_back(frame.framed)
            }
            LowStmt::Call(f, site, operands, xs) => {
                out.code.link_aside(frame.framed)?;
                self.call(
                    &mut out.code,
                    frame,
                    *f,
                    *site,
                    operands.as_slice(),
                    xs.as_slice(),
                )?;
                out.code.link_back(frame.framed)
            }
            LowStmt::Join(xs, block) => self.join(frame, out, xs.as_slice(), block),
        }
    }

    #[cycle(blocks)]
    fn join(
        &self,
        frame: Frame,
        out: &mut Selection,
        variables: &[u32],
        block: &LowBlock,
    ) -> Result<(), AllocError>
        requires variables { TargetsPlacedIn self.now variables.now }
        requires placed { PlacedIn self.now (code_of block.now) }
        ensures { OnOk result
            (BeforeIn self.now frame (join variables.now (code_of block.now)) out.old out.new) }
    {
        let label = out.fresh()?;
        let spots = self.spots(variables)?;
        let to = Destination {
            spots: spots.as_slice(),
            way: Continuation::Follows(label),
        };
        self.block(frame, out, &to, block)?;
        out.code.put(Item::Label(label))
    }

    #[cycle(blocks)]
    fn arm(
        &self,
        frame: Frame,
        out: &mut Selection,
        to: &Destination,
        arm: &LowArm,
    ) -> Result<(), AllocError>
        requires placed { ArmPlacedIn self.now (arm_of arm.now) }
        ensures { OnOk result
            (ArmsBeforeIn self.now frame to.now (one_arm (arm_of arm.now)) out.old out.new) }
    {
        let label = out.fresh()?;
        self.tests(&mut out.code, label, arm.tests.as_slice())?;
        let by_jump = Destination {
            spots: to.spots,
            way: continued_by_jump(to.way),
        };
        self.block(frame, out, &by_jump, &arm.block)?;
        out.code.put(Item::Label(label))
    }

    /// Arms, one after another.
    #[cycle(blocks)]
    fn arms(
        &self,
        frame: Frame,
        out: &mut Selection,
        to: &Destination,
        arms: &[LowArm],
        otherwise: &LowBlock,
    ) -> Result<(), AllocError>
        requires placed { ArmsPlacedIn self.now (alternatives arms.now otherwise.now) }
        ensures { OnOk result (EmittedArmsIn self.now frame to.now
            (alternatives arms.now otherwise.now) out.old out.new) }
    {
        for arm in arms {
            self.arm(frame, out, to, arm)?;
        }
        self.block(frame, out, to, otherwise)
    }

    /// Arms, of which the first has one test and stands behind the others.
    #[cycle(blocks)]
    fn first_last(
        &self,
        frame: Frame,
        out: &mut Selection,
        to: &Destination,
        first: &LowArm,
        test: LowTest,
        arms: &[LowArm],
        otherwise: &LowBlock,
    ) -> Result<(), AllocError>
        requires test { first.now.tests ≡ test ∷ [] }
        requires placed { ArmsPlacedIn self.now
            (alternatives (first.now ∷ arms.now) otherwise.now) }
        ensures { OnOk result (EmittedLastIn self.now frame to.now
            (alternatives (first.now ∷ arms.now) otherwise.now) out.old out.new) }
    {
        let label = out.fresh()?;
        out.code
            .match_to(label, self.source(test.left), test.right)?;
        let by_jump = Destination {
            spots: to.spots,
            way: continued_by_jump(to.way),
        };
        self.arms(frame, out, &by_jump, arms, otherwise)?;
        out.code.put(Item::Label(label))?;
        self.block(frame, out, to, &first.block)?;
        Ok(())
    }

    /// A test whether the word is this number, unless it can be nothing else.
    fn last_test(&self, code: &mut Code, search: Search, number: u32) -> Result<(), AllocError>
        requires word { OperandPlacedIn self.now search.word }
        ensures { OnOk result (code.new ≡ code.old ++ last_test_items search.miss
            (source_in self.now search.word) search.low search.high number) }
    {
        if search.is_alone() {
            return Ok(());
        }
        code.test(search.miss, self.source(search.word), number)
    }

    /// Arms that are looked for by halves.
    #[cycle(blocks)]
    fn halves(
        &self,
        frame: Frame,
        out: &mut Selection,
        to: &Destination,
        search: Search,
        arms: &[LowArm],
    ) -> Result<(), AllocError>
        requires some { 1 ≤ length arms.now }
        requires word { OperandPlacedIn self.now search.word }
        requires rises { TestsAscend search.word search.low search.high arms.now }
        requires placed { BlocksPlacedIn self.now arms.now }
        ensures { OnOk result (SearchedIn self.now frame search to.now arms.now out.old out.new) }
    {
        if arms.len() == 1 {
            let arm = &arms[0];
            self.last_test(&mut out.code, search, number_of(arm))?;
            self.block(frame, out, to, &arm.block)?;
            return Ok(());
        }
        let (front, back) = arms.split_at(arms.len() / 2);
        let bound = number_of(&back[0]);
        let label = out.fresh()?;
        out.code
            .compare(Cond::Geu, label, self.source(search.word), bound)?;
        let below = Search {
            high: Some(bound),
            ..search
        };
        self.halves(frame, out, to, below, front)?;
        out.code.put(Item::Label(label))?;
        let above = Search {
            low: bound,
            ..search
        };
        self.halves(frame, out, to, above, back)?;
        Ok(())
    }

    /// A choice, by halves where it can be.
    #[cycle(blocks)]
    fn choice(
        &self,
        frame: Frame,
        out: &mut Selection,
        to: &Destination,
        arms: &[LowArm],
        otherwise: &LowBlock,
    ) -> Result<(), AllocError>
        requires placed { ArmsPlacedIn self.now (alternatives arms.now otherwise.now) }
        ensures { OnOk result (EmittedIn self.now frame to.now
            (choose (alternatives arms.now otherwise.now)) out.old out.new) }
    {
        let Some(word) = searched_word(out.spared, arms, otherwise) else {
            return self.choose(frame, out, to, arms, otherwise);
        };
        out.spared = out.spared.saturating_sub(extra_words(arms, word));
        let miss = out.fresh()?;
        let search = Search {
            miss,
            word,
            low: 0,
            high: None,
        };
        let by_jump = Destination {
            spots: to.spots,
            way: continued_by_jump(to.way),
        };
        self.halves(frame, out, &by_jump, search, arms)?;
        out.code.put(Item::Label(miss))?;
        self.block(frame, out, to, otherwise)?;
        Ok(())
    }

    #[cycle(blocks)]
    fn choose(
        &self,
        frame: Frame,
        out: &mut Selection,
        to: &Destination,
        arms: &[LowArm],
        otherwise: &LowBlock,
    ) -> Result<(), AllocError>
        requires placed { ArmsPlacedIn self.now (alternatives arms.now otherwise.now) }
        ensures { OnOk result (EmittedIn self.now frame to.now
            (choose (alternatives arms.now otherwise.now)) out.old out.new) }
    {
        match arms.split_first() {
            None => {
                self.arms(frame, out, to, arms, otherwise)?;
                Ok(())
            }
            Some((first, others)) => {
                if first_arm_goes_last(to.way, first, otherwise) {
                    let test = first.tests.as_slice()[0];
                    self.first_last(frame, out, to, first, test, others, otherwise)?;
                    return Ok(());
                }
                self.arms(frame, out, to, arms, otherwise)?;
                Ok(())
            }
        }
    }

    /// Arms of which a comparison decides whether the first is taken.
    #[cycle(blocks)]
    fn decided_first(
        &self,
        frame: Frame,
        out: &mut Selection,
        to: &Destination,
        comparison: Comparison,
        first: &LowArm,
        others: &[LowArm],
        otherwise: &LowBlock,
    ) -> Result<(), AllocError>
        requires operands { ComparisonPlacedIn self.now comparison }
        requires placed { ArmsPlacedIn self.now
            (alternatives (first.now ∷ others.now) otherwise.now) }
        ensures { OnOk result (EmittedDecidedFirstIn self.now frame comparison to.now
            (alternatives (first.now ∷ others.now) otherwise.now) out.old out.new) }
    {
        let label = out.fresh()?;
        let left = self.source(comparison.left);
        let right = self.source(comparison.right);
        let number = tested(first.tests.as_slice());
        out.code.branch(
            other_condition(comparison.operation, number),
            label,
            left,
            right,
        )?;
        let by_jump = Destination {
            spots: to.spots,
            way: continued_by_jump(to.way),
        };
        self.block(frame, out, &by_jump, &first.block)?;
        out.code.put(Item::Label(label))?;
        self.arms(frame, out, to, others, otherwise)?;
        Ok(())
    }

    /// The same, with the first behind the others.
    #[cycle(blocks)]
    fn decided_last(
        &self,
        frame: Frame,
        out: &mut Selection,
        to: &Destination,
        comparison: Comparison,
        first: &LowArm,
        others: &[LowArm],
        otherwise: &LowBlock,
    ) -> Result<(), AllocError>
        requires operands { ComparisonPlacedIn self.now comparison }
        requires placed { ArmsPlacedIn self.now
            (alternatives (first.now ∷ others.now) otherwise.now) }
        ensures { OnOk result (EmittedDecidedLastIn self.now frame comparison to.now
            (alternatives (first.now ∷ others.now) otherwise.now) out.old out.new) }
    {
        let label = out.fresh()?;
        let left = self.source(comparison.left);
        let right = self.source(comparison.right);
        let number = tested(first.tests.as_slice());
        out.code.branch(condition(comparison.operation, number), label, left, right)?;
        let by_jump = Destination {
            spots: to.spots,
            way: continued_by_jump(to.way),
        };
        self.arms(frame, out, &by_jump, others, otherwise)?;
        out.code.put(Item::Label(label))?;
        self.block(frame, out, to, &first.block)?;
        Ok(())
    }

    #[cycle(blocks)]
    fn decided_arms(
        &self,
        frame: Frame,
        out: &mut Selection,
        to: &Destination,
        comparison: Comparison,
        first: &LowArm,
        others: &[LowArm],
        otherwise: &LowBlock,
    ) -> Result<(), AllocError>
        requires operands { ComparisonPlacedIn self.now comparison }
        requires placed { ArmsPlacedIn self.now
            (alternatives (first.now ∷ others.now) otherwise.now) }
        requires decides { decides_all comparison.operation comparison.variable (choose
            (alternatives (first.now ∷ others.now) otherwise.now)) ≡ true }
        ensures { OnOk result (EmittedIn self.now frame to.now (compared comparison
            (choose (alternatives (first.now ∷ others.now) otherwise.now))) out.old out.new) }
    {
        if first_arm_goes_last(to.way, first, otherwise) {
            self.decided_last(frame, out, to, comparison, first, others, otherwise)?;
            return Ok(());
        }
        self.decided_first(frame, out, to, comparison, first, others, otherwise)?;
        Ok(())
    }

    /// A comparison and the choice that it decides.
    #[cycle(blocks)]
    fn decided(
        &self,
        frame: Frame,
        out: &mut Selection,
        to: &Destination,
        comparison: Comparison,
        end: &LowEnd,
    ) -> Result<(), AllocError>
        requires operands { ComparisonPlacedIn self.now comparison }
        requires placed { PlacedIn self.now (end_of end.now) }
        requires decides { decides_all comparison.operation comparison.variable
            (end_of end.now) ≡ true }
        ensures { OnOk result (EmittedIn self.now frame to.now
            (compared comparison (end_of end.now)) out.old out.new) }
    {
        match end {
            LowEnd::Give(_) => Ok(()),
            LowEnd::Tail(_, _, _) => Ok(()),
            LowEnd::Choose(arms, otherwise) => match arms.as_slice().split_first() {
                None => Ok(()),
                Some((first, others)) => {
                    self.decided_arms(frame, out, to, comparison, first, others, otherwise)?;
                    Ok(())
                }
            },
            LowEnd::Fail => Ok(()),
        }
    }

    #[cycle(blocks)]
    fn end(
        &self,
        frame: Frame,
        out: &mut Selection,
        to: &Destination,
        end: &LowEnd,
    ) -> Result<(), AllocError>
        requires placed { PlacedIn self.now (end_of end.now) }
        ensures { OnOk result (EmittedIn self.now frame to.now (end_of end.now) out.old out.new) }
    {
        match end {
            LowEnd::Give(operands) => {
                self.send(&mut out.code, to.spots, operands.as_slice())?;
                out.code.way_out(frame.framed, frame.words, to.way)?;
                Ok(())
            }
            LowEnd::Tail(f, _, operands) => {
                self.tail(&mut out.code, frame, *f, operands.as_slice())
            }
            LowEnd::Choose(arms, otherwise) => {
                self.choice(frame, out, to, arms.as_slice(), otherwise)
            }
            // x5, since a jump that links x1 is a call
            LowEnd::Fail => {
                out.code.put(Item::Jump {
                    link: Reg(5),
                    label: self.no_alternative(),
                })?;
                Ok(())
            }
        }
    }

    /// A block that gives its words to the destination's spots, and goes its way then.
    #[cycle(blocks)]
    pub(crate) fn block(
        &self,
        frame: Frame,
        out: &mut Selection,
        to: &Destination,
        block: &LowBlock,
    ) -> Result<(), AllocError>
        requires placed { PlacedIn self.now (code_of block.now) }
        ensures { OnOk result
            (EmittedIn self.now frame to.now (code_of block.now) out.old out.new) }
    {
        let mut left = block.stmts.len();
        for stmt in block.stmts.as_slice() {
            left -= 1;
            if let Some(comparison) = deciding_last_comparison(left == 0, stmt, &block.last) {
                self.decided(frame, out, to, comparison, &block.last)?;
                return Ok(());
            }
            self.stmt(frame, out, stmt)?;
        }
        self.end(frame, out, to, &block.last)?;
        Ok(())
    }
}
