// Procedures, the start-up and the stops.
#![tactic(auto, using(crate::proofs::Plain::plain_append, crate::proofs::Entered::entered), unfolding(crate::specs::Emit::plain))]

ghost use Rattle.std.specs.Prelude.{◌≡◌, ◌++◌, [], ◌∷◌, ◌<◌, ◌*◌, ◌+◌, ◌-◌, ◌≤◌, length, map, OnOk, IfOk, ◌/◌, ◌%◌, ◌^◌, nat_eq};
ghost use Rattle.rv32_select.specs.Emit.{plain, base_register as register_of_base, base_at_entry as base_at_entry_code, base_at_start as base_at_start_code, entry_items, globals_code, start_items, stop_items};
ghost use Rattle.rv32_select.specs.IsSelected.{start_argument as argument_of_start, first_call as first_call_items, is_lasting as is_lasting_base, step as bytes_of_cell};
ghost use Rattle.rv32_select.specs.Ranges.{AreSources};
ghost use Rattle.rv32_select.specs.InContext.{program, assignment, heap_end_in, heap_full_in, no_alternative_in, sources_in, EmittedProcedureIn};
ghost use Rattle.limits.specs.Limits.{largest_program, most_stack, heap_start, stack_end};

use crate::blocks::Selection;
use crate::code::{Code, add_immediate, held, negated};
use crate::context::{Context, Frame, result_spots};
use crate::framing::is_framed;
use crate::source::{Continuation, Destination, Source};
use limits::{HEAP_START, STACK_END};
use low_code::Operand;
use parallel_move::Spot;
use rv32_isa::{Imm12, Instr, Reg, StoreKind};
use rv32_items::{Cond, Item};
use std::alloc::AllocError;

/// The register that the stack's base is in.
fn base_register(lasting: bool) -> Reg
    ensures { result ≡ register_of_base lasting }
{
    if lasting { Reg(27) } else { Reg(5) }
}

/// Whether a procedure with this mask changes x27.
fn changes_base(mask: u32) -> bool
    ensures { result ≡ nat_eq (mask / 2 ^ 27 % 2) 1 }
{
    mask / 134217728 % 2 == 1
}

impl Code {
    fn base_at_entry(&mut self, lasting: bool, stack_base: u32) -> Result<(), AllocError>
        ensures { OnOk result (self.new ≡ self.old ++ plain (base_at_entry_code lasting stack_base)) }
    {
        if lasting {
            return Ok(());
        }
        self.load_constant(Reg(5), stack_base)
    }

    fn base_at_start(&mut self, lasting: bool, stack_base: u32) -> Result<(), AllocError>
        ensures { OnOk result (self.new ≡ self.old ++ plain (base_at_start_code lasting stack_base)) }
    {
        if lasting {
            return self.load_constant(Reg(27), stack_base);
        }
        Ok(())
    }

    /// A procedure's label, the test of the stack, and its parameters.
    fn enter(
        &mut self,
        label: u32,
        words: u32,
        framed: bool,
        lasting: bool,
        stack_base: u32,
        stack_full: u32,
        params: &[Spot],
    ) -> Result<(), AllocError>
        requires { (words < 67108864) × (length params.now ≤ 16) }
        ensures { OnOk result (self.new ≡ self.old
            ++ entry_items label words framed lasting stack_base stack_full params.now) }
    {
        self.put(Item::Label(label))?;
        self.add_to(Reg(2), Reg(2), negated(4 * words))?;
        self.base_at_entry(lasting, stack_base)?;
        self.put(Item::Branch {
            cond: Cond::Ltu,
            left: Reg(2),
            right: base_register(lasting),
            label: stack_full,
        })?;
        self.link_put(framed)?;
        self.parameters(params)
    }

    /// The tags of the globals, each in a cell of so many bytes.
    fn globals(&mut self, step: u32, globals: &[u32]) -> Result<(), AllocError>
        requires { step < 2048 }
        ensures { OnOk result (self.new ≡ self.old ++ plain (globals_code step globals.now)) }
    {
        for tag in globals {
            self.hold(Reg(6), Source::Number(*tag))?;
            let r = held(Reg(6), Source::Number(*tag));
            self.instr(Instr::Store(StoreKind::Sw, r, Reg(3), Imm12(0)))?;
            self.instr(add_immediate(Reg(3), Reg(3), Imm12(step as i32)))?;
        }
        Ok(())
    }

    /// The exits without an alternative and with a full heap or stack.
    fn stops(&mut self, first: u32) -> Result<(), AllocError>
        requires { first ≤ largest_program }
        ensures { OnOk result (self.new ≡ self.old ++ stop_items first) }
    {
        self.put(Item::Label(first))?;
        self.exit_with(3)?;
        self.put(Item::Label(1 + first))?;
        self.exit_with(4)?;
        self.put(Item::Label(2 + first))?;
        self.exit_with(5)
    }
}

impl<'a> Context<'a> {
    /// Whether no procedure changes x27.
    pub(crate) fn is_lasting(&self) -> bool
        ensures { result ≡ is_lasting_base self.now.places.now }
    {
        for proc in 0..self.low.procs.len() {
            if changes_base(self.places.written(proc as u32)) {
                return false;
            }
        }
        true
    }

    /// What the start is called with.
    fn start_sources(&self) -> Result<Vec<Source>, AllocError>
        ensures { IfOk result (λ sources. (sources.items ≡ sources_in self.now
            (argument_of_start self.now.low.now.argument)) × AreSources sources.items) }
    {
        match self.low.argument {
            None => self.sources(&[]),
            Some(global) => self.sources(&[Operand::Cell(global)]),
        }
    }

    /// The frames' end, the next cell, the heap's end and the globals.
    pub(crate) fn start_up(&self, code: &mut Code) -> Result<(), AllocError>
        requires globals { length self.now.low.now.globals ≤ largest_program }
        ensures { OnOk result
            (code.new ≡ code.old ++ start_items stack_end heap_start (heap_end_in self.now)
            (bytes_of_cell (program self.now)) (heap_full_in self.now) self.now.low.now.globals) }
    {
        let globals = self.low.globals.as_slice();
        let step = 4 * self.low.width;
        code.load_constant(Reg(2), STACK_END)?;
        code.load_constant(Reg(3), HEAP_START)?;
        code.load_constant(Reg(4), self.heap_end())?;
        code.room(step * globals.len() as u32, self.heap_full())?;
        code.globals(step, globals)
    }

    /// The call of the start, and the exit after it.
    pub(crate) fn first_call(&self, code: &mut Code, lasting: bool) -> Result<(), AllocError>
        requires stack { self.now.stack ≤ most_stack }
        requires lasting { lasting ≡ is_lasting_base self.now.places.now }
        ensures { OnOk result (code.new ≡ code.old ++ first_call_items
            (program self.now) (assignment self.now) (stack_end - self.now.stack)) }
    {
        let to = self.argument_spots(self.low.start)?;
        let from = self.start_sources()?;
        code.numbers(to.as_slice(), from.as_slice())?;
        code.base_at_start(lasting, STACK_END - self.stack)?;
        code.put(Item::Jump {
            link: Reg(1),
            label: self.low.start,
        })?;
        code.exit_with(0)
    }

    /// A procedure: its entry and its block.
    pub(crate) fn procedure(
        &self,
        out: &mut Selection,
        lasting: bool,
        proc: u32,
    ) -> Result<(), AllocError>
        requires stack { self.now.stack ≤ most_stack }
        requires lasting { lasting ≡ is_lasting_base self.now.places.now }
        requires proc { proc < length self.now.low.now.procs }
        ensures { OnOk result (EmittedProcedureIn self.now proc out.old out.new) }
    {
        let procedure = &self.low.procs.as_slice()[proc as usize];
        let words = self.places.frame_words(proc);
        let saved = self.slots(procedure)?;
        let params = self.spots(procedure.params.as_slice())?;
        let stack_full = 2 + self.low.procs.len() as u32;
        let framed = is_framed(&mut out.spared, proc, &procedure.body);
        out.code.enter(
            proc,
            words,
            framed,
            lasting,
            STACK_END - self.stack,
            stack_full,
            params.as_slice(),
        )?;
        let results = result_spots(self.alloc, procedure.results)?;
        let frame = Frame {
            words,
            saved,
            framed,
        };
        let to = Destination {
            spots: results.as_slice(),
            way: Continuation::Returns,
        };
        self.block(frame, out, &to, &procedure.body)?;
        Ok(())
    }

    /// The stops, after all procedures.
    pub(crate) fn stops(&self, code: &mut Code) -> Result<(), AllocError>
        ensures { OnOk result (code.new ≡ code.old ++ stop_items (no_alternative_in self.now)) }
    {
        code.stops(self.no_alternative())
    }
}
