// Operands and spots of a procedure, and words that go to spots at once.
#![tactic(auto, using(crate::proofs::Plain::plain_append, crate::proofs::Sending::sending), unfolding(crate::specs::Emit::plain))]

ghost use Rattle.std.specs.Prelude.{◌≡◌, ◌++◌, [], ◌∷◌, ◌<◌, ◌+◌, ◌≤◌, length, map, slice_get, Some, OnOk, IfOk, true};
ghost use Rattle.parallel_move.specs.Moves.{AllMoveEnds, DistinctTargets, NoScratch};
ghost use Rattle.rv32_select.specs.Emit.{plain, moves_code, save_moves, restore_moves, argument_spot as spot_of_argument, argument_spots as spots_of_arguments, result_spots as spots_of_results, parameters_code, number_from as number_from_code, number_moves as numbers_code, spot_moves as moves_of};
ghost use Rattle.rv32_select.specs.IsSelected.{moves_between as moves_across};
ghost use Rattle.rv32_select.specs.Ranges.{in_range, AllInRange, IsSource, AreSources, IsSpot, AreSpots, AreTargets, AreRegisters};
ghost use Rattle.low_code.specs.Tree.{program_of};
ghost use Rattle.rv32_select.specs.Writable.{FrameFits, CanWrite};
ghost use Rattle.rv32_select.specs.OneProof.{CanWrite-prop};
ghost use Rattle.rv32_select.specs.Emitting.{EmitsMoves, EmitsParallelMoves};

use crate::code::Code;
use crate::source::Source;
use limits::HEAP_START;
use low_code::{Low, Operand};
use parallel_move::{Move, Spot, order};
use register_alloc::Places;
use rv32_isa::Reg;
use std::alloc::{AllocError, Global};

/// The words of a procedure's frame, the first slot for saved registers, and whether the return
/// address is in the frame from the entry to the end.
#[derive(Clone, Copy)]
pub(crate) struct Frame {
    pub(crate) words: u32,
    pub(crate) saved: u32,
    pub(crate) framed: bool,
    ghost fits: { FrameFits words saved },
}

/// The program, its places, the number of its cells and the bytes of its frames: its items can be
/// written.
#[derive(Clone, Copy)]
pub(crate) struct Context<'a> {
    pub(crate) alloc: Global,
    pub(crate) low: &'a Low,
    pub(crate) places: &'a Places,
    pub(crate) cells: u32,
    pub(crate) stack: u32,
    ghost writable: { CanWrite (program_of low.now) places.now cells } by { CanWrite-prop (program_of low.now) places.now cells },
}

/// The moves that bring operands to spots.
fn spot_moves(alloc: Global, to: &[Spot], from: &[Source]) -> Result<Vec<Move>, AllocError>
    ensures { IfOk result (λ moves. moves.items ≡ moves_of to.now from.now) }
{
    let mut moves = Vec::new(alloc);
    for (to, from) in to.iter().zip(from) {
        if let Source::At(from) = *from {
            moves.push(Move { from, to: *to })?;
        }
    }
    Ok(moves)
}

/// The moves from one list of spots to another.
fn moves_between(alloc: Global, to: &[Spot], from: &[Spot]) -> Result<Vec<Move>, AllocError>
    ensures { IfOk result (λ moves. moves.items ≡ moves_across to.now from.now) }
{
    let mut moves = Vec::new(alloc);
    for (to, from) in to.iter().zip(from) {
        moves.push(Move {
            from: *from,
            to: *to,
        })?;
    }
    Ok(moves)
}

/// So many results stand in x10 and up.
pub(crate) fn result_spots(alloc: Global, n: u32) -> Result<Vec<Spot>, AllocError>
    requires { n ≤ 13 }
    ensures { IfOk result (λ spots. spots.items ≡ spots_of_results 10 n) }
{
    let mut spots = Vec::new(alloc);
    for i in 0..n {
        spots.push(Spot::Reg(10 + i as u8))?;
    }
    Ok(spots)
}

/// The spot in which the i-th argument comes for a parameter of this place.
fn argument_spot(i: usize, place: Spot) -> Spot
    requires { i < 16 }
    ensures { result ≡ spot_of_argument i place }
{
    match place {
        Spot::Reg(r) => Spot::Reg(r),
        Spot::Slot(_) => Spot::Reg(8 + i as u8),
        Spot::Scratch => Spot::Reg(8 + i as u8),
    }
}

/// The spots in which arguments come for parameters of these places.
fn spots_for(alloc: Global, places: &[Spot]) -> Result<Vec<Spot>, AllocError>
    requires { length places.now ≤ 16 }
    ensures { IfOk result (λ spots. spots.items ≡ spots_of_arguments 0 places.now) }
{
    let mut spots = Vec::new(alloc);
    for (i, place) in places.iter().enumerate() {
        spots.push(argument_spot(i, *place))?;
    }
    Ok(spots)
}

impl Code {
    /// Moves that are meant at once, in some order.
    fn moves_at_once(&mut self, alloc: Global, moves: &[Move]) -> Result<(), AllocError>
        requires distinct { DistinctTargets moves.now }
        requires no_scratch { NoScratch moves.now }
        requires in_range { AllMoveEnds in_range moves.now }
        ensures { OnOk result (EmitsMoves moves.now self.old self.new) }
    {
        let steps = order(alloc, moves)?;
        self.moves(steps.as_slice())
    }

    /// The numbers among operands go to their spots.
    pub(crate) fn numbers(&mut self, to: &[Spot], from: &[Source]) -> Result<(), AllocError>
        requires { AllInRange to.now }
        ensures { OnOk result (self.new ≡ self.old ++ plain (numbers_code to.now from.now)) }
    {
        for (to, from) in to.iter().zip(from) {
            if let Source::Number(n) = *from {
                self.number_into(*to, n)?;
            }
        }
        Ok(())
    }

    /// Words go to spots at once.
    pub(crate) fn send(
        &mut self,
        alloc: Global,
        to: &[Spot],
        from: &[Source],
    ) -> Result<(), AllocError>
        requires targets { AreTargets to.now }
        requires sources { AreSources from.now }
        ensures { OnOk result (EmitsParallelMoves to.now from.now self.old self.new) }
    {
        let moves = spot_moves(alloc, to, from)?;
        self.moves_at_once(alloc, moves.as_slice())?;
        self.numbers(to, from)
    }

    /// Words go from spots to others at once.
    pub(crate) fn send_between(
        &mut self,
        alloc: Global,
        to: &[Spot],
        from: &[Spot],
    ) -> Result<(), AllocError>
        requires targets { AreTargets to.now }
        requires sources { AreSpots from.now }
        ensures { OnOk result (EmitsMoves (moves_across to.now from.now) self.old self.new) }
    {
        let moves = moves_between(alloc, to, from)?;
        self.moves_at_once(alloc, moves.as_slice())
    }

    /// Registers are saved in the slots from `first` on.
    pub(crate) fn save_registers(&mut self, first: u32, registers: &[u8]) -> Result<(), AllocError>
        requires { AreRegisters registers.now × (first + length registers.now < 4294967296) }
        ensures { OnOk result (self.new ≡ self.old
            ++ plain (moves_code (save_moves first registers.now))) }
    {
        let mut slot = first;
        for register in registers {
            self.move_to(Spot::Slot(slot), Spot::Reg(*register))?;
            slot += 1;
        }
        Ok(())
    }

    /// Registers come back from there.
    pub(crate) fn restore_registers(
        &mut self,
        first: u32,
        registers: &[u8],
    ) -> Result<(), AllocError>
        requires { AreRegisters registers.now × (first + length registers.now < 4294967296) }
        ensures { OnOk result (self.new ≡ self.old
            ++ plain (moves_code (restore_moves first registers.now))) }
    {
        let mut slot = first;
        for register in registers {
            self.move_to(Spot::Reg(*register), Spot::Slot(slot))?;
            slot += 1;
        }
        Ok(())
    }

    /// Arguments that came in x8 and up go to the slots of their parameters.
    pub(crate) fn parameters(&mut self, places: &[Spot]) -> Result<(), AllocError>
        requires { length places.now ≤ 16 }
        ensures { OnOk result (self.new ≡ self.old ++ plain (parameters_code 0 places.now)) }
    {
        for (i, place) in places.iter().enumerate() {
            self.keep(Reg(8 + i as u8), *place)?;
        }
        Ok(())
    }
}

impl<'a> Context<'a> {
    ghost use Rattle.rv32_select.specs.InContext.{source_in, sources_in, places_in, argument_spots_in, HavePlacesIn, OperandPlacedIn, OperandsPlacedIn};

    pub(crate) fn source(&self, operand: Operand) -> Source
        requires { OperandPlacedIn self.now operand }
        ensures { (result ≡ source_in self.now operand) × IsSource result }
    {
        match operand {
            Operand::Var(x) => Source::At(self.places.place(x)),
            Operand::Num(n) => Source::Number(n),
            Operand::Cell(i) => {
                let address = HEAP_START as u64 + 4 * self.low.width as u64 * i as u64;
                Source::Number((address % 4294967296) as u32)
            }
        }
    }

    pub(crate) fn sources(&self, operands: &[Operand]) -> Result<Vec<Source>, AllocError>
        requires { OperandsPlacedIn self.now operands.now }
        ensures { IfOk result (λ sources. (sources.items ≡ sources_in self.now operands.now)
            × AreSources sources.items) }
    {
        let mut sources = Vec::new(self.alloc);
        for operand in operands {
            sources.push(self.source(*operand))?;
        }
        Ok(sources)
    }

    /// The places of variables.
    pub(crate) fn spots(&self, variables: &[u32]) -> Result<Vec<Spot>, AllocError>
        requires { HavePlacesIn self.now variables.now }
        ensures { IfOk result
            (λ spots. (spots.items ≡ places_in self.now variables.now) × AreSpots spots.items) }
    {
        let mut spots = Vec::new(self.alloc);
        for x in variables {
            spots.push(self.places.place(*x))?;
        }
        Ok(spots)
    }

    /// The spots in which a procedure takes its arguments.
    pub(crate) fn argument_spots(&self, proc: u32) -> Result<Vec<Spot>, AllocError>
        requires { proc < length self.now.low.now.procs }
        ensures { IfOk result
            (λ spots. (spots.items ≡ argument_spots_in self.now proc) × AreTargets spots.items) }
    {
        let places = self.spots(self.low.procs.as_slice()[proc as usize].params.as_slice())?;
        spots_for(self.alloc, places.as_slice())
    }
}
