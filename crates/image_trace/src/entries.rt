//! The procedures that a run enters.

ghost use Rattle.std.specs.Prelude.{◌≡◌, ◌≤◌, ℕ, suc, ◌+◌, true, [], ◌∷◌, ◌++◌, length, take, option_to_list, if◌then◌else◌, IfOk, OnOk};
ghost use Rattle.limits.specs.Limits.{default_steps};
ghost use Rattle.rv32_machine.specs.Steps.{IsRunning, start_of, state_of};
ghost use Rattle.rv32_steps.specs.Trace.{procedure_from};
ghost use Rattle.image_trace.specs.Entries.{states, entries_in, entries_at};

use elf32::Loaded;
use limits::DEFAULT_STEPS;
use rv32_isa::Reg;
use rv32_machine::{Machine, StepResult};
use std::alloc::{AllocError, Global};

/// A procedure that is entered.
#[derive(Clone, Copy, Drop)]
pub struct Entry {
    /// Its number.
    pub procedure: usize,
    /// What x2 is there, below which its frame lies.
    pub x2: u32,
}

/// The procedure that begins at an address.
fn procedure_at(starts: &[u32], at: u32) -> Option<usize>
    ensures { option_to_list result ≡ procedure_from 0 starts.now at }
{
    for (f, start) in starts.iter().enumerate() {
        if *start == at {
            return Some(f);
        }
    }
    None
}

/// Puts the entry of the procedure at which a machine stands, if there is one, at the end.
fn put_entry(entries: &mut Vec<Entry>, starts: &[u32], machine: &Machine) -> Result<(), AllocError>
    ensures put { OnOk result (entries.new.items
        ≡ entries.old.items ++ entries_in starts.now (state_of machine.now)) }
    ensures one { OnOk result (length entries.new.items ≤ length entries.old.items + 1) }
{
    if let Some(procedure) = procedure_at(starts, machine.pc()) {
        let x2 = machine.register(Reg(2));
        entries.push(Entry { procedure, x2 })?;
    }
    Ok(())
}

/// Does one step, where a read call finds the input's end. Whether the program goes on.
pub(crate) fn goes_on(machine: &mut Machine) -> bool
    requires { IsRunning machine.old }
    ensures states { (m : ℕ) → states (suc m) [] (state_of machine.old) ≡ state_of machine.old
        ∷ (if result then states m [] (state_of machine.new) else []) }
    ensures running { result ≡ true → IsRunning machine.new }
{
    match machine.step() {
        StepResult::Next => true,
        StepResult::Write(_, _) => true,
        StepResult::Read(_) => {
            machine.give(None);
            true
        }
        StepResult::Exit(_) => false,
        StepResult::Trap(_, _) => false,
    }
}

/// The first procedures, at most so many, that a program enters on no input, in as many steps as a
/// run does by default. They begin at these addresses.
pub(crate) fn entries(
    alloc: Global,
    program: &Loaded,
    starts: &[u32],
    most: usize,
) -> Result<Vec<Entry>, AllocError>
    ensures { IfOk result (λ entries. entries.items
        ≡ take most (entries_at starts.now (states default_steps [] (start_of program.now)))) }
{
    let mut machine = Machine::load(alloc, program)?;
    let mut entries = Vec::new(alloc);
    let mut left = DEFAULT_STEPS;
    while left > 0 {
        if entries.len() == most {
            return Ok(entries);
        }
        put_entry(&mut entries, starts, &machine)?;
        if !goes_on(&mut machine) {
            return Ok(entries);
        }
        left -= 1;
    }
    Ok(entries)
}
