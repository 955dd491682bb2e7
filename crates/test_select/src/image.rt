// The image of a low program, as it is run.

ghost use Rattle.std.specs.Prelude.{◌≤◌, ◌%◌, ◌≡◌, IfOk};
ghost use Rattle.low_code.specs.Tree.{program_of};
ghost use Rattle.rv32_machine.specs.Steps.{IsRunning};
ghost use Rattle.test_select.specs.Rows.{IsRow};

use low_code::Low;
use register_alloc::allocate;
use rv32_layout::place;
use rv32_machine::Machine;
use rv32_select::select;
use std::alloc::{AllocError, Global};
use std::test::Fail;

/// The words of a low program.
pub fn words(alloc: Global, low: &Low, cells: u32, stack: u32) -> Result<Vec<u32>, AllocError>
    requires row { IsRow (program_of low.now) }
    requires cells { (1 ≤ cells) × (cells ≤ 1000) }
    requires stack { (1024 ≤ stack) × (stack ≤ 65536) × (stack % 4 ≡ 0) }
{
    let places = allocate(alloc, low)?;
    let asm = select(alloc, low, &places, cells, stack)?;
    let placement = place(alloc, &asm, 0)?;
    Ok(placement.words)
}

/// A machine at the start of a low program, whose cells have three words.
pub fn start(alloc: Global, low: &Low, cells: u32, stack: u32) -> Result<Machine, Fail>
    requires row { IsRow (program_of low.now) }
    requires cells { (1 ≤ cells) × (cells ≤ 1000) }
    requires stack { (1024 ≤ stack) × (stack ≤ 65536) × (stack % 4 ≡ 0) }
    ensures { IfOk result (λ machine. IsRunning machine) }
{
    let words = words(alloc, low, cells, stack)?;
    if words.is_empty() || words.len() > 268435456 {
        return Err(Fail::new("no program of this size"));
    }
    let file = elf32::write(alloc, words.as_slice(), 12 * cells, stack)?;
    let image = elf32::read(alloc, &file)?;
    Ok(Machine::load(alloc, &image)?)
}
