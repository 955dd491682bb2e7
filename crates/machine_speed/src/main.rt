//! Runs a loop of five instructions, with a heap and a stack loaded, and says how the run ended.
//! Its words are how many times 4,096 turns the loop is done, and how many cells of 14 words the
//! heap has.
#![tactic(auto)]

ghost use Rattle.std.specs.Prelude.{◌<◌};

use anyhow::Context;
use grin_io::{MemSink, MemSource};
use rv32_machine::Machine;
use std::alloc::Global;
use std::env;

/// The bytes of the stack.
const STACK: u32 = 67108864;

/// Counts x5 down from 4096 times `turns`, and stores and loads a word of the stack at each turn.
fn code(turns: u32) -> [u32; 9]
    requires { turns < 1048576 }
{
    [
        0x77fff137,
        turns * 4096 + 0x2b7,
        0x00330313,
        0x00612423,
        0x00812383,
        0xfff28293,
        0xfe0298e3,
        0x05d00893,
        0x00000073,
    ]
}

/// How a run of the loop ended.
fn run(alloc: Global, turns: u32, cells: u32) -> anyhow::Result<&'static str> {
    if turns == 0 || turns >= 1048576 || cells > 8000000 {
        return Ok("no such loop");
    }
    let file = elf32::write(alloc, &code(turns), 56 * cells, STACK)?;
    let image = elf32::read(alloc, &file)?;
    let mut machine = Machine::load(alloc, &image)?;
    let mut input = MemSource::new(Vec::new(alloc), Vec::new(alloc));
    let mut out = MemSink::new(alloc, 0, Vec::new(alloc))?;
    Ok(match machine.run(1000000000000, &mut input, &mut out) {
        Ok(rv32_machine::Stop::Exit(_)) => "exit",
        Ok(rv32_machine::Stop::Steps) => "going",
        Ok(rv32_machine::Stop::Trap(_, _)) => "trap",
        Err(_) => "fault",
    })
}

fn main(rt: HostRuntime) -> anyhow::Result<()> {
    let mut words = env::args(&rt)?;
    let _name = words.next();
    let turns = words.next().context("how many turns?")?;
    let cells = words.next().context("how many cells?")?;
    let turns = turns.parse::<u32>()?;
    let cells = cells.parse::<u32>()?;
    println!(rt; "{}", run(rt.alloc(), turns, cells)?)?;
    Ok(())
}
