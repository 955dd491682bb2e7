//! Instruction selection: the items that do what low code does.
#![tactic(auto)]

ghost use Rattle.std.specs.Prelude.{IfOk};
ghost use Rattle.low_code.specs.Tree.{program_of};
ghost use Rattle.low_code.specs.Run.{NeverMissing};
ghost use Rattle.rv32_select.specs.Selectable.{Selectable};
ghost use Rattle.rv32_select.specs.IsSelected.{IsSelected};
ghost use Rattle.rv32_select.specs.Selects.{Selects};

use crate::blocks::Selection;
use crate::code::Code;
use crate::context::Context;
use crate::framing::words_spared_by_base;
use low_code::Low;
use register_alloc::Places;
use rv32_items::Asm;
use std::alloc::{AllocError, Global};

mod blocks;
mod code;
mod context;
mod decides;
mod framing;
mod laws;
mod links;
mod procedures;
mod rare;
mod search;
mod slots;
mod source;
mod statements;

pub use laws::selection_refines;
pub use source::{Continuation, Source};

/// The items of a program over its places, for a heap of so many cells and frames of so many bytes.
/// Where the program is never missing, they do what it does. `AllocError` where memory is wanting.
pub fn select(
    alloc: Global,
    low: &Low,
    places: &Places,
    cells: u32,
    stack: u32,
) -> Result<Asm, AllocError>
    requires { Selectable (program_of low.now) places.now cells stack }
    ensures selected { IfOk result (λ asm.
        IsSelected (program_of low.now) places.now cells stack asm.items) }
    ensures does { IfOk result (λ asm. NeverMissing (program_of low.now)
        → Selects (program_of low.now) places.now cells stack asm.items) }
{
    let context = Context {
        alloc,
        low,
        places,
        cells,
        stack,
    };
    let lasting = context.is_lasting();
    let mut out = Selection {
        code: Code::new(alloc),
        next: 3 + low.procs.len() as u32,
        spared: words_spared_by_base(lasting, low.procs.len() as u32),
    };
    context.start_up(&mut out.code)?;
    context.first_call(&mut out.code, lasting)?;
    for proc in 0..low.procs.len() {
        context.procedure(&mut out, lasting, proc as u32)?;
    }
    context.stops(&mut out.code)?;
    Ok(Asm {
        items: out.code.into_items(),
    })
}
