//! Words for items: each item gets an address, and instructions that do what it says.
#![tactic(auto)]

ghost use Rattle.std.specs.Prelude.{◌≡◌, ◌≤◌, ◌<◌, ℕ, length, IfOk};
ghost use Rattle.rv32_items.specs.Placed.{size_of, times, AllPlain, LabelsStand};
ghost use Rattle.rv32_layout.specs.Addresses.{IsPlacement};
ghost use Rattle.rv32_layout.specs.Places.{AllDecode, IsShort};
ghost use Rattle.limits.specs.Limits.{most_code};

mod code;
mod form;
mod instructions;
mod labels;
mod plan;
mod spots;

use plan::LayoutPlan;
use rv32_items::Asm;
use std::alloc::{AllocError, Global};

/// Items as they are placed.
#[derive(Drop)]
pub struct Placement {
    /// The words of the items.
    pub words: Vec<u32>,
    /// Where the labels 0, 1 and so on stand, as many as were asked for.
    pub addresses: Vec<u32>,
}

/// The words of the items, of which the first stands where code starts, and the addresses of the
/// first `labels` labels. The words do what the items do, and each is that of an instruction. A
/// branch or a jump takes the short form wherever its label is sure to be in reach, and longer ones
/// elsewhere; these change x7, unless a jump links another register, and x0, which reads zero.
/// `AllocError` where memory is wanting.
pub fn place(alloc: Global, asm: &Asm, labels: u32) -> Result<Placement, AllocError>
    requires labels { LabelsStand asm.now.items }
    requires plain { AllPlain asm.now.items }
    requires size { size_of asm.now.items ≤ most_code }
    requires asked { (l : ℕ) → l < labels → times l asm.now.items ≡ 1 }
    ensures placed { IfOk result (IsPlacement asm.now.items labels) }
    ensures decode { IfOk result (λ placement. AllDecode placement.words.items) }
    ensures short { IfOk result (λ placement. IsShort asm.now.items placement.words.items) }
{
    let items = asm.items.as_slice();
    let plan = LayoutPlan::short(alloc, items)?;
    let words = code::words(alloc, items, &plan)?;
    let addresses = labels::addresses(alloc, labels, &plan.spots)?;
    Ok(Placement { words, addresses })
}
