// An item between two labels, far from either.

ghost use Rattle.std.specs.Prelude.{◌≡◌, ◌+◌, ◌<◌, ◌≤◌, IfOk, OnOk, ◌++◌, replicate};
ghost use Rattle.test_layout.specs.Spread.{spread, GoesThere};

use rv32_isa::{Imm12, ImmKind, Instr, Reg};
use rv32_items::{Asm, Item};
use rv32_layout::place;
use seq::Seq;
use std::alloc::{AllocError, Global};

/// The words of label 0, so many idle instructions, the item, so many again, and a last label.
pub fn words(
    alloc: Global,
    before: u32,
    item: Item,
    after: u32,
    last: u32,
) -> Result<Vec<u32>, AllocError>
    requires goes { GoesThere last item }
    requires apart { 0 < last }
    requires few { before + after ≤ 1000000 }
{
    let asm = spread(alloc, before, &item, after, last)?;
    let placement = place(alloc, &asm, 0)?;
    Ok(placement.words)
}

fn spread(alloc: Global, before: u32, item: &Item, after: u32, last: u32) -> Result<Asm, AllocError>
    ensures { IfOk result (λ asm. asm.items ≡ spread before after last item.now) }
{
    let idle = Instr::OpImm(ImmKind::Addi, Reg(0), Reg(0), Imm12(0));
    let mut items = Seq::new(alloc);
    items.push(Item::Label(0))?;
    repeat(&mut items, &idle, before)?;
    items.push(*item)?;
    repeat(&mut items, &idle, after)?;
    items.push(Item::Label(last))?;
    Ok(Asm { items })
}

/// Puts an instruction at the end so many times.
fn repeat(items: &mut Seq<Item>, instr: &Instr, count: u32) -> Result<(), AllocError>
    ensures { OnOk result (items.new ≡ items.old ++ replicate count (Item.Plain instr.now)) }
{
    for _ in 0..count {
        items.push(Item::Plain(*instr))?;
    }
    Ok(())
}
