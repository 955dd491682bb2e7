//! Makes words of so many blocks of eight items, and says how many words they are.
#![tactic(auto)]

ghost use Rattle.std.specs.Prelude.{◌≡◌, ◌≤◌, [], ◌∷◌, ◌++◌, IfOk, OnOk};
ghost use Rattle.test_layout.specs.Spread.{idle};
ghost use Rattle.layout_speed.specs.Blocks.{block, blocks, last_block, all_blocks};

use anyhow::Context;
use rv32_isa::{Imm12, ImmKind, Instr, Reg};
use rv32_items::{Asm, Cond, Item};
use seq::Seq;
use std::alloc::{AllocError, Global};
use std::env;

/// An instruction that does nothing.
fn idle() -> Instr
    ensures { Item.Plain result ≡ idle }
{
    Instr::OpImm(ImmKind::Addi, Reg(0), Reg(0), Imm12(0))
}

fn branch(label: u32) -> Item
    ensures { result ≡ Item.Branch Cond.Ne 5 6 label }
{
    Item::Branch {
        cond: Cond::Ne,
        left: Reg(5),
        right: Reg(6),
        label,
    }
}

fn call(label: u32) -> Item
    ensures { result ≡ Item.Jump 1 label }
{
    Item::Jump {
        link: Reg(1),
        label,
    }
}

fn put_block(items: &mut Seq<Item>, last: u32, k: u32) -> Result<(), AllocError>
    ensures { OnOk result (items.new ≡ items.old ++ block last k) }
{
    items.push(Item::Label(k))?;
    items.push(Item::Plain(idle()))?;
    items.push(Item::Plain(idle()))?;
    items.push(Item::Plain(idle()))?;
    items.push(branch(k))?;
    items.push(Item::Plain(idle()))?;
    items.push(branch(last))?;
    items.push(call(last))
}

fn put_blocks(items: &mut Seq<Item>, count: u32) -> Result<(), AllocError>
    ensures { OnOk result (items.new ≡ items.old ++ blocks count count) }
{
    for k in 0..count {
        put_block(items, count, k)?;
    }
    Ok(())
}

fn put_last(items: &mut Seq<Item>, count: u32) -> Result<(), AllocError>
    ensures { OnOk result (items.new ≡ items.old ++ last_block count) }
{
    items.push(Item::Label(count))?;
    items.push(Item::Plain(idle()))
}

fn all_blocks(alloc: Global, count: u32) -> Result<Asm, AllocError>
    ensures { IfOk result (λ asm. asm.items ≡ all_blocks count) }
{
    let mut items = Seq::new(alloc);
    put_blocks(&mut items, count)?;
    put_last(&mut items, count)?;
    Ok(Asm { items })
}

/// The words of so many blocks.
fn words(alloc: Global, count: u32) -> Result<Vec<u32>, AllocError>
    requires { count ≤ 10000000 }
{
    let asm = all_blocks(alloc, count)?;
    let placement = rv32_layout::place(alloc, &asm, 0)?;
    Ok(placement.words)
}

fn main(rt: HostRuntime) -> anyhow::Result<()> {
    let mut arguments = env::args(&rt)?;
    let _name = arguments.next();
    let count = arguments.next().context("how many blocks?")?;
    let count = count.parse::<u32>()?;
    if count <= 10000000 {
        println!(rt; "{}", words(rt.alloc(), count)?.len())?;
    }
    Ok(())
}
