// A case of many alternatives, as the code of procedures has it, and a branch over all of them.

ghost use Rattle.std.specs.Prelude.{◌≡◌, ◌≤◌, ◌<◌, [], ◌∷◌, ◌++◌, IfOk, OnOk};
ghost use Rattle.test_layout.specs.Alternatives.{number, alternative, alternatives, first_items, last_items, chosen};

use anyhow::bail;
use grin_io::{MemSink, MemSource};
use rv32_isa::{BranchKind, Imm12, ImmKind, Instr, OffB, OffJ, Reg, encode};
use rv32_items::{Asm, Cond, Item};
use rv32_layout::place;
use rv32_machine::{Machine, Stop};
use seq::Seq;
use std::alloc::{AllocError, Global};
use std::process::Abort;

/// The words of a case of so many alternatives for the numbers below, which is done on a value.
fn words(alloc: Global, count: u32, value: u32) -> Result<Vec<u32>, AllocError>
    requires { (count ≤ 1000) × (value ≤ 1000) }
{
    let asm = chosen(alloc, count, value)?;
    let placement = place(alloc, &asm, 0)?;
    Ok(placement.words)
}

fn chosen(alloc: Global, count: u32, value: u32) -> Result<Asm, AllocError>
    requires { (count ≤ 1000) × (value ≤ 1000) }
    ensures { IfOk result (λ asm. asm.items ≡ chosen count value) }
{
    let mut items = Seq::new(alloc);
    put_first(&mut items, count, value)?;
    put_alternatives(&mut items, count)?;
    put_last(&mut items, count)?;
    Ok(Asm { items })
}

fn put_first(items: &mut Seq<Item>, count: u32, value: u32) -> Result<(), AllocError>
    requires { (count ≤ 1000) × (value ≤ 1000) }
    ensures { OnOk result (items.new ≡ items.old ++ first_items count value) }
{
    items.push(Item::Plain(number(Reg(5), value)))?;
    items.push(Item::Plain(number(Reg(6), count)))?;
    items.push(branch(Cond::Geu, count))
}

fn put_alternatives(items: &mut Seq<Item>, count: u32) -> Result<(), AllocError>
    requires { count ≤ 1000 }
    ensures { OnOk result (items.new ≡ items.old ++ alternatives count count) }
{
    for k in 0..count {
        put_alternative(items, count, k)?;
    }
    Ok(())
}

fn put_alternative(items: &mut Seq<Item>, over: u32, k: u32) -> Result<(), AllocError>
    requires { k ≤ 1000 }
    ensures { OnOk result (items.new ≡ items.old ++ alternative over k) }
{
    items.push(Item::Plain(number(Reg(6), k)))?;
    items.push(branch(Cond::Ne, k))?;
    items.push(Item::Plain(number(Reg(10), k)))?;
    items.push(jump(over))?;
    items.push(Item::Label(k))
}

fn put_last(items: &mut Seq<Item>, count: u32) -> Result<(), AllocError>
    ensures { OnOk result (items.new ≡ items.old ++ last_items count) }
{
    items.push(Item::Label(count))?;
    items.push(Item::Plain(number(Reg(17), 93)))?;
    items.push(Item::Plain(Instr::Ecall))
}

/// A register gets a number.
fn number(register: Reg, k: u32) -> Instr
    requires { k ≤ 1000 }
    ensures { Item.Plain result ≡ number register k }
{
    Instr::OpImm(ImmKind::Addi, register, Reg(0), Imm12(k as i32))
}

fn branch(cond: Cond, label: u32) -> Item
    ensures { result ≡ Item.Branch cond 5 6 label }
{
    Item::Branch {
        cond,
        left: Reg(5),
        right: Reg(6),
        label,
    }
}

fn jump(label: u32) -> Item
    ensures { result ≡ Item.Jump 0 label }
{
    Item::Jump {
        link: Reg(0),
        label,
    }
}

/// How a program ends that has these words.
fn end(alloc: Global, words: &[u32]) -> anyhow::Result<Stop> {
    if words.is_empty() || words.len() > 100000 {
        bail!("no program of this size");
    }
    let file = elf32::write(alloc, words, 0, 4096)?;
    let mut machine = Machine::load(alloc, &elf32::read(alloc, &file)?)?;
    let mut input = MemSource::new(Vec::new(alloc), Vec::new(alloc));
    let mut out = MemSink::new(alloc, 0, Vec::new(alloc))?;
    match machine.run(10000, &mut input, &mut out) {
        Ok(stop) => Ok(stop),
        Err(_) => bail!("a fault"),
    }
}

/// The instructions of an alternative, whose jump goes so many words on.
fn alternative(k: u32, over: u32) -> [Instr; 4]
    requires { (k ≤ 1000) × (over ≤ 5000) }
{
    [
        Instr::OpImm(ImmKind::Addi, Reg(6), Reg(0), Imm12(k as i32)),
        Instr::Branch(BranchKind::Bne, Reg(5), Reg(6), OffB(12)),
        Instr::OpImm(ImmKind::Addi, Reg(10), Reg(0), Imm12(k as i32)),
        Instr::Jal(Reg(0), OffJ(4 * over as i32)),
    ]
}

/// The case has so many words, and ends so.
fn case_ends(
    rt: &impl Abort,
    alloc: Global,
    count: u32,
    value: u32,
    size: usize,
    stop: Stop,
) -> anyhow::Result<()>
    requires { (count ≤ 1000) × (value ≤ 1000) }
{
    let words = words(alloc, count, value)?;
    assert_eq!(rt; words.len(), size);
    assert_eq!(rt; end(alloc, &words)?, stop);
    Ok(())
}

/// The words at a place have these instructions.
fn has(rt: &impl Abort, words: &[u32], at: usize, code: &[Instr]) {
    for (n, instr) in code.iter().enumerate() {
        let place = at.saturating_add(n);
        assert_eq!(rt; words.get(place).copied(), Some(encode(*instr)), "{place}");
    }
}

#[test]
fn three_hundred_alternatives(rt: HostRuntime) -> anyhow::Result<()> {
    case_ends(&rt, rt.alloc(), 300, 299, 1206, Stop::Exit(299))
}

/// The branch over all is a short one over a jump, and so are the ends of the alternatives jumps.
#[test]
fn words_of_three_hundred_alternatives(rt: HostRuntime) -> anyhow::Result<()> {
    let words = words(rt.alloc(), 300, 299)?;
    let over = [
        Instr::Branch(BranchKind::Bltu, Reg(5), Reg(6), OffB(8)),
        Instr::Jal(Reg(0), OffJ(4804)),
    ];
    has(&rt, &words, 2, &over);
    for k in 0..300 {
        has(
            &rt,
            &words,
            4 + 4 * k as usize,
            &alternative(k, 1197 - 4 * k),
        );
    }
    Ok(())
}

/// By the longest ways the end isn't in reach of the first branch.
#[test]
fn near_once_all_is_short(rt: HostRuntime) -> anyhow::Result<()> {
    let words = words(rt.alloc(), 150, 149)?;
    let over = Instr::Branch(BranchKind::Bgeu, Reg(5), Reg(6), OffB(2404));
    has(&rt, &words, 2, &[over]);
    case_ends(&rt, rt.alloc(), 150, 149, 605, Stop::Exit(149))
}

#[test]
fn no_alternative(rt: HostRuntime) -> anyhow::Result<()> {
    case_ends(&rt, rt.alloc(), 300, 300, 1206, Stop::Exit(0))
}
