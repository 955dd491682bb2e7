// Branches and jumps at the edges of their reach, and one item past them.

ghost use Rattle.std.specs.Prelude.{◌≡◌, ◌+◌, ◌<◌, ◌≤◌};
ghost use Rattle.test_layout.specs.Spread.{GoesThere};

use crate::spread::words;
use rv32_isa::{BranchKind, Imm12, Imm20, Instr, OffB, OffJ, Reg, encode};
use rv32_items::{Cond, Item};
use std::alloc::{AllocError, Global};
use std::process::Abort;

fn branch(label: u32) -> Item
    ensures { result ≡ Item.Branch Cond.Lt 5 6 label }
{
    Item::Branch {
        cond: Cond::Lt,
        left: Reg(5),
        right: Reg(6),
        label,
    }
}

fn jump(link: u8, label: u32) -> Item
    requires { link < 32 }
    ensures { result ≡ Item.Jump link label }
{
    Item::Jump {
        link: Reg(link),
        label,
    }
}

/// The words begin with so many idle ones, and go on with these instructions and so many idle ones.
fn has(rt: &impl Abort, words: &[u32], before: u32, code: &[Instr], after: u32) {
    let before = before as usize;
    assert_eq!(rt;
        words.len(),
        before
            .saturating_add(code.len())
            .saturating_add(after as usize)
    );
    for (k, instr) in code.iter().enumerate() {
        assert_eq!(rt;
            words.get(before.saturating_add(k)).copied(),
            Some(encode(*instr))
        );
    }
}

/// The item has these instructions, between so many idle ones.
fn item_has(
    rt: &impl Abort,
    alloc: Global,
    before: u32,
    item: Item,
    after: u32,
    last: u32,
    code: &[Instr],
) -> Result<(), AllocError>
    requires goes { GoesThere last item }
    requires apart { 0 < last }
    requires few { before + after ≤ 1000000 }
{
    let words = words(alloc, before, item, after, last)?;
    has(rt, &words, before, code, after);
    Ok(())
}

#[test]
fn branches_back(rt: HostRuntime) -> Result<(), AllocError> {
    item_has(
        &rt,
        rt.alloc(),
        1024,
        branch(0),
        0,
        1,
        &[Instr::Branch(BranchKind::Blt, Reg(5), Reg(6), OffB(-4096))],
    )?;
    item_has(
        &rt,
        rt.alloc(),
        1025,
        branch(0),
        0,
        1,
        &[
            Instr::Branch(BranchKind::Bge, Reg(5), Reg(6), OffB(8)),
            Instr::Jal(Reg(0), OffJ(-4104)),
        ],
    )?;
    Ok(())
}

#[test]
fn branches_on(rt: HostRuntime) -> Result<(), AllocError> {
    item_has(
        &rt,
        rt.alloc(),
        0,
        branch(1),
        1022,
        1,
        &[Instr::Branch(BranchKind::Blt, Reg(5), Reg(6), OffB(4092))],
    )?;
    item_has(
        &rt,
        rt.alloc(),
        0,
        branch(1),
        1023,
        1,
        &[
            Instr::Branch(BranchKind::Bge, Reg(5), Reg(6), OffB(8)),
            Instr::Jal(Reg(0), OffJ(4096)),
        ],
    )?;
    Ok(())
}

#[test]
fn branches_over_jumps(rt: HostRuntime) -> Result<(), AllocError> {
    item_has(
        &rt,
        rt.alloc(),
        262143,
        branch(0),
        0,
        1,
        &[
            Instr::Branch(BranchKind::Bge, Reg(5), Reg(6), OffB(8)),
            Instr::Jal(Reg(0), OffJ(-1048576)),
        ],
    )?;
    item_has(
        &rt,
        rt.alloc(),
        262144,
        branch(0),
        0,
        1,
        &[
            Instr::Branch(BranchKind::Bge, Reg(5), Reg(6), OffB(12)),
            Instr::Auipc(Reg(7), Imm20(1048320)),
            Instr::Jalr(Reg(0), Reg(7), Imm12(-4)),
        ],
    )?;
    item_has(
        &rt,
        rt.alloc(),
        0,
        branch(1),
        262143,
        1,
        &[
            Instr::Branch(BranchKind::Bge, Reg(5), Reg(6), OffB(12)),
            Instr::Auipc(Reg(7), Imm20(256)),
            Instr::Jalr(Reg(0), Reg(7), Imm12(4)),
        ],
    )?;
    Ok(())
}

#[test]
fn jumps_back(rt: HostRuntime) -> Result<(), AllocError> {
    item_has(
        &rt,
        rt.alloc(),
        262144,
        jump(1, 0),
        0,
        1,
        &[Instr::Jal(Reg(1), OffJ(-1048576))],
    )?;
    item_has(
        &rt,
        rt.alloc(),
        262145,
        jump(1, 0),
        0,
        1,
        &[
            Instr::Auipc(Reg(1), Imm20(1048320)),
            Instr::Jalr(Reg(1), Reg(1), Imm12(-4)),
        ],
    )?;
    item_has(
        &rt,
        rt.alloc(),
        262145,
        jump(0, 0),
        0,
        1,
        &[
            Instr::Auipc(Reg(7), Imm20(1048320)),
            Instr::Jalr(Reg(0), Reg(7), Imm12(-4)),
        ],
    )?;
    Ok(())
}

#[test]
fn jumps_on(rt: HostRuntime) -> Result<(), AllocError> {
    item_has(
        &rt,
        rt.alloc(),
        0,
        jump(0, 1),
        262142,
        1,
        &[Instr::Jal(Reg(0), OffJ(1048572))],
    )?;
    item_has(
        &rt,
        rt.alloc(),
        0,
        jump(1, 1),
        262143,
        1,
        &[
            Instr::Auipc(Reg(1), Imm20(256)),
            Instr::Jalr(Reg(1), Reg(1), Imm12(4)),
        ],
    )?;
    Ok(())
}

#[test]
fn labels_with_large_numbers(rt: HostRuntime) -> Result<(), AllocError> {
    item_has(
        &rt,
        rt.alloc(),
        3,
        branch(4000000000),
        2,
        4000000000,
        &[Instr::Branch(BranchKind::Blt, Reg(5), Reg(6), OffB(12))],
    )?;
    item_has(
        &rt,
        rt.alloc(),
        3,
        branch(0),
        2,
        4000000000,
        &[Instr::Branch(BranchKind::Blt, Reg(5), Reg(6), OffB(-12))],
    )?;
    Ok(())
}
