// The instructions of an item. Words are counted from the first one of the code.

ghost use Rattle.std.specs.Prelude.{◌≡◌, ◌≤◌, ◌<◌, ◌+◌, [], ◌∷◌, OnOk, nat_eq, if◌then◌else◌};
ghost use Rattle.rv32_isa.specs.Bits.{IsOffB, IsOffJ, lower};
ghost use Rattle.rv32_items.specs.Course.{kind_of};
ghost use Rattle.rv32_layout.specs.Forms.{Within, branch_range, jump_range, offset, distance, upper, opposite, carrier, by_address, branch_code, jump_code, instructions, BranchGoes, JumpGoes, CanGo};
ghost use Rattle.rv32_layout.specs.Places.{AppendsInstructions};
ghost use Rattle.limits.specs.Limits.{most_code};

use crate::form::Way;
use rv32_isa::{BranchKind, Imm12, Imm20, Instr, OffB, OffJ, Reg, encode};
use rv32_items::{Cond, Item};
use std::alloc::AllocError;

/// Puts the instructions of an item at the end: its first word is word `at`, and it goes to word
/// `to`.
pub fn put(words: &mut Vec<u32>, way: Way, at: u32, to: u32, item: &Item) -> Result<(), AllocError>
    requires room { (at ≤ most_code) × (to ≤ most_code) }
    requires reach { CanGo way at to item.now }
    ensures { OnOk result (AppendsInstructions (instructions way at to item.now) words.old.items words.new.items) }
{
    match item {
        Item::Label(_) => Ok(()),
        Item::Plain(instr) => push(words, *instr),
        Item::Branch {
            cond,
            left,
            right,
            ..
        } => put_branch(words, way, at, to, *cond, *left, *right),
        Item::Jump { link, .. } => put_jump(words, way, at, to, *link),
    }
}

fn put_branch(
    words: &mut Vec<u32>,
    way: Way,
    at: u32,
    to: u32,
    cond: Cond,
    left: Reg,
    right: Reg,
) -> Result<(), AllocError>
    requires room { (at ≤ most_code) × (to ≤ most_code) }
    requires reach { BranchGoes way at to }
    ensures { OnOk result (AppendsInstructions (branch_code way at to cond left right) words.old.items
        words.new.items) }
{
    match way {
        Way::ByBranch => push(
            words,
            Instr::Branch(kind(cond), left, right, branch_offset(at, to)),
        ),
        Way::ByJump => {
            push(
                words,
                Instr::Branch(kind(opposite(cond)), left, right, OffB(8)),
            )?;
            push(words, Instr::Jal(Reg(0), jump_offset(at + 1, to)))
        }
        Way::ByAddress => {
            push(
                words,
                Instr::Branch(kind(opposite(cond)), left, right, OffB(12)),
            )?;
            put_by_address(words, Reg(7), Reg(0), at + 1, to)
        }
    }
}

fn put_jump(words: &mut Vec<u32>, way: Way, at: u32, to: u32, link: Reg) -> Result<(), AllocError>
    requires room { (at ≤ most_code) × (to ≤ most_code) }
    requires reach { JumpGoes way at to }
    ensures { OnOk result (AppendsInstructions (jump_code way at to link) words.old.items words.new.items) }
{
    match way {
        Way::ByBranch | Way::ByJump => push(words, Instr::Jal(link, jump_offset(at, to))),
        Way::ByAddress => put_by_address(words, carrier(link), link, at, to),
    }
}

/// Puts a jump by an address in the register `through`.
fn put_by_address(
    words: &mut Vec<u32>,
    through: Reg,
    link: Reg,
    from: u32,
    to: u32,
) -> Result<(), AllocError>
    requires { (from ≤ 1 + most_code) × (to ≤ most_code) }
    ensures { OnOk result (AppendsInstructions (by_address through link from to) words.old.items words.new.items) }
{
    let distance = distance(from, to);
    push(words, Instr::Auipc(through, upper(distance)))?;
    push(words, Instr::Jalr(link, through, lower(distance)))
}

fn push(words: &mut Vec<u32>, instr: Instr) -> Result<(), AllocError>
    ensures { OnOk result (AppendsInstructions (instr ∷ []) words.old.items words.new.items) }
{
    words.push(encode(instr))?;
    Ok(())
}

fn carrier(link: Reg) -> Reg
    ensures { result ≡ carrier link }
{
    if link.0 == 0 { Reg(7) } else { link }
}

fn branch_offset(from: u32, to: u32) -> OffB
    requires room { (from ≤ 1 + most_code) × (to ≤ most_code) }
    requires reach { Within branch_range from to }
    ensures { result ≡ offset from to }
{
    OffB(offset(from, to))
}

fn jump_offset(from: u32, to: u32) -> OffJ
    requires room { (from ≤ 1 + most_code) × (to ≤ most_code) }
    requires reach { Within jump_range from to }
    ensures { result ≡ offset from to }
{
    OffJ(offset(from, to))
}

fn offset(from: u32, to: u32) -> i32
    requires { (from ≤ 1 + most_code) × (to ≤ most_code) }
    ensures { result ≡ offset from to }
{
    4 * (to as i32 - from as i32)
}

fn distance(from: u32, to: u32) -> u32
    requires { (from ≤ 1 + most_code) × (to ≤ most_code) }
    ensures { result ≡ distance from to }
{
    (4 * to).wrapping_sub(4 * from)
}

fn upper(distance: u32) -> Imm20
    ensures { result ≡ upper distance }
{
    Imm20(distance.wrapping_add(2048) / 4096)
}

fn lower(distance: u32) -> Imm12
    ensures { result ≡ lower distance }
{
    let low = (distance % 4096) as i32;
    Imm12(if low < 2048 { low } else { low - 4096 })
}

fn opposite(cond: Cond) -> Cond
    ensures { result ≡ opposite cond }
{
    match cond {
        Cond::Eq => Cond::Ne,
        Cond::Ne => Cond::Eq,
        Cond::Lt => Cond::Ge,
        Cond::Ge => Cond::Lt,
        Cond::Ltu => Cond::Geu,
        Cond::Geu => Cond::Ltu,
    }
}

fn kind(cond: Cond) -> BranchKind
    ensures { result ≡ kind_of cond }
{
    match cond {
        Cond::Eq => BranchKind::Beq,
        Cond::Ne => BranchKind::Bne,
        Cond::Lt => BranchKind::Blt,
        Cond::Ge => BranchKind::Bge,
        Cond::Ltu => BranchKind::Bltu,
        Cond::Geu => BranchKind::Bgeu,
    }
}
