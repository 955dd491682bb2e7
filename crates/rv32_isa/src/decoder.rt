//! The instruction of a word.

ghost use Rattle.std.specs.Prelude.{◌≡◌, ◌*◌, ◌<◌, None, ◌≢◌, IfSome};
ghost use Rattle.rv32_isa.specs.declared.instr.Instr.{Instr};
ghost use Rattle.rv32_isa.specs.Bits.{signed_part};
ghost use Rattle.rv32_isa.specs.Table.{word_of, op_kind, branch_kind, load_kind, store_kind, imm_kind, shift_kind, instr_with, instr_of, jump_offset, branch_offset, InRange};

use crate::fields::{Amount, Imm12, Imm20, OffB, OffJ, Reg, Top};
use crate::instr::{BranchKind, ImmKind, Instr, LoadKind, OpKind, ShiftKind, StoreKind};

/// The instruction of a word of 32 bits, or `None` where no instruction of RV32IM has this word.
/// The instruction has exactly this word again.
pub fn decode(word: u32) -> Option<Instr>
    ensures value { result ≡ instr_of word }
    ensures row { IfSome result (λ i. (word_of i ≡ word) × InRange i) }
    ensures no_row { result ≡ None → (i : Instr) → InRange i → word_of i ≢ word }
{
    instr_at(word)
}

#[tactic(auto, unfolding(crate::specs::Table::instr_of))]
fn instr_at(word: u32) -> Option<Instr>
    ensures { result ≡ instr_of word }
{
    instr_with(
        word % 128,
        word / 128 % 32,
        word / 4096 % 8,
        word / 32768 % 32,
        word / 1048576 % 32,
        word / 33554432,
    )
}

#[tactic(auto, unfolding(crate::specs::Table::instr_with))]
fn instr_with(opcode: u32, rd: u32, funct3: u32, rs1: u32, rs2: u32, funct7: u32) -> Option<Instr>
    requires { (opcode < 128) × (rd < 32) × (funct3 < 8) × (rs1 < 32) × (rs2 < 32)
        × (funct7 < 128) }
    ensures { result ≡ instr_with opcode rd funct3 rs1 rs2 funct7 }
{
    let upper = funct3 + 8 * (rs1 + 32 * (rs2 + 32 * funct7));
    let imm = imm12(rs2 + 32 * funct7);
    match opcode {
        0x37 => Some(Instr::Lui(register(rd), Imm20(upper))),
        0x17 => Some(Instr::Auipc(register(rd), Imm20(upper))),
        0x6F => Some(Instr::Jal(register(rd), jump_offset(upper))),
        0x67 if funct3 == 0 => Some(Instr::Jalr(register(rd), register(rs1), imm)),
        0x63 => {
            let kind = branch_kind(funct3)?;
            let off = branch_offset(rd, funct7);
            Some(Instr::Branch(kind, register(rs1), register(rs2), off))
        }
        0x03 => {
            let kind = load_kind(funct3)?;
            Some(Instr::Load(kind, register(rd), register(rs1), imm))
        }
        0x23 => {
            let kind = store_kind(funct3)?;
            let imm = imm12(rd + 32 * funct7);
            Some(Instr::Store(kind, register(rs2), register(rs1), imm))
        }
        0x13 if funct3 % 4 == 1 => {
            let kind = shift_kind(funct3, funct7)?;
            Some(Instr::Shift(kind, register(rd), register(rs1), Amount(rs2 as u8)))
        }
        0x13 => {
            let kind = imm_kind(funct3)?;
            Some(Instr::OpImm(kind, register(rd), register(rs1), imm))
        }
        0x33 => {
            let kind = op_kind(funct3, funct7)?;
            Some(Instr::Op(kind, register(rd), register(rs1), register(rs2)))
        }
        0x0F if funct3 == 0 => {
            let top = Top((rs2 + 32 * funct7) as u16);
            Some(Instr::Fence(top, register(rs1), register(rd)))
        }
        0x73 if rd == 0 && funct3 == 0 && rs1 == 0 && funct7 == 0 => match rs2 {
            0 => Some(Instr::Ecall),
            1 => Some(Instr::Ebreak),
            _ => None,
        },
        _ => None,
    }
}

fn register(number: u32) -> Reg
    requires { number < 32 }
    ensures { result ≡ number }
{
    Reg(number as u8)
}

fn imm12(u: u32) -> Imm12
    requires { u < 4096 }
    ensures { result ≡ signed_part 4096 u }
{
    Imm12(signed_part(2048, u))
}

fn jump_offset(u: u32) -> OffJ
    requires { u < 1048576 }
    ensures { result ≡ jump_offset u }
{
    let pattern = 2 * (u / 512 % 1024)
        + 2048 * (u / 256 % 2)
        + 4096 * (u % 256)
        + 1048576 * (u / 524288);
    OffJ(signed_part(1048576, pattern))
}

fn branch_offset(rd: u32, funct7: u32) -> OffB
    requires { (rd < 32) × (funct7 < 128) }
    ensures { result ≡ branch_offset rd funct7 }
{
    let pattern = 2 * (rd / 2) + 32 * (funct7 % 64) + 2048 * (rd % 2) + 4096 * (funct7 / 64);
    OffB(signed_part(4096, pattern))
}

fn signed_part(half: u32, u: u32) -> i32
    requires { (half < 1073741824) × (u < 2 * half) }
    ensures { result ≡ signed_part (2 * half) u }
{
    if u < half {
        u as i32
    } else {
        u as i32 - 2 * half as i32
    }
}

#[tactic(auto, unfolding(crate::specs::Table::op_kind))]
fn op_kind(funct3: u32, funct7: u32) -> Option<OpKind>
    ensures { result ≡ op_kind funct3 funct7 }
{
    match (funct7, funct3) {
        (0, 0) => Some(OpKind::Add),
        (0, 1) => Some(OpKind::Sll),
        (0, 2) => Some(OpKind::Slt),
        (0, 3) => Some(OpKind::Sltu),
        (0, 4) => Some(OpKind::Xor),
        (0, 5) => Some(OpKind::Srl),
        (0, 6) => Some(OpKind::Or),
        (0, 7) => Some(OpKind::And),
        (0x20, 0) => Some(OpKind::Sub),
        (0x20, 5) => Some(OpKind::Sra),
        (1, 0) => Some(OpKind::Mul),
        (1, 1) => Some(OpKind::Mulh),
        (1, 2) => Some(OpKind::Mulhsu),
        (1, 3) => Some(OpKind::Mulhu),
        (1, 4) => Some(OpKind::Div),
        (1, 5) => Some(OpKind::Divu),
        (1, 6) => Some(OpKind::Rem),
        (1, 7) => Some(OpKind::Remu),
        _ => None,
    }
}

#[tactic(auto, unfolding(crate::specs::Table::imm_kind))]
fn imm_kind(funct3: u32) -> Option<ImmKind>
    ensures { result ≡ imm_kind funct3 }
{
    match funct3 {
        0 => Some(ImmKind::Addi),
        2 => Some(ImmKind::Slti),
        3 => Some(ImmKind::Sltiu),
        4 => Some(ImmKind::Xori),
        6 => Some(ImmKind::Ori),
        7 => Some(ImmKind::Andi),
        _ => None,
    }
}

#[tactic(auto, unfolding(crate::specs::Table::branch_kind))]
fn branch_kind(funct3: u32) -> Option<BranchKind>
    ensures { result ≡ branch_kind funct3 }
{
    match funct3 {
        0 => Some(BranchKind::Beq),
        1 => Some(BranchKind::Bne),
        4 => Some(BranchKind::Blt),
        5 => Some(BranchKind::Bge),
        6 => Some(BranchKind::Bltu),
        7 => Some(BranchKind::Bgeu),
        _ => None,
    }
}

#[tactic(auto, unfolding(crate::specs::Table::load_kind))]
fn load_kind(funct3: u32) -> Option<LoadKind>
    ensures { result ≡ load_kind funct3 }
{
    match funct3 {
        0 => Some(LoadKind::Lb),
        1 => Some(LoadKind::Lh),
        2 => Some(LoadKind::Lw),
        4 => Some(LoadKind::Lbu),
        5 => Some(LoadKind::Lhu),
        _ => None,
    }
}

#[tactic(auto, unfolding(crate::specs::Table::store_kind))]
fn store_kind(funct3: u32) -> Option<StoreKind>
    ensures { result ≡ store_kind funct3 }
{
    match funct3 {
        0 => Some(StoreKind::Sb),
        1 => Some(StoreKind::Sh),
        2 => Some(StoreKind::Sw),
        _ => None,
    }
}

#[tactic(auto, unfolding(crate::specs::Table::shift_kind))]
fn shift_kind(funct3: u32, funct7: u32) -> Option<ShiftKind>
    ensures { result ≡ shift_kind funct3 funct7 }
{
    match (funct3, funct7) {
        (1, 0) => Some(ShiftKind::Slli),
        (5, 0) => Some(ShiftKind::Srli),
        (5, 0x20) => Some(ShiftKind::Srai),
        _ => None,
    }
}
