//! The word of an instruction.

ghost use Rattle.std.specs.Prelude.{◌≡◌, pos, ◌*◌, ◌<◌, Some, neg_ℤ, ◌≤ℤ◌};
ghost use Rattle.rv32_isa.specs.Bits.{unsigned_part};
ghost use Rattle.rv32_isa.specs.Table.{word_with, word_of, instr_of, word_imm, word_upper, jump_bits, branch_funct3, load_funct3, store_funct3, imm_funct3, shift_funct3, shift_funct7, op_funct3, op_funct7, InRange};

use crate::fields::{Imm12, OffJ, Reg};
use crate::instr::{BranchKind, ImmKind, Instr, LoadKind, OpKind, ShiftKind, StoreKind};

/// The word of 32 bits of an instruction, which decodes to the instruction.
pub fn encode(instr: Instr) -> u32
    ensures word { result ≡ word_of instr }
    ensures again { instr_of result ≡ Some instr }
{
    in_range(&instr);
    word_of(instr)
}

/// The numbers of an instruction are in their ranges.
fn in_range(instr: &Instr)
    ensures { InRange instr.now }
{
    match instr {
        Instr::Lui(rd, imm) | Instr::Auipc(rd, imm) => {
            let _ = (rd.0, imm.0);
        }
        Instr::Jal(rd, off) => {
            let _ = (rd.0, off.0);
        }
        Instr::Jalr(rd, rs1, imm) => {
            let _ = (rd.0, rs1.0, imm.0);
        }
        Instr::Branch(_, rs1, rs2, off) => {
            let _ = (rs1.0, rs2.0, off.0);
        }
        Instr::Load(_, rd, rs1, imm)
        | Instr::Store(_, rd, rs1, imm)
        | Instr::OpImm(_, rd, rs1, imm) => {
            let _ = (rd.0, rs1.0, imm.0);
        }
        Instr::Shift(_, rd, rs1, amount) => {
            let _ = (rd.0, rs1.0, amount.0);
        }
        Instr::Op(_, rd, rs1, rs2) => {
            let _ = (rd.0, rs1.0, rs2.0);
        }
        Instr::Fence(top, rs1, rd) => {
            let _ = (top.0, rs1.0, rd.0);
        }
        Instr::Ecall | Instr::Ebreak => {}
    }
}

fn word_of(instr: Instr) -> u32
    ensures { result ≡ word_of instr }
{
    match instr {
        Instr::Lui(rd, imm) => word_upper(0x37, rd, imm.0),
        Instr::Auipc(rd, imm) => word_upper(0x17, rd, imm.0),
        Instr::Jal(rd, off) => word_upper(0x6F, rd, jump_bits(off)),
        Instr::Jalr(rd, rs1, imm) => word_imm12(0x67, rd, 0, rs1, imm),
        Instr::Branch(kind, rs1, rs2, off) => {
            let u = unsigned_part(8192, off.0);
            let low = u / 2048 % 2 + 2 * (u / 2 % 16);
            word_with(
                0x63,
                low,
                branch_funct3(kind),
                rs1.0 as u32,
                rs2.0 as u32,
                u / 32 % 64 + 64 * (u / 4096),
            )
        }
        Instr::Load(kind, rd, rs1, imm) => word_imm12(0x03, rd, load_funct3(kind), rs1, imm),
        Instr::Store(kind, rs2, rs1, imm) => {
            let u = unsigned_part(4096, imm.0);
            word_with(
                0x23,
                u % 32,
                store_funct3(kind),
                rs1.0 as u32,
                rs2.0 as u32,
                u / 32,
            )
        }
        Instr::OpImm(kind, rd, rs1, imm) => word_imm12(0x13, rd, imm_funct3(kind), rs1, imm),
        Instr::Shift(kind, rd, rs1, amount) => {
            let functs = shift_functs(kind);
            word_with(
                0x13,
                rd.0 as u32,
                functs.0,
                rs1.0 as u32,
                amount.0 as u32,
                functs.1,
            )
        }
        Instr::Op(kind, rd, rs1, rs2) => {
            let functs = op_functs(kind);
            word_with(
                0x33,
                rd.0 as u32,
                functs.0,
                rs1.0 as u32,
                rs2.0 as u32,
                functs.1,
            )
        }
        Instr::Fence(top, rs1, rd) => word_imm(0x0F, rd, 0, rs1, top.0 as u32),
        Instr::Ecall => 0x0000_0073,
        Instr::Ebreak => 0x0010_0073,
    }
}

fn word_imm12(opcode: u32, rd: Reg, funct3: u32, rs1: Reg, imm: Imm12) -> u32
    requires { (opcode < 128) × (funct3 < 8) }
    ensures { result ≡ word_imm opcode rd funct3 rs1 (unsigned_part 4096 imm) }
{
    word_imm(opcode, rd, funct3, rs1, unsigned_part(4096, imm.0))
}

fn word_imm(opcode: u32, rd: Reg, funct3: u32, rs1: Reg, upper: u32) -> u32
    requires { (opcode < 128) × (funct3 < 8) × (upper < 4096) }
    ensures { result ≡ word_imm opcode rd funct3 rs1 upper }
{
    word_with(
        opcode,
        rd.0 as u32,
        funct3,
        rs1.0 as u32,
        upper % 32,
        upper / 32,
    )
}

fn word_upper(opcode: u32, rd: Reg, upper: u32) -> u32
    requires { (opcode < 128) × (upper < 1048576) }
    ensures { result ≡ word_upper opcode rd upper }
{
    word_with(
        opcode,
        rd.0 as u32,
        upper % 8,
        upper / 8 % 32,
        upper / 256 % 32,
        upper / 8192,
    )
}

#[tactic(auto, unfolding(crate::specs::Table::word_with))]
fn word_with(opcode: u32, rd: u32, funct3: u32, rs1: u32, rs2: u32, funct7: u32) -> u32
    requires { (opcode < 128) × (rd < 32) × (funct3 < 8) × (rs1 < 32) × (rs2 < 32)
        × (funct7 < 128) }
    ensures { result ≡ word_with opcode rd funct3 rs1 rs2 funct7 }
{
    opcode + 128 * (rd + 32 * (funct3 + 8 * (rs1 + 32 * (rs2 + 32 * funct7))))
}

fn jump_bits(off: OffJ) -> u32
    ensures { (result ≡ jump_bits (unsigned_part 2097152 off)) × (result < 1048576) }
{
    let u = unsigned_part(2097152, off.0);
    u / 4096 % 256 + 256 * (u / 2048 % 2 + 2 * (u / 2 % 1024 + 1024 * (u / 1048576)))
}

fn unsigned_part(m: u32, z: i32) -> u32
    requires { (m < 2147483648) × (neg_ℤ (pos m) ≤ℤ z) }
    ensures { result ≡ unsigned_part m z }
{
    if z < 0 {
        (z + m as i32) as u32
    } else {
        z as u32
    }
}

fn branch_funct3(kind: BranchKind) -> u32
    ensures { (result ≡ branch_funct3 kind) × (result < 8) }
{
    match kind {
        BranchKind::Beq => 0,
        BranchKind::Bne => 1,
        BranchKind::Blt => 4,
        BranchKind::Bge => 5,
        BranchKind::Bltu => 6,
        BranchKind::Bgeu => 7,
    }
}

fn load_funct3(kind: LoadKind) -> u32
    ensures { (result ≡ load_funct3 kind) × (result < 8) }
{
    match kind {
        LoadKind::Lb => 0,
        LoadKind::Lh => 1,
        LoadKind::Lw => 2,
        LoadKind::Lbu => 4,
        LoadKind::Lhu => 5,
    }
}

fn store_funct3(kind: StoreKind) -> u32
    ensures { (result ≡ store_funct3 kind) × (result < 8) }
{
    match kind {
        StoreKind::Sb => 0,
        StoreKind::Sh => 1,
        StoreKind::Sw => 2,
    }
}

fn imm_funct3(kind: ImmKind) -> u32
    ensures { (result ≡ imm_funct3 kind) × (result < 8) }
{
    match kind {
        ImmKind::Addi => 0,
        ImmKind::Slti => 2,
        ImmKind::Sltiu => 3,
        ImmKind::Xori => 4,
        ImmKind::Ori => 6,
        ImmKind::Andi => 7,
    }
}

fn shift_functs(kind: ShiftKind) -> (u32, u32)
    ensures { (result.0 ≡ shift_funct3 kind) × (result.0 < 8) × (result.1 ≡ shift_funct7 kind)
        × (result.1 < 128) }
{
    match kind {
        ShiftKind::Slli => (1, 0),
        ShiftKind::Srli => (5, 0),
        ShiftKind::Srai => (5, 0x20),
    }
}

fn op_functs(kind: OpKind) -> (u32, u32)
    ensures { (result.0 ≡ op_funct3 kind) × (result.0 < 8) × (result.1 ≡ op_funct7 kind)
        × (result.1 < 128) }
{
    match kind {
        OpKind::Add => (0, 0),
        OpKind::Sll => (1, 0),
        OpKind::Slt => (2, 0),
        OpKind::Sltu => (3, 0),
        OpKind::Xor => (4, 0),
        OpKind::Srl => (5, 0),
        OpKind::Or => (6, 0),
        OpKind::And => (7, 0),
        OpKind::Sub => (0, 0x20),
        OpKind::Sra => (5, 0x20),
        OpKind::Mul => (0, 1),
        OpKind::Mulh => (1, 1),
        OpKind::Mulhsu => (2, 1),
        OpKind::Mulhu => (3, 1),
        OpKind::Div => (4, 1),
        OpKind::Divu => (5, 1),
        OpKind::Rem => (6, 1),
        OpKind::Remu => (7, 1),
    }
}
