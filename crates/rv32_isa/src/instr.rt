//! The instructions of RV32I and the M extension, as the RISC-V Unprivileged ISA manual lists them.

use crate::fields::{Amount, Imm12, Imm20, OffB, OffJ, Reg, Top};

/// The test of a branch on its two registers: equal, not equal, less, or greater or equal, with
/// sign and without.
#[derive(Clone, Copy, PartialEq, Eq, Debug, Drop)]
pub enum BranchKind {
    Beq,
    Bne,
    Blt,
    Bge,
    Bltu,
    Bgeu,
}

/// What a load takes: a byte, two or four, extended by their sign or, as LBU and LHU, by zeros.
#[derive(Clone, Copy, PartialEq, Eq, Debug, Drop)]
pub enum LoadKind {
    Lb,
    Lh,
    Lw,
    Lbu,
    Lhu,
}

/// What a store puts: the low byte, the low two or all four of a register.
#[derive(Clone, Copy, PartialEq, Eq, Debug, Drop)]
pub enum StoreKind {
    Sb,
    Sh,
    Sw,
}

/// An operation on a register and an immediate.
#[derive(Clone, Copy, PartialEq, Eq, Debug, Drop)]
pub enum ImmKind {
    Addi,
    Slti,
    Sltiu,
    Xori,
    Ori,
    Andi,
}

/// A shift by a constant: left, right with zeros, right with the sign.
#[derive(Clone, Copy, PartialEq, Eq, Debug, Drop)]
pub enum ShiftKind {
    Slli,
    Srli,
    Srai,
}

/// An operation on two registers, the last eight of them those of the M extension.
#[derive(Clone, Copy, PartialEq, Eq, Debug, Drop)]
pub enum OpKind {
    Add,
    Sll,
    Slt,
    Sltu,
    Xor,
    Srl,
    Or,
    And,
    Sub,
    Sra,
    Mul,
    Mulh,
    Mulhsu,
    Mulhu,
    Div,
    Divu,
    Rem,
    Remu,
}

/// An instruction. Its registers stand in the order of its text: the target first, then the
/// sources; a store has the stored register first, and then its base.
#[derive(Clone, Copy, PartialEq, Eq, Debug, Drop)]
pub enum Instr {
    /// Target and upper bits.
    Lui(Reg, Imm20),
    /// Target and upper bits.
    Auipc(Reg, Imm20),
    /// The register of the link, and how far to jump.
    Jal(Reg, OffJ),
    /// The register of the link, the base, and the offset from it.
    Jalr(Reg, Reg, Imm12),
    /// The registers that are compared, and how far to jump.
    Branch(BranchKind, Reg, Reg, OffB),
    /// Target, base, and the offset from it.
    Load(LoadKind, Reg, Reg, Imm12),
    /// The stored register, base, and the offset from it.
    Store(StoreKind, Reg, Reg, Imm12),
    /// Target, source and immediate.
    OpImm(ImmKind, Reg, Reg, Imm12),
    /// Target, source and the number of bits.
    Shift(ShiftKind, Reg, Reg, Amount),
    /// Target and the two sources.
    Op(OpKind, Reg, Reg, Reg),
    /// The upper bits, and the two fields for registers, `rs1` first, which the manual reserves.
    Fence(Top, Reg, Reg),
    Ecall,
    Ebreak,
}
