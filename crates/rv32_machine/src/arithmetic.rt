//! What the operations compute, on words of 32 bits.

ghost use Rattle.std.specs.Prelude.{◌≡◌, ◌<◌, ◌^◌, ◌*ℤ◌, pos};
ghost use Rattle.rv32_machine.specs.Arithmetic.{op_value, divided, left_over, imm_value, shift_value, is_taken, load_size, load_value, shift_right_signed, less_signed, plus, signed, pattern, high_half, bit};

use rv32_isa::{BranchKind, ImmKind, LoadKind, OpKind, ShiftKind};

/// The sum of two words, modulo 2^32.
#[inline(always)]
pub fn plus(a: u32, b: u32) -> u32
    ensures { result ≡ plus a b }
{
    a.wrapping_add(b)
}

#[inline(always)]
fn bit(b: bool) -> u32
    ensures { result ≡ bit b }
{
    if b { 1 } else { 0 }
}

#[inline(always)]
fn less_signed(a: u32, b: u32) -> bool
    ensures { result ≡ less_signed a b }
{
    a.cast_signed() < b.cast_signed()
}

#[inline(always)]
fn shift_right_signed(a: u32, k: u32) -> u32
    requires { k < 32 }
    ensures { result ≡ shift_right_signed a k }
{
    (a.cast_signed() >> k).cast_unsigned()
}

fn quotient(a: u32, b: u32) -> u32
    ensures { result ≡ divided a b }
{
    if b == 0 {
        u32::MAX
    } else {
        a.cast_signed()
            .wrapping_div(b.cast_signed())
            .cast_unsigned()
    }
}

fn remainder(a: u32, b: u32) -> u32
    ensures { result ≡ left_over a b }
{
    if b == 0 {
        a
    } else {
        a.cast_signed()
            .wrapping_rem(b.cast_signed())
            .cast_unsigned()
    }
}

fn high_half(product: i64) -> u32
    ensures { result ≡ high_half product }
{
    ((product >> 32) as i32).cast_unsigned()
}

/// The product of two signed words.
fn product(a: u32, b: u32) -> i64
    ensures { result ≡ signed a *ℤ signed b }
{
    a.cast_signed() as i64 * b.cast_signed() as i64
}

/// The product of a signed word and an unsigned one.
fn mixed_product(a: u32, b: u32) -> i64
    ensures { result ≡ signed a *ℤ pos b }
{
    a.cast_signed() as i64 * b as i64
}

/// What an operation on two registers gives.
#[inline(always)]
pub fn op_value(kind: OpKind, a: u32, b: u32) -> u32
    ensures { result ≡ op_value kind a b }
{
    match kind {
        OpKind::Add => plus(a, b),
        OpKind::Sll => a.wrapping_shl(b),
        OpKind::Slt => bit(less_signed(a, b)),
        OpKind::Sltu => bit(a < b),
        OpKind::Xor => a ^ b,
        OpKind::Srl => a.wrapping_shr(b),
        OpKind::Or => a | b,
        OpKind::And => a & b,
        OpKind::Sub => a.wrapping_sub(b),
        OpKind::Sra => shift_right_signed(a, b % 32),
        OpKind::Mul => a.wrapping_mul(b),
        OpKind::Mulh => high_half(product(a, b)),
        OpKind::Mulhsu => high_half(mixed_product(a, b)),
        OpKind::Mulhu => (a as u64 * b as u64 / 4294967296) as u32,
        OpKind::Div => quotient(a, b),
        OpKind::Divu => { if b == 0 { u32::MAX } else { a / b } }
        OpKind::Rem => remainder(a, b),
        OpKind::Remu => { if b == 0 { a } else { a % b } }
    }
}

/// What an operation on a register and a number gives.
#[inline(always)]
pub fn imm_value(kind: ImmKind, a: u32, b: u32) -> u32
    ensures { result ≡ imm_value kind a b }
{
    match kind {
        ImmKind::Addi => plus(a, b),
        ImmKind::Slti => bit(less_signed(a, b)),
        ImmKind::Sltiu => bit(a < b),
        ImmKind::Xori => a ^ b,
        ImmKind::Ori => a | b,
        ImmKind::Andi => a & b,
    }
}

/// What a shift by a number below 32 gives.
#[inline(always)]
pub fn shift_value(kind: ShiftKind, a: u32, k: u32) -> u32
    requires { k < 32 }
    ensures { result ≡ shift_value kind a k }
{
    match kind {
        ShiftKind::Slli => a << k,
        ShiftKind::Srli => a >> k,
        ShiftKind::Srai => shift_right_signed(a, k),
    }
}

/// Whether a branch is taken.
#[inline(always)]
pub fn is_taken(kind: BranchKind, a: u32, b: u32) -> bool
    ensures { result ≡ is_taken kind a b }
{
    match kind {
        BranchKind::Beq => a == b,
        BranchKind::Bne => a != b,
        BranchKind::Blt => less_signed(a, b),
        BranchKind::Bge => !less_signed(a, b),
        BranchKind::Bltu => a < b,
        BranchKind::Bgeu => a >= b,
    }
}

/// The word that a load makes of the bytes that it reads, `v` being their number.
#[inline(always)]
pub fn load_value(kind: LoadKind, v: u32) -> u32
    requires { v < 256 ^ load_size kind }
    ensures { result ≡ load_value kind v }
{
    match kind {
        LoadKind::Lb => { if v < 128 { v } else { v + 4294967040 } }
        LoadKind::Lh => { if v < 32768 { v } else { v + 4294901760 } }
        LoadKind::Lw | LoadKind::Lbu | LoadKind::Lhu => v,
    }
}
