//! The text of an instruction.

ghost use Rattle.std.specs.Prelude.{◌≡◌, ◌++◌, codes, decimal, IfOk};
ghost use Rattle.std.specs.Fmt.{signed_decimal};
ghost use Rattle.rv32_isa.specs.Text.{assembly_text, register, offset_operand, two, three, branch_name, load_name, store_name, imm_name, shift_name, op_name};

use crate::fields::Reg;
use crate::instr::{BranchKind, ImmKind, Instr, LoadKind, OpKind, ShiftKind, StoreKind};
use itoa::Buffer;
use std::alloc::{AllocError, Global};
use std::marker::Model;

/// The text of an instruction, as `addi x1, x2, -5`: the name, then the operands in decimal with
/// the target register first. A store has the stored register first; a load, a store and JALR have
/// their base as `8(x2)`. `AllocError` where memory is wanting.
#[tactic(auto, unfolding(crate::specs::Text::assembly_text))]
pub fn show(alloc: Global, instr: Instr) -> Result<Vec<u8>, AllocError>
    ensures { IfOk result (λ text. text.items ≡ assembly_text instr) }
{
    match instr {
        Instr::Lui(rd, imm) => upper(alloc, "lui", rd, imm.0),
        Instr::Auipc(rd, imm) => upper(alloc, "auipc", rd, imm.0),
        Instr::Jal(rd, off) => jump(alloc, "jal", rd, off.0),
        Instr::Jalr(rd, rs1, imm) => access(alloc, "jalr", rd, imm.0, rs1),
        Instr::Branch(kind, rs1, rs2, off) => immediate(alloc, branch_name(kind), rs1, rs2, off.0),
        Instr::Load(kind, rd, rs1, imm) => access(alloc, load_name(kind), rd, imm.0, rs1),
        Instr::Store(kind, rs2, rs1, imm) => access(alloc, store_name(kind), rs2, imm.0, rs1),
        Instr::OpImm(kind, rd, rs1, imm) => immediate(alloc, imm_name(kind), rd, rs1, imm.0),
        Instr::Shift(kind, rd, rs1, amount) => shift(
            alloc,
            shift_name(kind),
            rd,
            rs1,
            amount.0 as u32,
        ),
        Instr::Op(kind, rd, rs1, rs2) => registers(alloc, op_name(kind), rd, rs1, rs2),
        Instr::Fence(top, rs1, rd) => fence(alloc, top.0 as u32, rs1, rd),
        Instr::Ecall => plain(alloc, "ecall"),
        Instr::Ebreak => plain(alloc, "ebreak"),
    }
}

/// A text as it grows.
#[derive(Drop)]
struct Line {
    bytes: Vec<u8>,
}

impl Model for Line {
    ghost use Rattle.std.specs.Prelude.{List, ℕ};

    ghost Value = { List ℕ };

    ghost view = { λ l. l.bytes.items };
}

impl Line {
    fn new(alloc: Global, name: &str) -> Result<Line, AllocError>
        ensures { IfOk result (λ line. line ≡ name.now) }
    {
        let bytes = Vec::from_slice(alloc, name.as_bytes())?;
        Ok(Line { bytes })
    }

    fn then(self, piece: &str) -> Result<Line, AllocError>
        ensures { IfOk result (λ line. line ≡ self ++ piece.now) }
    {
        let Line { mut bytes } = self;
        bytes.extend_from_slice(piece.as_bytes())?;
        Ok(Line { bytes })
    }

    fn number(self, number: u32) -> Result<Line, AllocError>
        ensures { IfOk result (λ line. line ≡ self ++ decimal number) }
    {
        let mut buffer = Buffer::new();
        self.then(buffer.format(number))
    }

    fn signed(self, number: i32) -> Result<Line, AllocError>
        ensures { IfOk result (λ line. line ≡ self ++ signed_decimal number) }
    {
        let mut buffer = Buffer::new();
        self.then(buffer.format(number))
    }

    fn register(self, number: Reg) -> Result<Line, AllocError>
        ensures { IfOk result (λ line. line ≡ self ++ register number) }
    {
        self.then("x")?.number(number.0 as u32)
    }

    fn address(self, offset: i32, base: Reg) -> Result<Line, AllocError>
        ensures { IfOk result (λ line. line ≡ self ++ offset_operand offset base) }
    {
        self.signed(offset)?.then("(")?.register(base)?.then(")")
    }

    fn finish(self) -> Vec<u8>
        ensures { result.items ≡ self }
    {
        let Line { bytes } = self;
        bytes
    }
}

/// A name and its first operand, a register.
fn start(alloc: Global, name: &str, first: Reg) -> Result<Line, AllocError>
    ensures { IfOk result (λ line. line ≡ name.now ++ codes " " ++ register first) }
{
    Line::new(alloc, name)?.then(" ")?.register(first)
}

fn plain(alloc: Global, name: &str) -> Result<Vec<u8>, AllocError>
    ensures { IfOk result (λ text. text.items ≡ name.now) }
{
    Ok(Line::new(alloc, name)?.finish())
}

fn upper(alloc: Global, name: &str, rd: Reg, imm: u32) -> Result<Vec<u8>, AllocError>
    ensures { IfOk result (λ text. text.items ≡ two name.now (register rd) (decimal imm)) }
{
    Ok(start(alloc, name, rd)?.then(", ")?.number(imm)?.finish())
}

fn jump(alloc: Global, name: &str, rd: Reg, off: i32) -> Result<Vec<u8>, AllocError>
    ensures { IfOk result (λ text. text.items ≡ two name.now (register rd) (signed_decimal off)) }
{
    Ok(start(alloc, name, rd)?.then(", ")?.signed(off)?.finish())
}

fn access(
    alloc: Global,
    name: &str,
    first: Reg,
    offset: i32,
    base: Reg,
) -> Result<Vec<u8>, AllocError>
    ensures { IfOk result (λ text. text.items
        ≡ two name.now (register first) (offset_operand offset base)) }
{
    let line = start(alloc, name, first)?.then(", ")?;
    Ok(line.address(offset, base)?.finish())
}

fn pair(alloc: Global, name: &str, first: Reg, second: Reg) -> Result<Line, AllocError>
    ensures { IfOk result (λ line. line ≡ two name.now (register first) (register second)
        ++ codes ", ") }
{
    let line = start(alloc, name, first)?.then(", ")?;
    line.register(second)?.then(", ")
}

fn immediate(
    alloc: Global,
    name: &str,
    first: Reg,
    second: Reg,
    imm: i32,
) -> Result<Vec<u8>, AllocError>
    ensures { IfOk result (λ text. text.items
        ≡ three name.now (register first) (register second) (signed_decimal imm)) }
{
    Ok(pair(alloc, name, first, second)?.signed(imm)?.finish())
}

fn shift(alloc: Global, name: &str, rd: Reg, rs1: Reg, amount: u32) -> Result<Vec<u8>, AllocError>
    ensures { IfOk result (λ text. text.items
        ≡ three name.now (register rd) (register rs1) (decimal amount)) }
{
    Ok(pair(alloc, name, rd, rs1)?.number(amount)?.finish())
}

fn registers(alloc: Global, name: &str, rd: Reg, rs1: Reg, rs2: Reg) -> Result<Vec<u8>, AllocError>
    ensures { IfOk result (λ text. text.items
        ≡ three name.now (register rd) (register rs1) (register rs2)) }
{
    Ok(pair(alloc, name, rd, rs1)?.register(rs2)?.finish())
}

fn fence(alloc: Global, top: u32, rs1: Reg, rd: Reg) -> Result<Vec<u8>, AllocError>
    ensures { IfOk result (λ text. text.items
        ≡ three (codes "fence") (decimal top) (register rs1) (register rd)) }
{
    let line = Line::new(alloc, "fence")?
        .then(" ")?
        .number(top)?
        .then(", ")?;
    Ok(line.register(rs1)?.then(", ")?.register(rd)?.finish())
}

fn branch_name(kind: BranchKind) -> &'static str
    ensures { result.now ≡ branch_name kind }
{
    match kind {
        BranchKind::Beq => "beq",
        BranchKind::Bne => "bne",
        BranchKind::Blt => "blt",
        BranchKind::Bge => "bge",
        BranchKind::Bltu => "bltu",
        BranchKind::Bgeu => "bgeu",
    }
}

fn load_name(kind: LoadKind) -> &'static str
    ensures { result.now ≡ load_name kind }
{
    match kind {
        LoadKind::Lb => "lb",
        LoadKind::Lh => "lh",
        LoadKind::Lw => "lw",
        LoadKind::Lbu => "lbu",
        LoadKind::Lhu => "lhu",
    }
}

fn store_name(kind: StoreKind) -> &'static str
    ensures { result.now ≡ store_name kind }
{
    match kind {
        StoreKind::Sb => "sb",
        StoreKind::Sh => "sh",
        StoreKind::Sw => "sw",
    }
}

fn imm_name(kind: ImmKind) -> &'static str
    ensures { result.now ≡ imm_name kind }
{
    match kind {
        ImmKind::Addi => "addi",
        ImmKind::Slti => "slti",
        ImmKind::Sltiu => "sltiu",
        ImmKind::Xori => "xori",
        ImmKind::Ori => "ori",
        ImmKind::Andi => "andi",
    }
}

fn shift_name(kind: ShiftKind) -> &'static str
    ensures { result.now ≡ shift_name kind }
{
    match kind {
        ShiftKind::Slli => "slli",
        ShiftKind::Srli => "srli",
        ShiftKind::Srai => "srai",
    }
}

fn op_name(kind: OpKind) -> &'static str
    ensures { result.now ≡ op_name kind }
{
    match kind {
        OpKind::Add => "add",
        OpKind::Sll => "sll",
        OpKind::Slt => "slt",
        OpKind::Sltu => "sltu",
        OpKind::Xor => "xor",
        OpKind::Srl => "srl",
        OpKind::Or => "or",
        OpKind::And => "and",
        OpKind::Sub => "sub",
        OpKind::Sra => "sra",
        OpKind::Mul => "mul",
        OpKind::Mulh => "mulh",
        OpKind::Mulhsu => "mulhsu",
        OpKind::Mulhu => "mulhu",
        OpKind::Div => "div",
        OpKind::Divu => "divu",
        OpKind::Rem => "rem",
        OpKind::Remu => "remu",
    }
}
