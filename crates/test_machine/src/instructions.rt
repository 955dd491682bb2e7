//! Words of instructions, and their texts.

use rv32_isa::{decode, encode, show};
use std::alloc::Global;
use std::process::Abort;
use std::test::Fail;

/// Words and texts as LLVM's assembler gives them, with the registers 0, 1 and 31 and the least and
/// the greatest immediates, and for FENCE, whose operands have other names there, by the manual.
const REGISTERS: [(u32, &str); 54] = [
    (0x01F08033, "add x0, x1, x31"),
    (0x00100FB3, "add x31, x0, x1"),
    (0x000F80B3, "add x1, x31, x0"),
    (0x01F09033, "sll x0, x1, x31"),
    (0x00101FB3, "sll x31, x0, x1"),
    (0x000F90B3, "sll x1, x31, x0"),
    (0x01F0A033, "slt x0, x1, x31"),
    (0x00102FB3, "slt x31, x0, x1"),
    (0x000FA0B3, "slt x1, x31, x0"),
    (0x01F0B033, "sltu x0, x1, x31"),
    (0x00103FB3, "sltu x31, x0, x1"),
    (0x000FB0B3, "sltu x1, x31, x0"),
    (0x01F0C033, "xor x0, x1, x31"),
    (0x00104FB3, "xor x31, x0, x1"),
    (0x000FC0B3, "xor x1, x31, x0"),
    (0x01F0D033, "srl x0, x1, x31"),
    (0x00105FB3, "srl x31, x0, x1"),
    (0x000FD0B3, "srl x1, x31, x0"),
    (0x01F0E033, "or x0, x1, x31"),
    (0x00106FB3, "or x31, x0, x1"),
    (0x000FE0B3, "or x1, x31, x0"),
    (0x01F0F033, "and x0, x1, x31"),
    (0x00107FB3, "and x31, x0, x1"),
    (0x000FF0B3, "and x1, x31, x0"),
    (0x41F08033, "sub x0, x1, x31"),
    (0x40100FB3, "sub x31, x0, x1"),
    (0x400F80B3, "sub x1, x31, x0"),
    (0x41F0D033, "sra x0, x1, x31"),
    (0x40105FB3, "sra x31, x0, x1"),
    (0x400FD0B3, "sra x1, x31, x0"),
    (0x03F08033, "mul x0, x1, x31"),
    (0x02100FB3, "mul x31, x0, x1"),
    (0x020F80B3, "mul x1, x31, x0"),
    (0x03F09033, "mulh x0, x1, x31"),
    (0x02101FB3, "mulh x31, x0, x1"),
    (0x020F90B3, "mulh x1, x31, x0"),
    (0x03F0A033, "mulhsu x0, x1, x31"),
    (0x02102FB3, "mulhsu x31, x0, x1"),
    (0x020FA0B3, "mulhsu x1, x31, x0"),
    (0x03F0B033, "mulhu x0, x1, x31"),
    (0x02103FB3, "mulhu x31, x0, x1"),
    (0x020FB0B3, "mulhu x1, x31, x0"),
    (0x03F0C033, "div x0, x1, x31"),
    (0x02104FB3, "div x31, x0, x1"),
    (0x020FC0B3, "div x1, x31, x0"),
    (0x03F0D033, "divu x0, x1, x31"),
    (0x02105FB3, "divu x31, x0, x1"),
    (0x020FD0B3, "divu x1, x31, x0"),
    (0x03F0E033, "rem x0, x1, x31"),
    (0x02106FB3, "rem x31, x0, x1"),
    (0x020FE0B3, "rem x1, x31, x0"),
    (0x03F0F033, "remu x0, x1, x31"),
    (0x02107FB3, "remu x31, x0, x1"),
    (0x020FF0B3, "remu x1, x31, x0"),
];

const IMMEDIATES: [(u32, &str); 33] = [
    (0x80008013, "addi x0, x1, -2048"),
    (0x7FF00F93, "addi x31, x0, 2047"),
    (0xFFFF8093, "addi x1, x31, -1"),
    (0x8000A013, "slti x0, x1, -2048"),
    (0x7FF02F93, "slti x31, x0, 2047"),
    (0xFFFFA093, "slti x1, x31, -1"),
    (0x8000B013, "sltiu x0, x1, -2048"),
    (0x7FF03F93, "sltiu x31, x0, 2047"),
    (0xFFFFB093, "sltiu x1, x31, -1"),
    (0x8000C013, "xori x0, x1, -2048"),
    (0x7FF04F93, "xori x31, x0, 2047"),
    (0xFFFFC093, "xori x1, x31, -1"),
    (0x8000E013, "ori x0, x1, -2048"),
    (0x7FF06F93, "ori x31, x0, 2047"),
    (0xFFFFE093, "ori x1, x31, -1"),
    (0x8000F013, "andi x0, x1, -2048"),
    (0x7FF07F93, "andi x31, x0, 2047"),
    (0xFFFFF093, "andi x1, x31, -1"),
    (0x00009013, "slli x0, x1, 0"),
    (0x01F01F93, "slli x31, x0, 31"),
    (0x001F9093, "slli x1, x31, 1"),
    (0x0000D013, "srli x0, x1, 0"),
    (0x01F05F93, "srli x31, x0, 31"),
    (0x001FD093, "srli x1, x31, 1"),
    (0x4000D013, "srai x0, x1, 0"),
    (0x41F05F93, "srai x31, x0, 31"),
    (0x401FD093, "srai x1, x31, 1"),
    (0x00000037, "lui x0, 0"),
    (0xFFFFFFB7, "lui x31, 1048575"),
    (0x800000B7, "lui x1, 524288"),
    (0x00000017, "auipc x0, 0"),
    (0xFFFFFF97, "auipc x31, 1048575"),
    (0x80000097, "auipc x1, 524288"),
];

const MEMORY: [(u32, &str); 27] = [
    (0x80008003, "lb x0, -2048(x1)"),
    (0x7FF00F83, "lb x31, 2047(x0)"),
    (0x000F8083, "lb x1, 0(x31)"),
    (0x80009003, "lh x0, -2048(x1)"),
    (0x7FF01F83, "lh x31, 2047(x0)"),
    (0x000F9083, "lh x1, 0(x31)"),
    (0x8000A003, "lw x0, -2048(x1)"),
    (0x7FF02F83, "lw x31, 2047(x0)"),
    (0x000FA083, "lw x1, 0(x31)"),
    (0x8000C003, "lbu x0, -2048(x1)"),
    (0x7FF04F83, "lbu x31, 2047(x0)"),
    (0x000FC083, "lbu x1, 0(x31)"),
    (0x8000D003, "lhu x0, -2048(x1)"),
    (0x7FF05F83, "lhu x31, 2047(x0)"),
    (0x000FD083, "lhu x1, 0(x31)"),
    (0x80008023, "sb x0, -2048(x1)"),
    (0x7FF00FA3, "sb x31, 2047(x0)"),
    (0x001F8023, "sb x1, 0(x31)"),
    (0x80009023, "sh x0, -2048(x1)"),
    (0x7FF01FA3, "sh x31, 2047(x0)"),
    (0x001F9023, "sh x1, 0(x31)"),
    (0x8000A023, "sw x0, -2048(x1)"),
    (0x7FF02FA3, "sw x31, 2047(x0)"),
    (0x001FA023, "sw x1, 0(x31)"),
    (0x80008067, "jalr x0, -2048(x1)"),
    (0x7FF00FE7, "jalr x31, 2047(x0)"),
    (0x000F80E7, "jalr x1, 0(x31)"),
];

const JUMPS: [(u32, &str); 27] = [
    (0x80100063, "beq x0, x1, -4096"),
    (0x7E0F8FE3, "beq x31, x0, 4094"),
    (0xFFF08FE3, "beq x1, x31, -2"),
    (0x80101063, "bne x0, x1, -4096"),
    (0x7E0F9FE3, "bne x31, x0, 4094"),
    (0xFFF09FE3, "bne x1, x31, -2"),
    (0x80104063, "blt x0, x1, -4096"),
    (0x7E0FCFE3, "blt x31, x0, 4094"),
    (0xFFF0CFE3, "blt x1, x31, -2"),
    (0x80105063, "bge x0, x1, -4096"),
    (0x7E0FDFE3, "bge x31, x0, 4094"),
    (0xFFF0DFE3, "bge x1, x31, -2"),
    (0x80106063, "bltu x0, x1, -4096"),
    (0x7E0FEFE3, "bltu x31, x0, 4094"),
    (0xFFF0EFE3, "bltu x1, x31, -2"),
    (0x80107063, "bgeu x0, x1, -4096"),
    (0x7E0FFFE3, "bgeu x31, x0, 4094"),
    (0xFFF0FFE3, "bgeu x1, x31, -2"),
    (0x8000006F, "jal x0, -1048576"),
    (0x7FFFFFEF, "jal x31, 1048574"),
    (0xFFFFF0EF, "jal x1, -2"),
    (0x0000008F, "fence 0, x0, x1"),
    (0x0FF0000F, "fence 255, x0, x0"),
    (0xFFFF8F8F, "fence 4095, x31, x31"),
    (0x8000800F, "fence 2048, x1, x0"),
    (0x00000073, "ecall"),
    (0x00100073, "ebreak"),
];

const SAMPLES: [(u32, &str); 7] = [
    (0x05D00893, "addi x17, x0, 93"),
    (0x02C58533, "mul x10, x11, x12"),
    (0x41F35293, "srai x5, x6, 31"),
    (0xFE208CE3, "beq x1, x2, -8"),
    (0x00812623, "sw x8, 12(x2)"),
    (0x300001B7, "lui x3, 196608"),
    (0x0000006F, "jal x0, 0"),
];

/// Words of no instruction: among them a shift with another bit of its seventh bits set, the system
/// instructions beside ECALL and EBREAK, and FENCE.I.
const NO_ROW: [u32; 12] = [
    0x00000000, 0x45F35293, 0x40001013, 0x04000033, 0x40001033, 0x00001067, 0x00003003, 0x00003023,
    0x00002063, 0x00000FF3, 0x00200073, 0x0000100F,
];

/// Each word is decoded, encoded again, and shown as the text beside it.
fn agree(rt: &impl Abort, alloc: Global, table: &[(u32, &str)]) -> Result<(), Fail> {
    for (word, text) in table {
        let again = encode(decode(*word).ok_or("no instruction")?);
        assert_eq!(rt; again, *word, "the word of {text}");
        let shown = show(alloc, decode(*word).ok_or("no instruction")?)?;
        assert_eq!(rt; shown.as_slice(), text.as_bytes(), "the text of {text}");
    }
    Ok(())
}

#[test]
fn words_and_texts_agree(rt: HostRuntime) -> Result<(), Fail> {
    agree(&rt, rt.alloc(), &SAMPLES)?;
    agree(&rt, rt.alloc(), &REGISTERS)?;
    agree(&rt, rt.alloc(), &IMMEDIATES)?;
    agree(&rt, rt.alloc(), &MEMORY)?;
    agree(&rt, rt.alloc(), &JUMPS)
}

#[test]
fn other_words_have_no_instruction(rt: HostRuntime) {
    for word in NO_ROW {
        assert_eq!(rt; decode(word), None, "the word {word}");
    }
}
