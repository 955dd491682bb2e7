//! What the operations on registers give, as a program exits with it.

use crate::programs::{sink, source, start};
use rv32_isa::{Instr, OpKind, Reg, encode};
use rv32_machine::Stop;
use std::alloc::Global;
use std::process::Abort;
use std::test::Fail;

/// Puts a number into a register, by LUI and ADDI; the immediate of ADDI has a sign.
fn put(register: u32, number: u32) -> [u32; 2] {
    let upper = number.wrapping_add(0x800) / 4096;
    let lower = number % 4096;
    let target = (register % 32) * 128;
    [
        upper * 4096 | target | 0x37,
        lower * 1048576 | (register % 32) * 32768 | target | 0x13,
    ]
}

/// Exits with what the operation gives of two numbers.
fn program(kind: OpKind, a: u32, b: u32) -> [u32; 7] {
    let [upper, lower] = put(5, a);
    let [other_upper, other_lower] = put(6, b);
    let operation = encode(Instr::Op(kind, Reg(10), Reg(5), Reg(6)));
    [
        upper,
        lower,
        other_upper,
        other_lower,
        operation,
        0x05d00893,
        0x00000073,
    ]
}

/// The code with which a program ends.
fn exit(alloc: Global, words: &[u32]) -> Result<u32, Fail> {
    let mut input = source(alloc, b"")?;
    let mut out = sink(alloc)?;
    let mut machine = start(alloc, words, false)?;
    match machine.run(9, &mut input, &mut out) {
        Ok(Stop::Exit(code)) => Ok(code),
        _ => Err(Fail::new("no exit")),
    }
}

/// An operation, two numbers, and what it gives of them.
const VALUES: [(OpKind, u32, u32, u32); 27] = [
    (OpKind::Add, 0xfffffffe, 0x00000003, 0x00000001),
    (OpKind::Sub, 0x00000002, 0x00000003, 0xffffffff),
    (OpKind::Sll, 0x80000001, 0x00000021, 0x00000002),
    (OpKind::Slt, 0xffffffff, 0x00000000, 0x00000001),
    (OpKind::Sltu, 0xffffffff, 0x00000000, 0x00000000),
    (OpKind::Xor, 0xff00ff00, 0x0ff00ff0, 0xf0f0f0f0),
    (OpKind::Srl, 0x80000000, 0x00000024, 0x08000000),
    (OpKind::Or, 0x0000ff00, 0x00000ff0, 0x0000fff0),
    (OpKind::And, 0x0000ff00, 0x00000ff0, 0x00000f00),
    (OpKind::Sra, 0x80000000, 0x00000024, 0xf8000000),
    (OpKind::Mul, 0xfffffffd, 0x00000007, 0xffffffeb),
    (OpKind::Mulh, 0xfffffffd, 0x00000007, 0xffffffff),
    (OpKind::Mulh, 0x80000000, 0x80000000, 0x40000000),
    (OpKind::Mulhsu, 0xfffffffd, 0xffffffff, 0xfffffffd),
    (OpKind::Mulhu, 0xfffffffd, 0xffffffff, 0xfffffffc),
    (OpKind::Div, 0xfffffff9, 0x00000002, 0xfffffffd),
    (OpKind::Div, 0x00000007, 0xfffffffe, 0xfffffffd),
    (OpKind::Div, 0x00000005, 0x00000000, 0xffffffff),
    (OpKind::Div, 0x80000000, 0xffffffff, 0x80000000),
    (OpKind::Divu, 0xfffffff9, 0x00000002, 0x7ffffffc),
    (OpKind::Divu, 0x00000005, 0x00000000, 0xffffffff),
    (OpKind::Rem, 0xfffffff9, 0x00000002, 0xffffffff),
    (OpKind::Rem, 0x00000007, 0xfffffffe, 0x00000001),
    (OpKind::Rem, 0x00000005, 0x00000000, 0x00000005),
    (OpKind::Rem, 0x80000000, 0xffffffff, 0x00000000),
    (OpKind::Remu, 0xfffffff9, 0x00000002, 0x00000001),
    (OpKind::Remu, 0x00000005, 0x00000000, 0x00000005),
];

/// Each program exits with the value.
fn agree(rt: &impl Abort, alloc: Global, rows: &[(OpKind, u32, u32, u32)]) -> Result<(), Fail> {
    for (kind, a, b, value) in rows {
        let code = exit(alloc, &program(*kind, *a, *b))?;
        assert_eq!(rt; code, *value, "{kind:?} {a} {b}");
    }
    Ok(())
}

#[test]
fn operations_agree_with_known_values(rt: HostRuntime) -> Result<(), Fail> {
    agree(&rt, rt.alloc(), &VALUES)
}

/// The words of instructions that give x10 a value of x5 and an immediate, a number in x5, and the
/// value by the manual; and a FENCE, which leaves x10 as it was.
const IMMEDIATES: [(u32, u32, u32); 11] = [
    // slti by 0 and by -1, sltiu by 1 and by -1, whose sign is extended
    (0x0002a513, 0xffffffff, 1),
    (0xfff2a513, 0, 0),
    (0x0012b513, 0xffffffff, 0),
    (0xfff2b513, 5, 1),
    // xori by -1, ori by -256, andi by 255
    (0xfff2c513, 0x00000055, 0xffffffaa),
    (0xf002e513, 0x00000055, 0xffffff55),
    (0x0ff2f513, 0xffffff0f, 0x0000000f),
    // slli by 31, srli and srai by 1
    (0x01f29513, 0x00000003, 0x80000000),
    (0x0012d513, 0xfffffff8, 0x7ffffffc),
    (0x4012d513, 0xfffffff8, 0xfffffffc),
    (0x0ff0000f, 5, 0),
];

/// Branches by 8 bytes on x5 and x6, the numbers there, and whether the branch is taken.
const BRANCHES: [(u32, u32, u32, bool); 12] = [
    // blt, bge
    (0x0062c463, 0xffffffff, 1, true),
    (0x0062c463, 1, 0xffffffff, false),
    (0x0062c463, 1, 1, false),
    (0x0062d463, 0xffffffff, 1, false),
    (0x0062d463, 1, 0xffffffff, true),
    (0x0062d463, 1, 1, true),
    // bltu, bgeu
    (0x0062e463, 0xffffffff, 1, false),
    (0x0062e463, 1, 0xffffffff, true),
    (0x0062e463, 1, 1, false),
    (0x0062f463, 0xffffffff, 1, true),
    (0x0062f463, 1, 0xffffffff, false),
    (0x0062f463, 1, 1, true),
];

/// Exits with 1 where the branch is taken, and else with 2.
fn branching(branch: u32, a: u32, b: u32) -> [u32; 9] {
    let [upper, lower] = put(5, a);
    let [other_upper, other_lower] = put(6, b);
    [
        upper,
        lower,
        other_upper,
        other_lower,
        0x00100513,
        branch,
        0x00200513,
        0x05d00893,
        0x00000073,
    ]
}

#[test]
fn immediates_and_branches_do_as_the_manual_says(rt: HostRuntime) -> Result<(), Fail> {
    for (word, a, value) in IMMEDIATES {
        let [upper, lower] = put(5, a);
        let code = exit(rt.alloc(), &[upper, lower, word, 0x05d00893, 0x00000073])?;
        assert_eq!(rt; code, value, "{word}");
    }
    for (word, a, b, taken) in BRANCHES {
        let code = exit(rt.alloc(), &branching(word, a, b))?;
        assert_eq!(rt; code, if taken { 1 } else { 2 }, "{word} {a} {b}");
    }
    Ok(())
}
