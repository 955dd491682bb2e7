//! The file of a compiled program.

ghost use Rattle.std.specs.Prelude.{◌≡◌, ◌-◌, ◌++◌, ◌≤◌, length, replicate, IfOk, OnOk};
ghost use Rattle.elf32.specs.File.{halfword_bytes, words, elf_header, headers, file_of, program, SizesFitLayout};
ghost use Rattle.elf32.specs.Rules.{Loads};
ghost use Rattle.limits.specs.Limits.{stack_end};

use byteorder::{ByteOrder, LittleEndian};
use limits::{CODE_START, HEAP_START, STACK_END};
use std::alloc::{AllocError, Global};

/// The file of a program of these words of code, with a heap and a stack of so many bytes of zeros.
/// It has 4096 bytes of headers, and then the code. `AllocError` where memory is wanting.
#[tactic(auto, unfolding(crate::specs::File::file_of))]
pub fn write(
    alloc: Global,
    code: &[u32],
    heap_bytes: u32,
    stack_bytes: u32,
) -> Result<Vec<u8>, AllocError>
    requires { SizesFitLayout code.now heap_bytes stack_bytes }
    ensures bytes { IfOk result (λ file. file.items ≡ file_of code.now heap_bytes stack_bytes) }
    ensures loads { IfOk result (λ file.
        Loads file.items (program code.now heap_bytes stack_bytes)) }
{
    let mut file = Vec::with_capacity(alloc, 4096 + 4 * code.len())?;
    put_headers(&mut file, 4 * code.len() as u32, heap_bytes, stack_bytes)?;
    pad(&mut file)?;
    put_words(&mut file, code)?;
    Ok(file)
}

fn put_headers(
    file: &mut Vec<u8>,
    code_size: u32,
    heap_bytes: u32,
    stack_bytes: u32,
) -> Result<(), AllocError>
    requires { stack_bytes ≤ stack_end }
    ensures { OnOk result (file.new.items ≡ file.old.items
        ++ headers code_size heap_bytes stack_bytes) }
{
    let code = CODE_START;
    let heap = HEAP_START;
    let stack = STACK_END - stack_bytes;
    put_elf_header(file)?;
    put_words(file, &[1, 4096, code, code, code_size, code_size, 5, 4096])?;
    put_words(file, &[1, 0, heap, heap, 0, heap_bytes, 6, 4])?;
    put_words(file, &[1, 0, stack, stack, 0, stack_bytes, 6, 4])
}

/// Appends zeros up to offset 4096, where the code begins.
fn pad(file: &mut Vec<u8>) -> Result<(), AllocError>
    requires { length file.old.items ≤ 4096 }
    ensures { OnOk result (file.new.items ≡ file.old.items
        ++ replicate (4096 - length file.old.items) 0) }
{
    file.resize(4096, 0)?;
    Ok(())
}

fn put_elf_header(file: &mut Vec<u8>) -> Result<(), AllocError>
    ensures { OnOk result (file.new.items ≡ file.old.items ++ elf_header) }
{
    file.extend_from_slice(&[0x7F, 0x45, 0x4C, 0x46, 1, 1, 1, 0, 0, 0, 0, 0, 0, 0, 0, 0])?;
    put_halves(file, &[2, 243])?;
    put_words(file, &[1, CODE_START, 52, 0, 0])?;
    put_halves(file, &[52, 32, 3, 0, 0, 0])
}

/// Appends numbers of two bytes each, the low byte first.
fn put_halves(file: &mut Vec<u8>, numbers: &[u16]) -> Result<(), AllocError>
    ensures { OnOk result (file.new.items ≡ file.old.items ++ halfword_bytes numbers.now) }
{
    for number in numbers {
        let mut bytes = [0; 2];
        LittleEndian::write_u16(&mut bytes, *number);
        file.extend_from_slice(&bytes)?;
    }
    Ok(())
}

/// Appends numbers of four bytes each, the low byte first.
fn put_words(file: &mut Vec<u8>, numbers: &[u32]) -> Result<(), AllocError>
    ensures { OnOk result (file.new.items ≡ file.old.items ++ words numbers.now) }
{
    for number in numbers {
        let mut bytes = [0; 4];
        LittleEndian::write_u32(&mut bytes, *number);
        file.extend_from_slice(&bytes)?;
    }
    Ok(())
}
