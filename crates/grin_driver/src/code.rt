//! The listing of a text's code.

ghost use Rattle.std.specs.Prelude.{◌≡◌, ◌<◌, ◌≤◌, ◌+◌, ◌*◌, ◌++◌, length, IfOk, IfErr, OnOk};
ghost use Rattle.text_commands.specs.Over.{sink_over};
ghost use Rattle.grin_compile.specs.Limits.{SizesAreInRange};
ghost use Rattle.rv32_isa.specs.Table.{instr_of};
ghost use Rattle.grin_driver.specs.Outcome.{IsBuildFailure};
ghost use Rattle.grin_driver.specs.CodeListing.{hex_digit, hex_word, instr_text, code_line, code_listing, IsCodeListing, IsCodeListOutcome};
ghost use Rattle.limits.specs.Limits.{most_code, default_cells, default_stack};

use crate::image::{DEFAULTS, compiled};
use grin_compile::Options;
use grin_io::Sink;
use limits::CODE_START;
use rv32_isa::{decode, show};
use std::alloc::{AllocError, Global};
use text_commands::pieces::put_pieces;
use text_commands::status::Status;

/// A digit below 16, in lower case.
fn hex_digit(number: u32) -> u8
    requires { number < 16 }
    ensures { result ≡ hex_digit number }
{
    if number < 10 {
        number as u8 + b'0'
    } else {
        number as u8 + (b'a' - 10)
    }
}

/// The eight digits of a word.
#[tactic(auto, unfolding(crate::specs::CodeListing::hex_word))]
fn hex_word(word: u32) -> [u8; 8]
    ensures { result ≡ hex_word word }
{
    [
        hex_digit(word / 0x1000_0000),
        hex_digit(word / 0x100_0000 % 16),
        hex_digit(word / 0x10_0000 % 16),
        hex_digit(word / 0x1_0000 % 16),
        hex_digit(word / 0x1000 % 16),
        hex_digit(word / 0x100 % 16),
        hex_digit(word / 0x10 % 16),
        hex_digit(word % 16),
    ]
}

/// The text of a word's instruction, or no text where it has none.
fn instr_text(alloc: Global, word: u32) -> Result<Vec<u8>, AllocError>
    ensures { IfOk result (λ text. text.items ≡ instr_text (instr_of word)) }
{
    match decode(word) {
        Some(instr) => show(alloc, instr),
        None => Ok(Vec::new(alloc)),
    }
}

/// Puts the line of a word at the end.
#[tactic(auto, unfolding(crate::specs::CodeListing::code_line))]
fn push_line(alloc: Global, bytes: &mut Vec<u8>, address: u32, word: u32) -> Result<(), AllocError>
    ensures { OnOk result (bytes.new.items ≡ bytes.old.items ++ code_line address word) }
{
    let text = instr_text(alloc, word)?;
    bytes.extend_from_slice(&hex_word(address))?;
    bytes.extend_from_slice(b" ")?;
    bytes.extend_from_slice(&hex_word(word))?;
    bytes.extend_from_slice(b" ")?;
    bytes.extend_from_slice(text.as_slice())?;
    bytes.extend_from_slice(b"\n")
}

/// The listing of code: a line for each word.
fn code_listing(alloc: Global, code: &[u32]) -> Result<Vec<u8>, AllocError>
    requires { length code.now ≤ most_code }
    ensures { IfOk result (λ bytes. bytes.items ≡ code_listing code.now) }
{
    let mut bytes = Vec::new(alloc);
    let mut address = CODE_START;
    for word in code {
        push_line(alloc, &mut bytes, address, *word)?;
        address += 4;
    }
    Ok(bytes)
}

/// The listing of the code of a text's image, or why there is none.
fn listed_code(alloc: Global, text: &[u8], options: Options) -> Result<Vec<u8>, Status>
    requires { SizesAreInRange options.cells options.stack }
    ensures listed { IfOk result (λ bytes.
        IsCodeListing text.now options.cells options.stack bytes.items) }
    ensures unlisted { IfErr result (IsBuildFailure text.now) }
{
    let compiled = compiled(alloc, text, options)?;
    match code_listing(alloc, compiled.code.as_slice()) {
        Ok(bytes) => Ok(bytes),
        Err(_) => Err(Status::OutOfMemory),
    }
}

/// Lists the code of a text's image with the heap and the stack that it has by default, in pieces
/// of 4,096 bytes.
pub(crate) fn list_code<K: Sink>(alloc: Global, text: &[u8], out: &mut K) -> Status
    ensures lists { IsCodeListOutcome (sink_over K.Sink out.old out.new) text.now
        default_cells default_stack result }
    ensures later { K.faults out.old ≤ K.faults out.new }
{
    match listed_code(alloc, text, DEFAULTS) {
        Ok(bytes) => match put_pieces(bytes.as_slice(), out) {
            Ok(()) => Status::Done,
            Err(_) => Status::WriteFault,
        },
        Err(status) => status,
    }
}
