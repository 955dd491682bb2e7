//! What the image of a text needs: the frames of its procedures, and the words of their code.

ghost use Rattle.std.specs.Prelude.{◌≡◌, ◌≤◌, ◌*◌, ◌++◌, length, IfOk, IfErr, OnOk};
ghost use Rattle.text_commands.specs.Over.{sink_over};
ghost use Rattle.grin_compile.specs.Limits.{SizesAreInRange};
ghost use Rattle.grin_driver.specs.Outcome.{IsBuildFailure};
ghost use Rattle.grin_driver.specs.Needs.{number_line, needs_line, procedure_lines, needs_text, IsNeedsText, IsNeedsOutcome};
ghost use Rattle.limits.specs.Limits.{most_code};

use crate::image::compiled;
use grin_compile::words::{code_words, greatest, most_steps, start_words};
use grin_compile::{Built, Options};
use grin_io::Sink;
use grin_syntax::listing_text::ListingText;
use seq::Text;
use std::alloc::{AllocError, Global};
use text_commands::pieces::put_pieces;
use text_commands::status::Status;

/// Puts a line with one number at the end.
#[tactic(auto, unfolding(crate::specs::Needs::number_line))]
fn put_number(text: &mut ListingText, name: &str, number: usize) -> Result<(), AllocError>
    ensures { OnOk result (text.new ≡ text.old ++ number_line name.now number) }
{
    text.put(name)?;
    text.put(" ")?;
    text.number(number)?;
    text.put("\n")
}

/// Puts a line with the bytes of a frame of so many words, and the words of code, at the end.
#[tactic(auto, unfolding(crate::specs::Needs::needs_line))]
fn put_needs(text: &mut ListingText, name: &[u8], frame: u32, code: u32) -> Result<(), AllocError>
    ensures { OnOk result (text.new ≡ text.old ++ needs_line name.now frame code) }
{
    text.bytes(name)?;
    text.put(" frame ")?;
    text.number(4 * frame as usize)?;
    text.put(" code ")?;
    text.number(code as usize)?;
    text.put("\n")
}

/// Puts a line for each procedure at the end.
fn put_procedures(
    text: &mut ListingText,
    names: &[Text],
    frames: &[u32],
    code: &[u32],
) -> Result<(), AllocError>
    requires frames { length frames.now ≡ length names.now }
    requires code { length code.now ≡ length names.now }
    ensures { OnOk result (text.new ≡ text.old ++ procedure_lines names.now frames.now code.now) }
{
    for (f, name) in names.iter().enumerate() {
        put_needs(text, name.as_slice(), frames[f], code[f])?;
    }
    Ok(())
}

/// The text of what an image needs.
fn needs_text(alloc: Global, built: &Built) -> Result<Vec<u8>, AllocError>
    requires short { length built.now.code.items ≤ most_code }
    requires one_each { length built.now.starts.items ≡ length built.now.names.items }
    requires frame_each { length built.now.frames.items ≡ length built.now.names.items }
    ensures { IfOk result (λ text.
        text.items ≡ needs_text built.now.names.items built.now.frames.items built.now.code.items
        built.now.starts.items (4 * built.now.width)) }
{
    let code = built.code.as_slice();
    let starts = built.starts.as_slice();
    let frames = built.frames.as_slice();
    let words = code_words(alloc, code, starts)?;
    let words = words.as_slice();
    let start = start_words(code, starts);
    let most = most_steps(code, starts, words);
    let mut text = ListingText::new(alloc);
    put_number(&mut text, "start code", start as usize)?;
    put_number(&mut text, "cell", 4 * built.width as usize)?;
    put_needs(&mut text, b"most", greatest(frames), most)?;
    put_procedures(&mut text, built.names.as_slice(), frames, words)?;
    Ok(text.into_vec())
}

/// The text of what a text's image needs, or why there is none.
fn told_needs(alloc: Global, text: &[u8], options: Options) -> Result<Vec<u8>, Status>
    requires { SizesAreInRange options.cells options.stack }
    ensures told { IfOk result (λ bytes.
        IsNeedsText text.now options.cells options.stack bytes.items) }
    ensures untold { IfErr result (IsBuildFailure text.now) }
{
    let compiled = compiled(alloc, text, options)?;
    match needs_text(alloc, &compiled) {
        Ok(bytes) => Ok(bytes),
        Err(_) => Err(Status::OutOfMemory),
    }
}

/// Compiles a text as `build` does, and puts what its image needs, in pieces of 4,096 bytes. All
/// memory is had before the first put.
pub(crate) fn tell_needs<K: Sink>(
    alloc: Global,
    text: &[u8],
    options: Options,
    out: &mut K,
) -> Status
    requires { SizesAreInRange options.cells options.stack }
    ensures tells { IsNeedsOutcome (sink_over K.Sink out.old out.new) text.now
        options.cells options.stack result }
    ensures later { K.faults out.old ≤ K.faults out.new }
{
    match told_needs(alloc, text, options) {
        Ok(bytes) => match put_pieces(bytes.as_slice(), out) {
            Ok(()) => Status::Done,
            Err(_) => Status::WriteFault,
        },
        Err(status) => status,
    }
}
