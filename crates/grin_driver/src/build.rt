//! The image of a text, put out.

ghost use Rattle.std.specs.Prelude.{◌≤◌};
ghost use Rattle.text_commands.specs.Over.{sink_over};
ghost use Rattle.grin_compile.specs.Limits.{SizesAreInRange};
ghost use Rattle.grin_driver.specs.Building.{IsBuildOutcome};

use crate::image::compiled;
use grin_compile::Options;
use grin_io::Sink;
use std::alloc::Global;
use text_commands::pieces::put_pieces;
use text_commands::status::Status;

/// Compiles a text to an image with so many cells and bytes of stack, and puts the image in pieces
/// of 4,096 bytes. The stack is rounded down to a multiple of four. All memory is had before the
/// first put.
pub(crate) fn build_text<K: Sink>(
    alloc: Global,
    text: &[u8],
    options: Options,
    out: &mut K,
) -> Status
    requires { SizesAreInRange options.cells options.stack }
    ensures builds { IsBuildOutcome (sink_over K.Sink out.old out.new) text.now
        options.cells options.stack result }
    ensures later { K.faults out.old ≤ K.faults out.new }
{
    match compiled(alloc, text, options) {
        Ok(compiled) => match put_pieces(compiled.image.as_slice(), out) {
            Ok(()) => Status::Done,
            Err(_) => Status::WriteFault,
        },
        Err(status) => status,
    }
}
