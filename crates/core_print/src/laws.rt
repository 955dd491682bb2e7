//! The canonical text of a program stands for it.

ghost use Rattle.std.specs.Prelude.{◌≤◌, length};
ghost use Rattle.core_reader.specs.Tree.{program};
ghost use Rattle.core_reader.specs.Readable.{IsReadable};
ghost use Rattle.core_print.specs.Canonical.{canonical};
ghost use Rattle.core_print.specs.Depth.{program_depth};
ghost use Rattle.core_print.specs.Laws.{CanonicalTextReadsBack, CanonicalTextIsOfOneProgram, RereadsSameProgram};
ghost use Rattle.limits.specs.Limits.{most_bytes, most_open};

use crate::printer::print;
use core_reader::{Core, ReadRefusal, read};
use std::alloc::Global;

/// The canonical text of a readable program stands for it: within the limits of length (1,048,576
/// bytes) and nesting (200 open constructs) it breaks no rule, and the program that it stands for
/// is the same, the places and the numbers of the names aside.
pub fn canonical_text_reads_back()
    ensures { CanonicalTextReadsBack }
{}

/// Whatever it is that the canonical text of a readable program stands for, of whatever length and
/// nesting, is the same program, the places and the numbers of the names aside.
pub fn canonical_text_is_of_one_program()
    ensures { CanonicalTextIsOfOneProgram }
{}

/// What `read` answers to the text that `print` gives: within the limits of length (1,048,576
/// bytes) and nesting (200 open constructs), the same program, the places and the numbers of the
/// names aside, or want of memory.
pub fn printing_round_trips(alloc: Global, core: &Core) -> Result<Core, ReadRefusal>
    requires { IsReadable (program core.now) }
    ensures { length (canonical (program core.now)) ≤ most_bytes
        → program_depth (program core.now) ≤ most_open → RereadsSameProgram (program core.now) result }
{
    let text = print(alloc, core)?;
    read(alloc, text.as_slice())
}
