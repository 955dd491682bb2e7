//! The text of a trace.

ghost use Rattle.std.specs.Prelude.{◌≡◌, ◌++◌, take, [], slice_get, IfOk, OnOk};
ghost use Rattle.limits.specs.Limits.{default_steps};
ghost use Rattle.rv32_machine.specs.Steps.{start_of};
ghost use Rattle.image_trace.specs.Entries.{states, entries_at};
ghost use Rattle.image_trace.specs.Lines.{indent, entry_line, line_of, levels_around, trace_text};

use crate::entries::{Entry, entries};
use elf32::Loaded;
use grin_syntax::listing_text::ListingText;
use seq::Text;
use std::alloc::{AllocError, Global};

/// The most levels by which a line is indented.
const MOST_LEVELS: usize = 40;

/// How many of the frames that are open are around one that begins here, from the outermost one on.
fn levels_around(open: &[u32], x2: u32) -> usize
    ensures { result ≡ levels_around x2 open.now }
{
    for (n, begin) in open.iter().enumerate() {
        if *begin <= x2 {
            return n;
        }
    }
    open.len()
}

/// Puts two blanks for each level at the end.
fn put_indent(text: &mut ListingText, levels: usize) -> Result<(), AllocError>
    ensures { OnOk result (text.new ≡ text.old ++ indent levels) }
{
    let mut left = levels;
    while left > 0 {
        text.deepen()?;
        left -= 1;
    }
    Ok(())
}

/// Puts the line of a procedure at the end, which so many frames enclose.
#[tactic(auto, unfolding(crate::specs::Lines::entry_line))]
fn put_line(text: &mut ListingText, name: &[u8], levels: usize) -> Result<(), AllocError>
    ensures { OnOk result (text.new ≡ text.old ++ entry_line name.now levels) }
{
    put_indent(text, levels.min(MOST_LEVELS))?;
    text.bytes(name)?;
    text.put("\n")
}

/// Puts the line of an entry at the end, where its procedure has a name.
fn put_entry(
    text: &mut ListingText,
    names: &[Text],
    procedure: usize,
    levels: usize,
) -> Result<(), AllocError>
    ensures { OnOk result (text.new
        ≡ text.old ++ line_of (slice_get names.now procedure) levels) }
{
    match names.get(procedure) {
        Some(name) => put_line(text, name.as_slice(), levels),
        None => Ok(()),
    }
}

/// The lines of entries.
fn lines(alloc: Global, names: &[Text], entries: &[Entry]) -> Result<ListingText, AllocError>
    ensures { IfOk result (λ text. text ≡ trace_text names.now entries.now) }
{
    let mut text = ListingText::new(alloc);
    let mut open = Vec::new(alloc);
    for entry in entries {
        let levels = levels_around(open.as_slice(), entry.x2);
        open.truncate(levels);
        open.push(entry.x2)?;
        put_entry(&mut text, names, entry.procedure, levels)?;
    }
    Ok(text)
}

/// The text of the first procedures, at most so many, that a program enters on no input, in as many
/// steps as a run does by default. They begin at these addresses, and have these names.
pub fn traced(
    alloc: Global,
    program: &Loaded,
    starts: &[u32],
    names: &[Text],
    most: usize,
) -> Result<Vec<u8>, AllocError>
    ensures { IfOk result (λ text. text.items ≡ trace_text names.now
        (take most (entries_at starts.now (states default_steps [] (start_of program.now))))) }
{
    let entries = entries(alloc, program, starts, most)?;
    let text = lines(alloc, names, entries.as_slice())?;
    Ok(text.into_vec())
}
