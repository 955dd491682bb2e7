//! The profile of a run.

ghost use Rattle.std.specs.Prelude.{◌≡◌, ◌≤◌, ◌++◌, ℕ, [], length, IfOk, OnOk};
ghost use Rattle.limits.specs.Limits.{default_steps};
ghost use Rattle.rv32_machine.specs.Steps.{start_of};
ghost use Rattle.rv32_steps.specs.Trace.{trace};
ghost use Rattle.image_trace.specs.Places.{times_noted};
ghost use Rattle.image_trace.specs.Profile.{counts_of, counts_in, outside, number_of, start_line, count_line, line_of_count, count_lines, profile_text};

use crate::places::{Places, places_of};
use elf32::Loaded;
use grin_syntax::listing_text::ListingText;
use seq::Text;
use std::alloc::{AllocError, Global};

/// What is counted of a procedure.
#[derive(Clone, Copy, Drop)]
pub struct Count {
    /// How often it was entered.
    pub entries: u64,
    /// How many instructions were done in its code.
    pub instructions: u64,
}

/// The counts of procedures that begin at these addresses and have code of so many words.
fn counts(
    alloc: Global,
    places: &Places,
    begins: &[u32],
    words: &[u32],
) -> Result<Vec<Count>, AllocError>
    requires one_each { length words.now ≡ length begins.now }
    requires few { (a : ℕ) → times_noted places.now a ≤ default_steps }
    ensures { IfOk result (λ counts.
        counts.items ≡ counts_of (times_noted places.now) begins.now words.now) }
{
    let mut counts = Vec::with_capacity(alloc, begins.len())?;
    for (f, begin) in begins.iter().enumerate() {
        counts.push(Count {
            entries: places.times(*begin as u64),
            instructions: places.done_within(*begin, words[f]),
        })?;
    }
    Ok(counts)
}

/// The instructions of a run of so many that were done outside of procedures.
fn outside(all: u64, counts: &[Count]) -> u64
    ensures { result ≡ outside all counts.now }
{
    let mut rest = all;
    for count in counts {
        rest = rest.saturating_sub(count.instructions);
    }
    rest
}

/// Puts what is counted, and how many of it there are, at the end.
#[tactic(auto, unfolding(crate::specs::Profile::number_of))]
fn put_number(text: &mut ListingText, what: &str, number: u64) -> Result<(), AllocError>
    ensures { OnOk result (text.new ≡ text.old ++ number_of what.now number) }
{
    text.put(what)?;
    text.number(number as usize)
}

/// Puts the line for what was done outside of procedures at the end.
#[tactic(auto, unfolding(crate::specs::Profile::start_line))]
fn put_start(text: &mut ListingText, instructions: u64) -> Result<(), AllocError>
    ensures { OnOk result (text.new ≡ text.old ++ start_line instructions) }
{
    put_number(text, "start instructions ", instructions)?;
    text.put("\n")
}

/// Puts the line of a procedure at the end.
#[tactic(auto, unfolding(crate::specs::Profile::count_line))]
fn put_line(
    text: &mut ListingText,
    name: &[u8],
    entries: u64,
    instructions: u64,
) -> Result<(), AllocError>
    ensures { OnOk result (text.new ≡ text.old ++ count_line name.now entries instructions) }
{
    text.bytes(name)?;
    put_number(text, " entries ", entries)?;
    put_number(text, " instructions ", instructions)?;
    text.put("\n")
}

/// Puts the line of a procedure at the end, if an instruction of its was done.
fn put_count(text: &mut ListingText, name: &[u8], count: &Count) -> Result<(), AllocError>
    ensures { OnOk result (text.new ≡ text.old ++ line_of_count name.now count.now) }
{
    if count.instructions == 0 {
        return Ok(());
    }
    put_line(text, name, count.entries, count.instructions)
}

/// Puts the lines of procedures at the end.
fn put_counts(text: &mut ListingText, names: &[Text], counts: &[Count]) -> Result<(), AllocError>
    requires { length counts.now ≡ length names.now }
    ensures { OnOk result (text.new ≡ text.old ++ count_lines names.now counts.now) }
{
    for (f, name) in names.iter().enumerate() {
        put_count(text, name.as_slice(), &counts[f])?;
    }
    Ok(())
}

/// How many words of memory there are up to the end of the procedures' code.
fn words_to_end(begins: &[u32], words: &[u32]) -> usize
    requires { length words.now ≡ length begins.now }
{
    let mut end = 0;
    for (f, begin) in begins.iter().enumerate() {
        end = end.max((*begin / 4) as usize + words[f] as usize);
    }
    end
}

/// The profile of the run of a program on no input, in as many steps as a run does by default. Its
/// procedures begin at these addresses, have code of so many words, and have these names.
pub fn profiled(
    alloc: Global,
    program: &Loaded,
    begins: &[u32],
    words: &[u32],
    names: &[Text],
) -> Result<Vec<u8>, AllocError>
    requires one_each { length words.now ≡ length begins.now }
    requires named { length begins.now ≡ length names.now }
    ensures { let way = trace default_steps [] (start_of program.now) in IfOk result (λ text.
        text.items ≡ profile_text names.now (length way) (counts_in way begins.now words.now)) }
{
    let places = places_of(alloc, program, words_to_end(begins, words))?;
    let counts = counts(alloc, &places, begins, words)?;
    let counts = counts.as_slice();
    let mut text = ListingText::new(alloc);
    put_start(&mut text, outside(places.all, counts))?;
    put_counts(&mut text, names, counts)?;
    Ok(text.into_vec())
}
