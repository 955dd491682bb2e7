//! The command line as a whole.

ghost use Rattle.std.specs.Prelude.{◌≡◌, ◌≤◌, true, Some, IfSome};
ghost use Rattle.text_commands.specs.Over.{shelf_over, source_over, sink_over};
ghost use Rattle.command_line.specs.Commands.{command_of, asked_by, RunFile, ExecImage};
ghost use Rattle.core_link.specs.Laws.{TextOrderIsIrrelevant, LinkingKeepsNameRules, SingleModuleKeepsMeaning};
ghost use Rattle.lambda_lift.specs.Laws.{LiftingPreservesMeaning};
ghost use Rattle.match_compile.specs.Laws.{SizeIsBounded, BreaksOnlySize, SimpleStaysOneFunction, TranslationKeepsMeaning};
ghost use Rattle.grin_compile.specs.Limits.{SizesAreInRange};
ghost use Rattle.grin_driver.specs.Building.{IsBuildOutcome};
ghost use Rattle.grin_driver.specs.Needs.{IsNeedsOutcome};
ghost use Rattle.grin_driver.specs.After.{IsListAfterOutcome};
ghost use Rattle.grin_driver.specs.Costs.{AnswersAtCost, AnswersAndTells};
ghost use Rattle.grin_driver.specs.TypedRuns.{TypedNeverExits};
ghost use Rattle.grin_driver.specs.WrittenRuns.{LinkedImagesKeepMeaning, LiftedImagesKeepMeaning, MatchedImagesKeepMeaning};
ghost use Rattle.text_commands.specs.Operands.{HoldsOfOperandFile, text_read_limit};
ghost use Rattle.grin_driver.specs.Answer.{SizesAreWithinLimits, HoldsOfNamedFiles};
ghost use Rattle.grin_driver.specs.Completeness.{NothingFailed, Gives};
ghost use Rattle.text_commands.specs.declared.status.Status.TheVariants.{OutOfMemory};
ghost use Rattle.grin_driver.specs.Tracing.{IsTraceOutcome};

use crate::build::build_text;
use crate::cost::{Cost, EndedWithCost};
use crate::exec::exec_counted;
use crate::generate::generate;
use crate::laws::{
    lifted_images_keep_meaning, linked_images_keep_meaning, matched_images_keep_meaning,
    typed_never_exits,
};
use crate::list::list_after;
use crate::needs::tell_needs;
use crate::points::Points;
use crate::profile::Profile;
use crate::run::run_text;
use crate::trace::put_trace;
use command_line::{Command, Line, Listing};
use core_link::laws::{
    linking_keeps_name_rules, single_module_keeps_meaning, text_order_is_irrelevant,
};
use grin_compile::Options;
use grin_io::{Shelf, Sink, Source};
use lambda_lift::laws::lifting_preserves_meaning;
use match_compile::laws::{
    breaks_only_size, simple_stays_one_function, size_is_bounded, translation_keeps_meaning,
};
use std::alloc::Global;
use text_commands::equations::Equations;
use text_commands::laws::one_accepted_program;
use text_commands::lift::Lift;
use text_commands::operands::{check_file, link_files};
use text_commands::reading::{MOST_OF_TEXT, read_file};
use text_commands::sides::Sides;
use text_commands::status::Status;
use text_commands::types::Types;
use text_commands::writing::write_file;

/// The most bytes that are read of an image: one more than those of the longest one.
const MOST_OF_IMAGE: usize = 1_342_177_281;

/// Runs the text of a file on the input, with so many cells and bytes of stack, for at most so many
/// instructions.
fn run_file<F: Shelf, I: Source, K: Sink>(
    alloc: Global,
    file: &str,
    options: Options,
    steps: u64,
    shelf: &mut F,
    input: &mut I,
    out: &mut K,
) -> EndedWithCost
    requires permitted { F.permitted file.now }
    requires within { SizesAreInRange options.cells options.stack }
    ensures answer { AnswersAtCost (shelf_over F.Shelf shelf.old shelf.new)
        (source_over I.Source input.old input.new) (sink_over K.Sink out.old out.new)
        (Some (RunFile file.now options.cells options.stack steps true)) result.status result.cost }
    ensures later { (F.faults shelf.old ≤ F.faults shelf.new)
        × ((I.faults input.old ≤ I.faults input.new) × (K.faults out.old ≤ K.faults out.new)) }
{
    match read_file(alloc, shelf, file, MOST_OF_TEXT) {
        Ok(text) => run_text(alloc, text.as_slice(), options, steps, input, out),
        Err(status) => EndedWithCost::of(status),
    }
}

/// Lists the text of a file after a pass.
fn list_file<F: Shelf, K: Sink>(
    alloc: Global,
    file: &str,
    after: Listing,
    shelf: &mut F,
    out: &mut K,
) -> Status
    requires { F.permitted file.now }
    ensures answer { HoldsOfOperandFile (shelf_over F.Shelf shelf.old shelf.new) text_read_limit
        (out.new ≡ out.old) file.now (λ text status.
        IsListAfterOutcome (sink_over K.Sink out.old out.new) text after status) result }
    ensures later { (F.faults shelf.old ≤ F.faults shelf.new)
        × (K.faults out.old ≤ K.faults out.new) }
{
    match read_file(alloc, shelf, file, MOST_OF_TEXT) {
        Ok(text) => list_after(alloc, text.as_slice(), after, out),
        Err(status) => status,
    }
}

/// Puts the image of the text of a file, with so many cells and bytes of stack.
fn build_file<F: Shelf, K: Sink>(
    alloc: Global,
    file: &str,
    options: Options,
    shelf: &mut F,
    out: &mut K,
) -> Status
    requires permitted { F.permitted file.now }
    requires within { SizesAreInRange options.cells options.stack }
    ensures answer { HoldsOfOperandFile (shelf_over F.Shelf shelf.old shelf.new) text_read_limit
        (out.new ≡ out.old) file.now (λ text status.
        IsBuildOutcome (sink_over K.Sink out.old out.new) text options.cells
        options.stack status) result }
    ensures later { (F.faults shelf.old ≤ F.faults shelf.new)
        × (K.faults out.old ≤ K.faults out.new) }
{
    match read_file(alloc, shelf, file, MOST_OF_TEXT) {
        Ok(text) => build_text(alloc, text.as_slice(), options, out),
        Err(status) => status,
    }
}

/// Puts what the image of the text of a file needs, with so many cells and bytes of stack.
fn costs_file<F: Shelf, K: Sink>(
    alloc: Global,
    file: &str,
    options: Options,
    shelf: &mut F,
    out: &mut K,
) -> Status
    requires permitted { F.permitted file.now }
    requires within { SizesAreInRange options.cells options.stack }
    ensures answer { HoldsOfOperandFile (shelf_over F.Shelf shelf.old shelf.new) text_read_limit
        (out.new ≡ out.old) file.now (λ text status.
        IsNeedsOutcome (sink_over K.Sink out.old out.new) text options.cells
        options.stack status) result }
    ensures later { (F.faults shelf.old ≤ F.faults shelf.new)
        × (K.faults out.old ≤ K.faults out.new) }
{
    match read_file(alloc, shelf, file, MOST_OF_TEXT) {
        Ok(text) => tell_needs(alloc, text.as_slice(), options, out),
        Err(status) => status,
    }
}

/// Puts the first procedures, at most so many, that the image of the text of a file enters.
fn trace_file<F: Shelf, K: Sink>(
    alloc: Global,
    file: &str,
    units: u32,
    shelf: &mut F,
    out: &mut K,
) -> Status
    requires { F.permitted file.now }
    ensures answer { HoldsOfOperandFile (shelf_over F.Shelf shelf.old shelf.new) text_read_limit
        (out.new ≡ out.old) file.now (λ text status.
        IsTraceOutcome (sink_over K.Sink out.old out.new) text units status) result }
    ensures later { (F.faults shelf.old ≤ F.faults shelf.new)
        × (K.faults out.old ≤ K.faults out.new) }
{
    match read_file(alloc, shelf, file, MOST_OF_TEXT) {
        Ok(text) => put_trace(alloc, text.as_slice(), units, out),
        Err(status) => status,
    }
}

/// Runs the executable of a file on the input for at most so many instructions.
fn exec_file<F: Shelf, I: Source, K: Sink>(
    alloc: Global,
    file: &str,
    steps: u64,
    shelf: &mut F,
    input: &mut I,
    out: &mut K,
) -> EndedWithCost
    requires { F.permitted file.now }
    ensures answer { AnswersAtCost (shelf_over F.Shelf shelf.old shelf.new)
        (source_over I.Source input.old input.new) (sink_over K.Sink out.old out.new)
        (Some (ExecImage file.now steps true)) result.status result.cost }
    ensures later { (F.faults shelf.old ≤ F.faults shelf.new)
        × ((I.faults input.old ≤ I.faults input.new) × (K.faults out.old ≤ K.faults out.new)) }
{
    match read_file(alloc, shelf, file, MOST_OF_IMAGE) {
        Ok(bytes) => {
            let ran = exec_counted(alloc, bytes.as_slice(), steps, input, out);
            EndedWithCost {
                status: ran.status,
                cost: Cost::of_exec(ran.counts),
            }
        }
        Err(status) => EndedWithCost::of(status),
    }
}

/// Runs a command.
fn run_command<F: Shelf, I: Source, K: Sink>(
    alloc: Global,
    command: &Command<'_>,
    shelf: &mut F,
    input: &mut I,
    out: &mut K,
) -> EndedWithCost
    requires permitted { HoldsOfNamedFiles F.permitted (asked_by command.now) }
    requires within { SizesAreWithinLimits (asked_by command.now) }
    ensures answer { AnswersAtCost (shelf_over F.Shelf shelf.old shelf.new)
        (source_over I.Source input.old input.new)
        (sink_over K.Sink out.old out.new) (Some (asked_by command.now)) result.status result.cost }
    ensures later { (F.faults shelf.old ≤ F.faults shelf.new)
        × ((I.faults input.old ≤ I.faults input.new) × (K.faults out.old ≤ K.faults out.new)) }
{
    match command {
        Command::Run {
            file,
            cells,
            stack,
            steps,
            stats,
        } => {
            let options = Options {
                cells: *cells,
                stack: *stack,
            };
            run_file(alloc, file, options, *steps, shelf, input, out).asked(*stats)
        }
        Command::Exec {
            image,
            steps,
            stats,
        } => exec_file(alloc, image, *steps, shelf, input, out).asked(*stats),
        Command::Check { file } => EndedWithCost::of(check_file(alloc, file, shelf, out)),
        Command::List { file, after } => EndedWithCost::of(list_file(
            alloc, file, *after, shelf, out,
        )),
        Command::Build { file, cells, stack } => {
            let options = Options {
                cells: *cells,
                stack: *stack,
            };
            EndedWithCost::of(build_file(alloc, file, options, shelf, out))
        }
        Command::Costs { file, cells, stack } => {
            let options = Options {
                cells: *cells,
                stack: *stack,
            };
            EndedWithCost::of(costs_file(alloc, file, options, shelf, out))
        }
        Command::Trace { file, units } => EndedWithCost::of(trace_file(
            alloc, file, *units, shelf, out,
        )),
        Command::Gen { seed, size } => EndedWithCost::of(generate(alloc, *seed, *size, out)),
        Command::Link { files } => EndedWithCost::of(link_files(alloc, files, shelf, out)),
        Command::Lift { file } => EndedWithCost::of(write_file(alloc, &Lift, file, shelf, out)),
        Command::Match { file } => EndedWithCost::of(write_file(
            alloc, &Equations, file, shelf, out,
        )),
        Command::Types { file } => EndedWithCost::of(write_file(alloc, &Types, file, shelf, out)),
        Command::Sides { file } => EndedWithCost::of(write_file(alloc, &Sides, file, shelf, out)),
        Command::Points { file } => EndedWithCost::of(write_file(alloc, &Points, file, shelf, out)),
        Command::Profile { file } => {
            EndedWithCost::of(write_file(alloc, &Profile, file, shelf, out))
        }
    }
}

/// Runs the command that the words stand for.
fn run_line<F: Shelf, I: Source, K: Sink>(
    alloc: Global,
    line: &Line,
    shelf: &mut F,
    input: &mut I,
    out: &mut K,
) -> EndedWithCost
    requires { IfSome (command_of line.now) (HoldsOfNamedFiles F.permitted) }
    ensures answer { AnswersAtCost (shelf_over F.Shelf shelf.old shelf.new)
        (source_over I.Source input.old input.new)
        (sink_over K.Sink out.old out.new) (command_of line.now) result.status result.cost }
    ensures later { (F.faults shelf.old ≤ F.faults shelf.new)
        × ((I.faults input.old ≤ I.faults input.new) × (K.faults out.old ≤ K.faults out.new)) }
{
    match line.command() {
        None => EndedWithCost::of(Status::Usage),
        Some(command) => run_command(alloc, &command, shelf, input, out),
    }
}

/// Runs the command that the words of a line stand for, and puts the line of its status on `err`.
///
/// `run FILE` compiles a text and runs it on the input, `check FILE` puts the line of its program,
/// `list FILE` lists it, `build FILE` puts its image, `costs FILE` what that image needs, `trace
/// FILE` the procedures that it enters on no input, `profile FILE` how often it enters each and how
/// many instructions it does in it, and `exec IMAGE` runs an executable on the input; `gen` runs a generated text and puts its summary, `link FILE..` puts the text that modules
/// are together, `lift FILE` the text of Core that a text with lambdas and local functions
/// stands for, `match FILE` that of a text of equations, `types FILE` that of a text with types,
/// which fit, and `sides FILE` the two sides where they do not; `points FILE` puts what the
/// analysis finds. With `--stats` the cost of the run of `run` or `exec` is put behind that line,
/// where the run stopped. A file is read to its end, or up to the first byte past the longest one.
/// A fault of `err` changes no status.
pub fn grinc_main<F: Shelf, I: Source, K: Sink, E: Sink>(
    alloc: Global,
    line: &Line,
    shelf: &mut F,
    input: &mut I,
    out: &mut K,
    err: &mut E,
) -> Status
    requires permitted { IfSome (command_of line.now) (HoldsOfNamedFiles F.permitted) }
    ensures answer { AnswersAndTells (shelf_over F.Shelf shelf.old shelf.new)
        (source_over I.Source input.old input.new) (sink_over K.Sink out.old out.new)
        (sink_over E.Sink err.old err.new) (command_of line.now) result }
    ensures complete { NothingFailed (shelf_over F.Shelf shelf.old shelf.new)
        (source_over I.Source input.old input.new) (sink_over K.Sink out.old out.new)
        → Gives (shelf_over F.Shelf shelf.old shelf.new) (command_of line.now) result }
    ensures memory { result ≡ OutOfMemory → out.new ≡ out.old }
    ensures linking { TextOrderIsIrrelevant × (LinkingKeepsNameRules × SingleModuleKeepsMeaning) }
    ensures lifting { LiftingPreservesMeaning }
    ensures matching { (SizeIsBounded × BreaksOnlySize) × (SimpleStaysOneFunction × TranslationKeepsMeaning) }
    ensures typing { TypedNeverExits }
    ensures linked { LinkedImagesKeepMeaning }
    ensures lifted { LiftedImagesKeepMeaning }
    ensures matched { MatchedImagesKeepMeaning }
    ensures later { (F.faults shelf.old ≤ F.faults shelf.new)
        × ((I.faults input.old ≤ I.faults input.new) × (K.faults out.old ≤ K.faults out.new)) }
{
    // A law: each accepted text has one program, so what is accepted isn't refused.
    one_accepted_program();
    // Laws of what is linked.
    text_order_is_irrelevant();
    linking_keeps_name_rules();
    single_module_keeps_meaning();
    // A law of what is lifted.
    lifting_preserves_meaning();
    // Laws of what equations become.
    size_is_bounded();
    breaks_only_size();
    simple_stays_one_function();
    translation_keeps_meaning();
    // A law of what is made of a text with types.
    typed_never_exits();
    // Laws of the images of what is linked, lifted and matched.
    linked_images_keep_meaning();
    lifted_images_keep_meaning();
    matched_images_keep_meaning();
    let ended = run_line(alloc, line, shelf, input, out);
    ended.tell(err);
    ended.status
}
