//! What a run promises in every world whose files, reader and writers keep the clauses of `Shelf` and
//! of std.
#![tactic(auto)]

ghost use Rattle.std.specs.Prelude.{IfSome};
ghost use Rattle.grin_io.specs.Changes.{shelf_change, source_change, sink_change};
ghost use Rattle.command_line.specs.Commands.{command_of};
ghost use Rattle.grin_driver.specs.Answer.{HoldsOfNamedFiles};
ghost use Rattle.grin_driver.specs.Costs.{AnswersAndTells};
ghost use Rattle.promise.specs.Promise.{KeepsPromise};

use command_line::Line;
use grin_driver::grinc_main;
use grin_io::{Shelf, Sink, Source};
use natural_semantics::what_is_told_is_derived;
use std::alloc::Global;
use std::io::{Read, Write};
use system_io::{ReaderSource, WriterSink};
use text_commands::status::Status;

/// Runs the command that the words of a line stand for, on the bytes of a reader, and puts what it
/// puts out to a writer and the line of its status to another one.
pub fn run_main<F: Shelf, R: Read, W: Write, V: Write>(
    alloc: Global,
    line: &Line,
    shelf: &mut F,
    input: &mut ReaderSource<R>,
    out: &mut WriterSink<W>,
    err: &mut WriterSink<V>,
) -> Status
    requires { IfSome (command_of line.now) (HoldsOfNamedFiles F.permitted) }
    ensures promise { KeepsPromise (shelf_change F.content F.faults shelf.old shelf.new)
        (source_change ⟦<ReaderSource<R> as Source>⟧.read_gives
        ⟦<ReaderSource<R> as Source>⟧.left ⟦<ReaderSource<R> as Source>⟧.is_over
        ⟦<ReaderSource<R> as Source>⟧.faults input.old input.new)
        (sink_change ⟦<WriterSink<W> as Sink>⟧.put_gives ⟦<WriterSink<W> as Sink>⟧.taken
        ⟦<WriterSink<W> as Sink>⟧.faults out.old out.new) (command_of line.now) result }
    ensures answer { AnswersAndTells (shelf_change F.content F.faults shelf.old shelf.new)
        (source_change ⟦<ReaderSource<R> as Source>⟧.read_gives
        ⟦<ReaderSource<R> as Source>⟧.left ⟦<ReaderSource<R> as Source>⟧.is_over
        ⟦<ReaderSource<R> as Source>⟧.faults input.old input.new)
        (sink_change ⟦<WriterSink<W> as Sink>⟧.put_gives ⟦<WriterSink<W> as Sink>⟧.taken
        ⟦<WriterSink<W> as Sink>⟧.faults out.old out.new)
        (sink_change ⟦<WriterSink<V> as Sink>⟧.put_gives ⟦<WriterSink<V> as Sink>⟧.taken
        ⟦<WriterSink<V> as Sink>⟧.faults err.old err.new) (command_of line.now) result }
{
    // A law: what the evaluator tells is derived by the relation.
    what_is_told_is_derived();
    grinc_main(alloc, line, shelf, input, out, err)
}
