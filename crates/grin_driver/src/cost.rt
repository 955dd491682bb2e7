//! What a run cost, and what is told of it.

ghost use Rattle.std.specs.Prelude.{◌≡◌, ◌*◌, ◌≤◌, Some, None, length, if◌then◌else◌};
ghost use Rattle.std.specs.Option.{option_map};
ghost use Rattle.text_commands.specs.Over.{sink_over};
ghost use Rattle.grin_driver.specs.Costs.{IsCostOf, exec_cost, cost_line, cells_before, LineIsPrinted, LinesArePrinted, StatusAndCostArePrinted};

use crate::standing::no_alternative_line;
use grin_compile::Built;
use grin_io::Sink;
use limits::HEAP_START;
use text_commands::note::Note;
use text_commands::status::Status;

/// What is counted of a run.
#[derive(Clone, Copy, Drop)]
pub(crate) struct RunCounts {
    /// The instructions that were done.
    pub(crate) instructions: u64,
    /// What x3 was at the end: in an image that was compiled, the address of the next cell.
    pub(crate) next_cell: u32,
    /// What x5 was at the end: in an image that found no alternative, the address behind its jump
    /// to where it stopped.
    pub(crate) link: u32,
}

/// How a program ended, and the counts of its run, where that stopped.
#[derive(Clone, Copy, Drop)]
pub(crate) struct Counted {
    pub(crate) status: Status,
    pub(crate) counts: Option<RunCounts>,
}

/// What a run cost, and where it found no alternative.
#[derive(Drop)]
pub struct Cost {
    /// The instructions that were done.
    pub instructions: u64,
    /// The cells that were bound, where it is known how large they are.
    pub cells: Option<u64>,
    /// The line that names the procedure in whose code the image found no alternative, where it
    /// ended so.
    pub place: Option<Note>,
}

/// How a command ended, and what its run cost, where that is told.
#[derive(Drop)]
pub struct EndedWithCost {
    /// How it ended.
    pub status: Status,
    /// What its run cost.
    pub cost: Option<Cost>,
}

/// The cells of so many words that stand before an address, and at most `cells`.
fn cells_before(next_cell: u32, width: u32, cells: u32) -> u64
    requires { 1 ≤ width }
    ensures { result ≡ cells_before (4 * width) cells next_cell }
{
    let bytes = next_cell.saturating_sub(HEAP_START) as u64;
    let bound = bytes / (4 * width as u64);
    bound.min(cells as u64)
}

/// Puts a line on the error output, as one put. A fault changes nothing else.
fn put_line<E: Sink>(err: &mut E, line: &[u8])
    ensures { LineIsPrinted (sink_over E.Sink err.old err.new) line.now }
{
    let _told = err.put(line);
}

impl Cost {
    /// What the run of a compiled image cost that ended so, by its counts, where the image was
    /// given so many cells.
    pub(crate) fn of_run(
        built: &Built,
        status: Status,
        counts: Option<RunCounts>,
        cells: u32,
    ) -> Option<Cost>
        requires width { 1 ≤ built.now.width }
        requires one_each { length built.now.starts.items ≡ length built.now.names.items }
        ensures { IsCostOf (4 * built.now.width) cells built.now.starts.items built.now.names.items
            status counts result }
    {
        let counts = counts?;
        let place = no_alternative_line(&built.starts, &built.names, status, counts.link);
        Some(Cost {
            instructions: counts.instructions,
            cells: Some(cells_before(counts.next_cell, built.width, cells)),
            place,
        })
    }

    /// What the run of an executable cost, by its counts.
    pub(crate) fn of_exec(counts: Option<RunCounts>) -> Option<Cost>
        ensures { result ≡ option_map exec_cost counts }
    {
        let counts = counts?;
        Some(Cost {
            instructions: counts.instructions,
            cells: None,
            place: None,
        })
    }

    /// The line.
    fn line(&self) -> Note
        ensures { result ≡ cost_line self.now }
    {
        let mut note = Note::new();
        note.push_named(b"grinc: instructions ", self.instructions);
        match self.cells {
            None => {
                note.push(b"\n");
                note
            }
            Some(cells) => {
                note.push_named(b" cells ", cells);
                note.push(b"\n");
                note
            }
        }
    }

    /// Puts the line on the error output, and behind it that of the place, if there is one.
    fn tell<E: Sink>(&self, err: &mut E)
        ensures { LinesArePrinted (sink_over E.Sink err.old err.new)
            (cost_line self.now) self.now.place }
    {
        match &self.place {
            None => put_line(err, self.line().as_slice()),
            Some(place) => {
                put_line(err, self.line().as_slice());
                put_line(err, place.as_slice());
            }
        }
    }
}

impl EndedWithCost {
    /// The end of a command of which no cost is told.
    pub(crate) fn of(status: Status) -> EndedWithCost
        ensures status { result.status ≡ status }
        ensures cost { result.cost ≡ None }
    {
        EndedWithCost { status, cost: None }
    }

    /// The same end, of which the cost is told where it is asked for.
    pub(crate) fn asked(self, stats: bool) -> EndedWithCost
        ensures status { result.status ≡ self.status }
        ensures cost { result.cost ≡ (if stats then self.cost else None) }
    {
        if stats {
            self
        } else {
            EndedWithCost::of(self.status)
        }
    }

    /// Puts the line of the status on the error output, and behind it that of the cost, where there
    /// is one.
    pub(crate) fn tell<E: Sink>(&self, err: &mut E)
        ensures { StatusAndCostArePrinted (sink_over E.Sink err.old err.new) self.now.status
            self.now.cost }
    {
        match &self.cost {
            None => self.status.tell(err),
            Some(cost) => {
                self.status.tell(err);
                cost.tell(err);
            }
        }
    }
}
