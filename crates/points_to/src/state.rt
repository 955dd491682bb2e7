// Steps from what is known to more. A step that does not follow from what is known does nothing.

ghost use Rattle.std.specs.Prelude.{◌≡◌, ◌<◌, ℕ, List, length, IfOk, OnOk};
ghost use Rattle.std.specs.List.{flat_map};
ghost use Rattle.flow_system.specs.declared.fact.Element.{Element as Element'};
ghost use Rattle.flow_system.specs.Inclusions.{Inclusion as Inclusion'};
ghost use Rattle.flow_system.specs.Shown.{tables_of, inclusions_of, inclusion_of, sink_of};
ghost use Rattle.flow_system.specs.Tables.{Tables};
ghost use Rattle.points_to.specs.Bits.{block_words};
ghost use Rattle.points_to.specs.Copies.{IsReached};
ghost use Rattle.points_to.specs.Held.{In};
ghost use Rattle.points_to.specs.Kept.{touches_no_cell, is_not_cell_sink};

use crate::bits::Bits;
use crate::copies::{Copies, put_fresh};
use crate::kept::Kept;
use crate::rounds::satisfy as satisfy_plain;
use crate::runs::WordRuns;
use flow_system::fact::Place;
use flow_system::inclusion::{FlowSink, FlowSystem, Inclusion, Source};
use seq::Seq;
use std::alloc::{AllocError, Global};

/// A step: what an inclusion asks for that has nothing to do with cells; the value of an inclusion
/// at a site; the word of the value with a number, at a site, for a fetch; the same for all that
/// its variable will hold, by a tag; what is new at a variable; what is new at a fetch.
#[derive(Clone, Copy)]
pub enum Step {
    Ask(u32),
    Store(u32, u32),
    Give(u32, u32, u32),
    Link(u32, u32, u32, u32),
    Pass(u32),
    Deliver(u32),
}

/// What is known, and what of it was passed on and delivered.
#[derive(Drop)]
pub struct State {
    pub kept: Kept,
    pub copies: Copies,
    passed: Vec<Bits>,
    delivered: Vec<Bits>,
    // What was new in the last step at a variable or a fetch.
    pub newest: WordRuns,
    // The fetches, or the variables, that may have more by the last step.
    pub changed: Vec<u32>,
}

// Makes empty sets up to the one with this number.
fn grow(alloc: Global, sets: &mut Vec<Bits>, n: u32) -> Result<(), AllocError>
    ensures { OnOk result (n < length sets.new.items) }
{
    'growing: while sets.len() <= n as usize {
        sets.push(Bits::new(alloc))?;
    }
    Ok(())
}

// Lists the words of blocks that are not in the set with a number, which gets them.
fn take(
    alloc: Global,
    blocks: &[(u32, u64)],
    sets: &mut Vec<Bits>,
    n: u32,
    new: &mut WordRuns,
) -> Result<(), AllocError>
    ensures { OnOk result ((u : Element') → In u new.new
        → In u (flat_map block_words blocks.now)) }
{
    grow(alloc, sets, n)?;
    take_into(blocks, &mut sets[n as usize], new)
}

fn take_into(blocks: &[(u32, u64)], set: &mut Bits, new: &mut WordRuns) -> Result<(), AllocError>
    ensures { OnOk result ((u : Element') → In u new.new
        → In u (flat_map block_words blocks.now)) }
{
    new.clear();
    put_fresh(blocks, set, new)?;
    new.put_into(set, 0)?;
    Ok(())
}

// Whether blocks are others than those of a set.
fn are_other(blocks: &[(u32, u64)], set: Option<&Bits>) -> bool {
    match set {
        None => !blocks.is_empty(),
        Some(set) => blocks != set.blocks.as_slice(),
    }
}

impl State {
    /// Nothing is known.
    pub fn new(alloc: Global) -> State
        ensures { (p : Tables) → (cs : List Inclusion') → IsReached p cs result }
    {
        State {
            kept: Kept::new(alloc),
            copies: Copies::new(alloc),
            passed: Vec::new(alloc),
            delivered: Vec::new(alloc),
            newest: WordRuns::new(alloc),
            changed: Vec::new(alloc),
        }
    }

    /// What is known in the end.
    pub fn into_kept(self) -> Kept
        ensures { result ≡ self.kept }
    {
        let State { kept, .. } = self;
        kept
    }

    /// Whether a variable has words that were not passed on.
    pub fn has_to_pass(&self, x: u32) -> bool {
        are_other(self.kept.facts.word_blocks(x), self.passed.get(x as usize))
    }

    fn ask(&mut self, alloc: Global, system: &FlowSystem, n: u32) -> Result<bool, AllocError>
        ensures { OnOk result (IsReached (tables_of system.now) (inclusions_of system.now) self.old
            → IsReached (tables_of system.now) (inclusions_of system.now) self.new) }
    {
        match system.inclusions.get(n as usize) {
            None => Ok(false),
            Some(inclusion) => {
                if touches_no_cell(inclusion) {
                    return satisfy_plain(alloc, system, &mut self.kept.facts, inclusion);
                }
                Ok(false)
            }
        }
    }

    fn pass(&mut self, alloc: Global, x: u32) -> Result<bool, AllocError>
        ensures { OnOk result ((p : Tables) → (cs : List Inclusion')
            → IsReached p cs self.old → IsReached p cs self.new) }
    {
        take(
            alloc,
            self.kept.facts.word_blocks(x),
            &mut self.passed,
            x,
            &mut self.newest,
        )?;
        self.copies
            .pass(x, self.newest.blocks(), &mut self.changed)?;
        Ok(!self.newest.blocks().is_empty())
    }

    fn deliver(&mut self, alloc: Global, g: u32) -> Result<bool, AllocError>
        ensures { OnOk result ((p : Tables) → (cs : List Inclusion')
            → IsReached p cs self.old → IsReached p cs self.new) }
    {
        take(
            alloc,
            self.copies.words(g),
            &mut self.delivered,
            g,
            &mut self.newest,
        )?;
        self.copies.deliver(
            alloc,
            &mut self.kept.facts,
            g,
            self.newest.blocks(),
            &mut self.changed,
        )?;
        Ok(!self.newest.blocks().is_empty())
    }

    /// Takes a step. Says whether something may be new.
    pub fn take(
        &mut self,
        alloc: Global,
        system: &FlowSystem,
        step: Step,
    ) -> Result<bool, AllocError>
        ensures { OnOk result (IsReached (tables_of system.now) (inclusions_of system.now) self.old
            → IsReached (tables_of system.now) (inclusions_of system.now) self.new) }
    {
        match step {
            Step::Ask(n) => self.ask(alloc, system, n),
            Step::Store(n, site) => self.kept.store(alloc, system, n, site),
            Step::Give(g, site, n) => {
                self.copies
                    .give(alloc, system, &self.kept, g, site, n, &mut self.changed)?;
                Ok(true)
            }
            Step::Link(g, site, n, t) => {
                self.copies.link(alloc, system, &self.kept, g, site, n, t, &mut self.changed)
            }
            Step::Pass(x) => self.pass(alloc, x),
            Step::Deliver(g) => self.deliver(alloc, g),
        }
    }
}

/// Whether an inclusion reads no cells, and puts nothing into cells.
pub fn touches_no_cell(inclusion: &Inclusion) -> bool
    ensures { result ≡ touches_no_cell (inclusion_of inclusion.now) }
{
    match inclusion {
        Inclusion::Flows(source, sink) => match source {
            Source::Value(_) => is_not_cell_sink(sink),
            Source::ACell(_) => is_not_cell_sink(sink),
            Source::ANumber => is_not_cell_sink(sink),
            Source::Result(_) => is_not_cell_sink(sink),
            Source::NodesAt(_) => false,
            Source::WordAt(_, _) => false,
            Source::EvaluatedAt(_) => false,
            Source::Extended(_, _) => false,
            Source::FieldsOf(_, _) => is_not_cell_sink(sink),
        },
        Inclusion::Forces(_) => false,
        Inclusion::Applies(_, _, _) => false,
    }
}

/// Whether a sink is no cell.
pub fn is_not_cell_sink(sink: &FlowSink) -> bool
    ensures { result ≡ is_not_cell_sink (sink_of sink.now) }
{
    match sink {
        FlowSink::To(_) => true,
        FlowSink::Result(_) => true,
        FlowSink::Site(_) => false,
        FlowSink::CellsAt(_) => false,
    }
}
