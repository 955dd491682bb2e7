// Which steps are worth to be taken next. Nothing is proved of it, and nothing but time depends on
// it: a step that does not follow does nothing, and what is forgotten is found in rounds.

use crate::bits::{Bits, Block, are_within, word_of};
use crate::facts::Facts;
use crate::origin::value_in;
use crate::pending::Pending;
use crate::queue::Queue;
use crate::reads::reads;
use crate::row_table::{SetTable, Table};
use crate::sources::Sources;
use crate::span::{Spans, literal_tag, variable_at};
use crate::state::{State, Step, touches_no_cell};
use crate::stored::number_block;
use crate::writers::Writers;
use flow_system::fact::{Element, Place};
use flow_system::inclusion::{FlowSink, FlowSystem, Inclusion, Source};
use grin_syntax::program::{Target, Val, Word};
use seq::Seq;
use std::alloc::{AllocError, Global};

/// What waits, and what reads what.
#[derive(Drop)]
pub struct Hints {
    // Steps at hand, the last one first.
    steps: Seq<Step>,
    inclusions: Pending,
    vars: Queue,
    fetches: Queue,
    sites: Queue,
    pub sources: Sources,
    writers: Writers,
    // By variable the vectors that begin with it.
    heads: Table<u32>,
    // By variable and by procedure, whose results they are: the inclusions that read them and have
    // nothing to do with cells.
    woken: Table<u32>,
    woken_by_results: Table<u32>,
    // By site the variables that are fetched from there.
    watchers: Table<u32>,
    spans: Spans,
    // By variable the writers that it met; by fetch the variables that are linked to it, and the
    // values that were given to it; by site the writers that the variables which are fetched from
    // there are still to meet, and those that they met.
    met: SetTable,
    linked: SetTable,
    given: SetTable,
    unmet: SetTable,
    spread: SetTable,
    // What an inclusion reads that is noted: one list for all of them.
    places: Seq<Place>,
}

impl Hints {
    /// All inclusions wait, and the fetches are put into the copies.
    pub fn new(alloc: Global, system: &FlowSystem) -> Result<Hints, AllocError> {
        let count = system.inclusions.len();
        if count > u32::MAX as usize {
            return Err(AllocError);
        }
        Ok(Hints {
            steps: Seq::new(alloc),
            inclusions: Pending::all(alloc, count as u32)?,
            vars: Queue::new(alloc),
            fetches: Queue::new(alloc),
            sites: Queue::new(alloc),
            sources: Sources::new(alloc),
            writers: Writers::new(alloc),
            heads: Table::new(alloc),
            woken: Table::new(alloc),
            woken_by_results: Table::new(alloc),
            watchers: Table::new(alloc),
            spans: Spans::new(alloc, count as u32)?,
            met: SetTable::new(alloc),
            linked: SetTable::new(alloc),
            given: SetTable::new(alloc),
            unmet: SetTable::new(alloc),
            spread: SetTable::new(alloc),
            places: Seq::new(alloc),
        })
    }

    fn note_head(
        &mut self,
        alloc: Global,
        system: &FlowSystem,
        n: u32,
        v: &Val,
    ) -> Result<(), AllocError> {
        if let Val::Vector(words) = v {
            match words.get(0) {
                Some(Word::Var(x)) => self.heads.put(alloc, x.0, n)?,
                Some(Word::TagWord(t)) => {
                    self.spans.note(system, n, t.0, words.len());
                }
                _ => {}
            }
        }
        Ok(())
    }

    // Notes what an inclusion reads that has nothing to do with cells.
    fn note_reads(
        &mut self,
        alloc: Global,
        system: &FlowSystem,
        facts: &Facts,
        n: u32,
        inclusion: &Inclusion,
    ) -> Result<(), AllocError> {
        reads(alloc, system, facts, inclusion, &mut self.places)?;
        for _ in 0..self.places.len() {
            match self.places.pop() {
                Some(Place::Var(x)) => self.woken.put(alloc, x, n)?,
                Some(Place::Result(f)) => self.woken_by_results.put(alloc, f, n)?,
                Some(Place::Site(_)) => {}
                None => {}
            }
        }
        Ok(())
    }

    // Notes an inclusion that puts a value into cells.
    fn note_stored(
        &mut self,
        alloc: Global,
        system: &FlowSystem,
        n: u32,
        v: &Val,
        sink: &FlowSink,
    ) -> Result<(), AllocError> {
        match sink {
            FlowSink::Site(_) => self.writers.note_alone(alloc, n)?,
            FlowSink::CellsAt(Word::Var(x)) => self.writers.note(alloc, x.0, n)?,
            FlowSink::CellsAt(_) => self.writers.note_alone(alloc, n)?,
            _ => return Ok(()),
        }
        self.note_head(alloc, system, n, v)
    }

    /// Notes an inclusion.
    pub fn note(
        &mut self,
        alloc: Global,
        system: &FlowSystem,
        facts: &Facts,
        n: u32,
        inclusion: &Inclusion,
    ) -> Result<(), AllocError> {
        if touches_no_cell(inclusion) {
            return self.note_reads(alloc, system, facts, n, inclusion);
        }
        if let Inclusion::Flows(Source::Value(v), sink) = inclusion {
            return self.note_stored(alloc, system, n, v, sink);
        }
        Ok(())
    }

    // Follows a fetch of the value with a number, which reaches it at a site.
    fn visit(
        &mut self,
        alloc: Global,
        system: &FlowSystem,
        state: &State,
        g: u32,
        site: u32,
        n: u32,
    ) -> Result<(), AllocError> {
        let i = match state.copies.fetch(g) {
            Some(fetch) => fetch.word,
            None => {
                return Ok(());
            }
        };
        if i == 0 {
            return self.visit_tag(alloc, system, state, g, site, n);
        }
        let (tag, fewer) = self.spans.tag_for(system, n, i);
        if fewer && !state.copies.has_number(g) {
            self.steps.push(Step::Give(g, site, n))?;
        }
        if let Some(t) = tag {
            if self.is_unlinked(alloc, system, g, n, i)? {
                self.steps.push(Step::Link(g, site, n, t))?;
            }
        }
        Ok(())
    }

    // Notes that a fetch gets word i of a value, and says whether it didn't yet: many values have
    // the same variable there.
    fn is_unlinked(
        &mut self,
        alloc: Global,
        system: &FlowSystem,
        g: u32,
        n: u32,
        i: u32,
    ) -> Result<bool, AllocError> {
        match variable_at(system, n, i) {
            Some(x) => self.linked.put(alloc, g, x),
            None => self.given.put(alloc, g, n),
        }
    }

    // The same for a fetch of tags. A tag that it has already isn't given again.
    fn visit_tag(
        &mut self,
        alloc: Global,
        system: &FlowSystem,
        state: &State,
        g: u32,
        site: u32,
        n: u32,
    ) -> Result<(), AllocError> {
        if let Some(t) = literal_tag(system, n) {
            if state.copies.has_tag(g, t) {
                return Ok(());
            }
        }
        if self.given.put(alloc, g, n)? {
            self.steps.push(Step::Give(g, site, n))?;
        }
        Ok(())
    }

    // Some writers reach a cell of a variable.
    fn meet(
        &mut self,
        alloc: Global,
        system: &FlowSystem,
        state: &State,
        x: u32,
        site: u32,
        block: (u32, u64),
    ) -> Result<(), AllocError> {
        let new = self.met.put_block(alloc, x, block)?;
        let mut left = Block::new(block.0, new);
        'writers: while let Some(k) = left.next() {
            self.meet_new(alloc, system, state, x, site, narrow(k)?)?;
        }
        Ok(())
    }

    // A writer that a variable did not meet reaches a cell of it.
    fn meet_new(
        &mut self,
        alloc: Global,
        system: &FlowSystem,
        state: &State,
        x: u32,
        site: u32,
        k: u32,
    ) -> Result<(), AllocError> {
        self.writers.met_by.put(alloc, k, (x, site))?;
        for j in 0..self.writers.values(k).len() {
            let Some(n) = self.writers.nth_value(k, j) else {
                return Ok(());
            };
            self.visit_from(alloc, system, state, x, site, n)?;
        }
        Ok(())
    }

    // Some writers reach the cell of a fetch from a global.
    fn reach_all(
        &mut self,
        alloc: Global,
        system: &FlowSystem,
        state: &State,
        g: u32,
        site: u32,
        block: (u32, u64),
    ) -> Result<(), AllocError> {
        let mut left = Block::new(block.0, block.1);
        'writers: while let Some(k) = left.next() {
            self.reach(alloc, system, state, g, site, narrow(k)?)?;
        }
        Ok(())
    }

    fn reach(
        &mut self,
        alloc: Global,
        system: &FlowSystem,
        state: &State,
        g: u32,
        site: u32,
        k: u32,
    ) -> Result<(), AllocError> {
        self.writers.reached.put(alloc, k, (g, site))?;
        for j in 0..self.writers.values(k).len() {
            let Some(n) = self.writers.nth_value(k, j) else {
                return Ok(());
            };
            self.visit(alloc, system, state, g, site, n)?;
        }
        Ok(())
    }

    // A value was stored at a site. The others of its writer are stored there too before it is met,
    // so the first one stands for all.
    fn stored(&mut self, alloc: Global, n: u32, site: u32) -> Result<(), AllocError> {
        if let Some(k) = self.writers.begun_by(n) {
            self.unmet.put(alloc, site, k)?;
            self.sites.put(site)?;
        }
        Ok(())
    }

    // The writers whose values were stored at a site are met.
    fn spread(
        &mut self,
        alloc: Global,
        system: &FlowSystem,
        state: &State,
        site: u32,
    ) -> Result<(), AllocError> {
        let writers = self.unmet.take(alloc, site);
        for block in writers.blocks.as_slice() {
            self.spread.put_block(alloc, site, *block)?;
            self.spread_block(alloc, system, state, site, *block)?;
        }
        Ok(())
    }

    fn spread_block(
        &mut self,
        alloc: Global,
        system: &FlowSystem,
        state: &State,
        site: u32,
        block: (u32, u64),
    ) -> Result<(), AllocError> {
        for k in 0..self.watchers.at(site).len() {
            let Some(x) = self.watchers.nth(site, k) else {
                return Ok(());
            };
            self.meet(alloc, system, state, x, site, block)?;
        }
        for k in 0..self.sources.globals.at(site).len() {
            let Some(g) = self.sources.globals.nth(site, k) else {
                return Ok(());
            };
            self.reach_all(alloc, system, state, g, site, block)?;
        }
        Ok(())
    }

    // A variable that is fetched from has one site more.
    fn watch(
        &mut self,
        alloc: Global,
        system: &FlowSystem,
        state: &State,
        x: u32,
        site: u32,
    ) -> Result<(), AllocError> {
        self.watchers.put(alloc, site, x)?;
        for k in 0..self.spread.blocks(site).len() {
            let Some(block) = self.spread.nth_block(site, k) else {
                return Ok(());
            };
            self.meet(alloc, system, state, x, site, block)?;
        }
        Ok(())
    }

    fn new_tag(
        &mut self,
        system: &FlowSystem,
        x: u32,
        t: u32,
        changed: &mut Bits,
    ) -> Result<(), AllocError> {
        for k in 0..self.heads.at(x).len() {
            let Some(n) = self.heads.nth(x, k) else {
                return Ok(());
            };
            if let Some(inclusion) = system.inclusions.get(n as usize) {
                if let Some(Val::Vector(words)) = value_in(inclusion) {
                    if self.spans.note(system, n, t, words.len()) {
                        changed.add_new(number_block(n))?;
                    }
                }
            }
        }
        Ok(())
    }

    fn new_cell(
        &mut self,
        alloc: Global,
        system: &FlowSystem,
        state: &State,
        x: u32,
        site: u32,
    ) -> Result<(), AllocError> {
        for k in 0..self.writers.updates(x).len() {
            let Some(n) = self.writers.nth_update(x, k) else {
                return Ok(());
            };
            self.steps.push(Step::Store(n, site))?;
        }
        if !self.sources.from.at(x).is_empty() {
            self.watch(alloc, system, state, x, site)?;
        }
        Ok(())
    }

    fn new_words(
        &mut self,
        alloc: Global,
        system: &FlowSystem,
        state: &State,
        x: u32,
        block: (u32, u64),
        changed: &mut Bits,
    ) -> Result<(), AllocError> {
        let mut left = Block::new(block.0, block.1);
        'words: while let Some(n) = left.next() {
            match word_of(n)? {
                Element::Cell(s) => self.new_cell(alloc, system, state, x, s)?,
                Element::Tag(t) => self.new_tag(system, x, t, changed)?,
                Element::Number => {}
            }
        }
        Ok(())
    }

    // Lets the inclusions wait that read a variable.
    fn wake(&mut self, x: u32) -> Result<(), AllocError> {
        for n in self.woken.at(x) {
            self.inclusions.put(*n)?;
        }
        Ok(())
    }

    // The same of the results of a procedure.
    fn wake_by_results(&mut self, f: u32) -> Result<(), AllocError> {
        for n in self.woken_by_results.at(f) {
            self.inclusions.put(*n)?;
        }
        Ok(())
    }

    // Follows all fetches of a value, which has a tag with more or fewer fields.
    fn visit_all(
        &mut self,
        alloc: Global,
        system: &FlowSystem,
        state: &State,
        n: u32,
    ) -> Result<(), AllocError> {
        let Some(w) = self.writers.of_value(n) else {
            return Ok(());
        };
        for k in 0..self.writers.reached.at(w).len() {
            let Some((g, site)) = self.writers.reached.nth(w, k) else {
                return Ok(());
            };
            self.visit(alloc, system, state, g, site, n)?;
        }
        for k in 0..self.writers.met_by.at(w).len() {
            let Some((x, site)) = self.writers.met_by.nth(w, k) else {
                return Ok(());
            };
            self.visit_from(alloc, system, state, x, site, n)?;
        }
        Ok(())
    }

    fn visit_from(
        &mut self,
        alloc: Global,
        system: &FlowSystem,
        state: &State,
        x: u32,
        site: u32,
        n: u32,
    ) -> Result<(), AllocError> {
        for k in 0..self.sources.from.at(x).len() {
            let Some(g) = self.sources.from.nth(x, k) else {
                return Ok(());
            };
            self.visit(alloc, system, state, g, site, n)?;
        }
        Ok(())
    }

    // Follows the fetches of the tags of the vectors that begin with a variable.
    fn visit_tags(&mut self, state: &State, x: u32) -> Result<(), AllocError> {
        for k in 0..self.heads.at(x).len() {
            let Some(n) = self.heads.nth(x, k) else {
                return Ok(());
            };
            self.give_tags(state, n)?;
        }
        Ok(())
    }

    fn give_tags(&mut self, state: &State, n: u32) -> Result<(), AllocError> {
        let Some(w) = self.writers.of_value(n) else {
            return Ok(());
        };
        for k in 0..self.writers.reached.at(w).len() {
            let Some((g, site)) = self.writers.reached.nth(w, k) else {
                return Ok(());
            };
            self.give_new(state, g, site, n)?;
        }
        for k in 0..self.writers.met_by.at(w).len() {
            let Some((x, site)) = self.writers.met_by.nth(w, k) else {
                return Ok(());
            };
            self.give_from(state, x, site, n)?;
        }
        Ok(())
    }

    fn give_from(&mut self, state: &State, x: u32, site: u32, n: u32) -> Result<(), AllocError> {
        for k in 0..self.sources.tags_from.at(x).len() {
            let Some(g) = self.sources.tags_from.nth(x, k) else {
                return Ok(());
            };
            self.give_new(state, g, site, n)?;
        }
        Ok(())
    }

    // Lets a fetch of tags have those of a value, where some of what is new is new to it.
    fn give_new(&mut self, state: &State, g: u32, site: u32, n: u32) -> Result<(), AllocError> {
        if let Some(fetched) = state.copies.fetches.get(g as usize) {
            if fetched.fetch.word == 0
                && !are_within(state.newest.blocks(), fetched.words.blocks.as_slice())
            {
                return self.steps.push(Step::Give(g, site, n));
            }
        }
        Ok(())
    }

    // Something was passed on from a variable.
    fn passed(
        &mut self,
        alloc: Global,
        system: &FlowSystem,
        state: &State,
        x: u32,
    ) -> Result<(), AllocError> {
        self.want_fetches(state)?;
        self.wake(x)?;
        if self.writers.updates(x).is_empty()
            && self.sources.from.at(x).is_empty()
            && self.heads.at(x).is_empty()
        {
            return Ok(());
        }
        let mut changed = Bits::new(alloc);
        for block in state.newest.blocks() {
            self.new_words(alloc, system, state, x, *block, &mut changed)?;
        }
        self.visit_tags(state, x)?;
        for block in changed.blocks.as_slice() {
            self.visit_changed(alloc, system, state, *block)?;
        }
        Ok(())
    }

    fn visit_changed(
        &mut self,
        alloc: Global,
        system: &FlowSystem,
        state: &State,
        block: (u32, u64),
    ) -> Result<(), AllocError> {
        let mut left = Block::new(block.0, block.1);
        'values: while let Some(n) = left.next() {
            self.visit_all(alloc, system, state, narrow(n)?)?;
        }
        Ok(())
    }

    // Whether there is anything to do with what a variable gets.
    fn is_read(&self, state: &State, x: u32) -> bool {
        !self.woken.at(x).is_empty()
            || !state.copies.linked_to(x).is_empty()
            || !self.writers.updates(x).is_empty()
            || !self.sources.from.at(x).is_empty()
            || !self.heads.at(x).is_empty()
    }

    // Lets a variable wait where it has something to pass on.
    fn want(&mut self, state: &State, x: u32) -> Result<(), AllocError> {
        if self.vars.has(x) || !self.is_read(state, x) || !state.has_to_pass(x) {
            return Ok(());
        }
        self.vars.put(x)
    }

    // Lets the variables wait that have more by the last step.
    fn want_changed(&mut self, state: &State) -> Result<(), AllocError> {
        for x in state.changed.as_slice() {
            if self.is_read(state, *x) {
                self.vars.put(*x)?;
            }
        }
        Ok(())
    }

    // Lets the fetches wait that have more by the last step.
    fn want_fetches(&mut self, state: &State) -> Result<(), AllocError> {
        for g in state.changed.as_slice() {
            self.fetches.put(*g)?;
        }
        Ok(())
    }

    // The targets of an inclusion may have more.
    fn asked(&mut self, state: &State, inclusion: &Inclusion) -> Result<(), AllocError> {
        if let Inclusion::Flows(_, sink) = inclusion {
            match sink {
                FlowSink::To(Target::One(x)) => self.want(state, x.0)?,
                FlowSink::To(Target::Vector(xs)) => {
                    for x in xs.as_slice() {
                        self.want(state, x.0)?;
                    }
                }
                FlowSink::Result(f) => self.wake_by_results(f.0)?,
                _ => {}
            }
        }
        Ok(())
    }

    /// Notes that a step was taken, and something may be new.
    pub fn taken(
        &mut self,
        alloc: Global,
        system: &FlowSystem,
        state: &State,
        step: Step,
    ) -> Result<(), AllocError> {
        match step {
            Step::Ask(n) => match system.inclusions.get(n as usize) {
                Some(inclusion) => self.asked(state, inclusion),
                None => Ok(()),
            },
            Step::Store(n, site) => self.stored(alloc, n, site),
            Step::Give(_, _, _) => self.want_fetches(state),
            Step::Link(_, _, _, _) => self.want_fetches(state),
            Step::Pass(x) => self.passed(alloc, system, state, x),
            Step::Deliver(_) => self.want_changed(state),
        }
    }

    /// Notes that a step was in vain.
    pub fn in_vain(&mut self, step: Step) -> Result<(), AllocError> {
        match step {
            Step::Link(g, site, n, _) => self.steps.push(Step::Give(g, site, n)),
            _ => Ok(()),
        }
    }

    // The step of an inclusion.
    fn step_of(system: &FlowSystem, n: u32) -> Step {
        match system.inclusions.get(n as usize) {
            Some(Inclusion::Flows(Source::Value(_), FlowSink::Site(s))) => Step::Store(n, s.0),
            Some(Inclusion::Flows(Source::Value(_), FlowSink::CellsAt(Word::Global(i)))) => {
                match system.globals.get(*i as usize) {
                    Some(global) => Step::Store(n, global.site.0),
                    None => Step::Ask(n),
                }
            }
            _ => Step::Ask(n),
        }
    }

    // The values that were stored are met, at all sites.
    fn spread_all(
        &mut self,
        alloc: Global,
        system: &FlowSystem,
        state: &State,
    ) -> Result<(), AllocError> {
        for _ in 0..self.sites.most() {
            let Some(site) = self.sites.take() else {
                return Ok(());
            };
            self.spread(alloc, system, state, site)?;
        }
        Ok(())
    }

    /// The next step: one at hand, else of a variable, else of a fetch; else the values that were
    /// stored are met, and one of their steps is next; else one of an inclusion.
    pub fn next(
        &mut self,
        alloc: Global,
        system: &FlowSystem,
        state: &State,
    ) -> Result<Option<Step>, AllocError> {
        if let Some(step) = self.steps.pop() {
            return Ok(Some(step));
        }
        if let Some(x) = self.vars.take() {
            return Ok(Some(Step::Pass(x)));
        }
        if let Some(g) = self.fetches.take() {
            return Ok(Some(Step::Deliver(g)));
        }
        self.spread_all(alloc, system, state)?;
        if let Some(step) = self.steps.pop() {
            return Ok(Some(step));
        }
        match self.inclusions.take() {
            Some(n) => Ok(Some(Hints::step_of(system, n))),
            None => Ok(None),
        }
    }
}

// The number of an inclusion, as it stands in a set.
fn narrow(n: u64) -> Result<u32, AllocError> {
    if n > u32::MAX as u64 {
        return Err(AllocError);
    }
    Ok(n as u32)
}
