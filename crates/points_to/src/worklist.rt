// The least solution, by a list of the inclusions that may ask for more.

ghost use Rattle.std.specs.Prelude.{◌≡◌, false, [], ◌∷◌, OnOk, IfOk, IfSome};
ghost use Rattle.std.specs.List.{flat_map};
ghost use Rattle.flow_system.specs.Inclusions.{flows, to, word_at};
ghost use Rattle.flow_system.specs.Shown.{tables_of, inclusions_of, inclusion_of};
ghost use Rattle.flow_system.specs.Solution.{IsLeast};
ghost use Rattle.points_to.specs.Asked.{facts_demanded};
ghost use Rattle.points_to.specs.Held.{fetched_at};
ghost use Rattle.points_to.specs.Known.{held, GrowsByFacts, solution_of};
ghost use Rattle.points_to.specs.Reads.{word_reads, cell_reads, reads};
ghost use Rattle.points_to.specs.Rounds.{CountsAddedFacts};
ghost use Rattle.points_to.specs.Rows.{GainsMembers};
ghost use Rattle.points_to.specs.Runs.{facts_of_run};
ghost use Rattle.points_to.specs.Waiting.{waiting};
ghost use Rattle.points_to.specs.Worklist.{RegistersAt, WakesReaders, WakesWhereChanged, MakesProgress, SatisfiesInclusion, WorklistInvariant};

use crate::ask::facts_demanded;
use crate::facts::Facts;
use crate::fetch::Fetched;
use crate::give::elements;
use crate::pending::Pending;
use crate::readers::Readers;
use crate::reads::reads;
use crate::runs::{FactRun, FactRuns};
use crate::targets::blocks_at_variable;
use crate::truth::either;
use flow_system::fact::{Element, Place};
use flow_system::inclusion::{FlowSink, FlowSystem, Inclusion, Source};
use grin_syntax::program::{Target, VarId, Word};
use seq::Seq;
use std::alloc::{AllocError, Global};

/// What is known, which inclusions read it, and which of them wait: those that are not satisfied,
/// perhaps, by what is known. An inclusion asks for more only where more is known at a place that
/// it reads.
#[derive(Drop)]
struct Worklist {
    facts: Facts,
    readers: Readers,
    pending: Pending,
}

impl Worklist {
    // Nothing is known, and all inclusions wait.
    fn new(alloc: Global, system: &FlowSystem) -> Result<Worklist, AllocError>
        ensures { IfOk result (WorklistInvariant (tables_of system.now) (inclusions_of system.now)) }
    {
        let count = system.inclusions.len();
        if count > u32::MAX as usize {
            return Err(AllocError);
        }
        let pending = Pending::all(alloc, count as u32)?;
        Ok(Worklist {
            facts: Facts::new(alloc),
            readers: Readers::new(alloc),
            pending,
        })
    }

    // Lets the readers of a place wait. They are registered again when they are satisfied.
    fn wake(&mut self, place: Place) -> Result<(), AllocError>
        ensures same { OnOk result (self.new.facts ≡ self.old.facts) }
        ensures wakes { OnOk result (WakesReaders self.old self.new place) }
    {
        let readers = self.readers.at(place);
        if readers.is_empty() {
            return Ok(());
        }
        self.pending.put_all(readers)?;
        self.readers.clear(place);
        Ok(())
    }

    // Adds the facts of a run, and says whether some of them may be new.
    fn add(&mut self, alloc: Global, run: FactRun) -> Result<bool, AllocError>
        ensures grown { OnOk result
            (GrowsByFacts (held self.old.facts) (held self.new.facts) (facts_of_run run)) }
        ensures spread { OnOk result (WakesWhereChanged self.old self.new) }
        ensures still { IfOk result (λ added. added ≡ false → self.new ≡ self.old) }
        ensures counted { IfOk result (λ added. CountsAddedFacts self.old.facts self.new.facts added) }
    {
        let added = self.facts.add(alloc, run)?;
        if !added {
            return Ok(false);
        }
        self.wake(run.place)?;
        Ok(true)
    }

    // Adds facts, and says whether some of them may be new.
    fn add_all(&mut self, alloc: Global, more: &FactRuns) -> Result<bool, AllocError>
        ensures grown { OnOk result (GrowsByFacts (held self.old.facts) (held self.new.facts) more.now) }
        ensures spread { OnOk result (WakesWhereChanged self.old self.new) }
        ensures still { IfOk result (λ added. added ≡ false → self.new ≡ self.old) }
        ensures counted { IfOk result (λ added. CountsAddedFacts self.old.facts self.new.facts added) }
    {
        let mut added = false;
        for run in more.as_slice() {
            added = either(added, self.add(alloc, *run)?);
        }
        Ok(added)
    }

    // Registers that an inclusion reads a place.
    fn register_at(&mut self, alloc: Global, n: u32, place: Place) -> Result<(), AllocError>
        ensures { OnOk result (RegistersAt self.old self.new n (place ∷ [])) }
    {
        self.readers.register(alloc, place, n)
    }

    // Registers that an inclusion reads places.
    fn register(&mut self, alloc: Global, places: &[Place], n: u32) -> Result<(), AllocError>
        ensures { OnOk result (RegistersAt self.old self.new n places.now) }
    {
        for place in places {
            self.register_at(alloc, n, *place)?;
        }
        Ok(())
    }

    // Registers an inclusion at the variable of a word, where it is one.
    fn register_word(&mut self, alloc: Global, n: u32, w: Word) -> Result<(), AllocError>
        ensures { OnOk result (RegistersAt self.old self.new n (word_reads w)) }
    {
        match w {
            Word::Lit(_) => Ok(()),
            Word::Var(x) => self.register_at(alloc, n, Place::Var(x.0)),
            Word::Global(_) => Ok(()),
            Word::TagWord(_) => Ok(()),
        }
    }

    // Registers an inclusion at the places that it reads.
    fn register_reads(
        &mut self,
        alloc: Global,
        system: &FlowSystem,
        n: u32,
        inclusion: &Inclusion,
    ) -> Result<(), AllocError>
        ensures { OnOk result (RegistersAt self.old self.new n
            (reads (tables_of system.now) (held self.old.facts) (inclusion_of inclusion.now))) }
    {
        let mut places = Seq::new(alloc);
        reads(alloc, system, &self.facts, inclusion, &mut places)?;
        self.register(alloc, places.as_slice(), n)
    }

    // Adds all that an inclusion asks for, and says whether some of it may be new.
    fn add_demands(
        &mut self,
        alloc: Global,
        system: &FlowSystem,
        inclusion: &Inclusion,
    ) -> Result<bool, AllocError>
        ensures grown { OnOk result
            (GrowsByFacts (held self.old.facts) (held self.new.facts)
            (facts_demanded (tables_of system.now) (held self.old.facts) (inclusion_of inclusion.now))) }
        ensures spread { OnOk result (WakesWhereChanged self.old self.new) }
        ensures still { IfOk result (λ added. added ≡ false → self.new ≡ self.old) }
        ensures counted { IfOk result (λ added. CountsAddedFacts self.old.facts self.new.facts added) }
    {
        let mut asked = FactRuns::new(alloc);
        facts_demanded(alloc, system, &self.facts, inclusion, &mut asked)?;
        self.add_all(alloc, &asked)
    }

    // Registers an inclusion at a cell, and fetches word i of the nodes there.
    fn fetch_cell(
        &mut self,
        alloc: Global,
        system: &FlowSystem,
        n: u32,
        i: u32,
        cell: Element,
        words: &mut Fetched,
    ) -> Result<(), AllocError>
        ensures registers { OnOk result (RegistersAt self.old self.new n (cell_reads cell)) }
        ensures gets { OnOk result (GainsMembers words.old words.new
            (fetched_at (tables_of system.now) (held self.old.facts) i cell)) }
    {
        match cell {
            Element::Cell(s) => {
                self.register_at(alloc, n, Place::Site(s))?;
                words.fetch(system, &self.facts, s, i)
            }
            Element::Tag(_) => Ok(()),
            Element::Number => Ok(()),
        }
    }

    // The same for each of several cells.
    fn fetch_cells(
        &mut self,
        alloc: Global,
        system: &FlowSystem,
        n: u32,
        i: u32,
        cells: &[Element],
        words: &mut Fetched,
    ) -> Result<(), AllocError>
        ensures registers { OnOk result
            (RegistersAt self.old self.new n (flat_map cell_reads cells.now)) }
        ensures gets { OnOk result (GainsMembers words.old words.new
            (flat_map (fetched_at (tables_of system.now) (held self.old.facts) i) cells.now)) }
    {
        for cell in cells {
            self.fetch_cell(alloc, system, n, i, *cell, words)?;
        }
        Ok(())
    }

    // Satisfies the inclusion that a variable gets word i of the nodes at the cells of a word. The
    // cells are gone over once.
    fn satisfy_fetch(
        &mut self,
        alloc: Global,
        system: &FlowSystem,
        n: u32,
        w: Word,
        i: u32,
        x: VarId,
    ) -> Result<(), AllocError>
        ensures { OnOk result (SatisfiesInclusion (tables_of system.now)
            (flows (word_at w i) (to (Target.One x))) n self.old self.new) }
    {
        self.register_word(alloc, n, w)?;
        let mut cells = Seq::new(alloc);
        elements(alloc, system, &self.facts, w, &mut cells)?;
        let mut fetched = Fetched::new(alloc);
        self.fetch_cells(alloc, system, n, i, cells.as_slice(), &mut fetched)?;
        let mut asked = FactRuns::new(alloc);
        blocks_at_variable(x, fetched.blocks(), &mut asked)?;
        self.add_all(alloc, &asked)?;
        Ok(())
    }

    // Satisfies an inclusion of any form: what it reads is listed, then what it asks for.
    fn satisfy_any(
        &mut self,
        alloc: Global,
        system: &FlowSystem,
        n: u32,
        inclusion: &Inclusion,
    ) -> Result<(), AllocError>
        ensures { OnOk result (SatisfiesInclusion (tables_of system.now) (inclusion_of inclusion.now) n
            self.old self.new) }
    {
        self.register_reads(alloc, system, n, inclusion)?;
        self.add_demands(alloc, system, inclusion)?;
        Ok(())
    }

    // Satisfies an inclusion, registered at the places that it reads.
    fn satisfy(
        &mut self,
        alloc: Global,
        system: &FlowSystem,
        n: u32,
        inclusion: &Inclusion,
    ) -> Result<(), AllocError>
        ensures { OnOk result (SatisfiesInclusion (tables_of system.now) (inclusion_of inclusion.now) n
            self.old self.new) }
    {
        match one_fetch(inclusion) {
            Some((w, i, x)) => self.satisfy_fetch(alloc, system, n, w, i, x),
            None => self.satisfy_any(alloc, system, n, inclusion),
        }
    }

    // Satisfies the next inclusion that waits. Says whether one waited.
    fn turn(&mut self, alloc: Global, system: &FlowSystem) -> Result<bool, AllocError>
        ensures stands { OnOk result
            (WorklistInvariant (tables_of system.now) (inclusions_of system.now) self.old
            → WorklistInvariant (tables_of system.now) (inclusions_of system.now) self.new) }
        ensures done { IfOk result (λ more. more ≡ false → waiting self.new.pending ≡ []) }
        ensures advances { IfOk result (MakesProgress self.old self.new) }
    {
        match self.pending.take() {
            None => Ok(false),
            Some(n) => match system.inclusions.get(n as usize) {
                None => Ok(true),
                Some(inclusion) => {
                    self.satisfy(alloc, system, n, inclusion)?;
                    Ok(true)
                }
            },
        }
    }
}

// The word, the number and the variable, where a variable gets word i of the nodes at the cells of
// a word.
fn one_fetch(inclusion: &Inclusion) -> Option<(Word, u32, VarId)>
    ensures { IfSome result (λ r.
        inclusion_of inclusion.now ≡ flows (word_at r.0 r.1) (to (Target.One r.2))) }
{
    match inclusion {
        Inclusion::Flows(Source::WordAt(w, i), FlowSink::To(Target::One(x))) => Some((*w, *i, *x)),
        _ => None,
    }
}

/// The facts of the least solution: each inclusion is satisfied, and again whenever more is known
/// at a place that it reads, until none waits.
pub fn least_facts(alloc: Global, system: &FlowSystem) -> Result<Facts, AllocError>
    ensures { IfOk result (λ f.
        IsLeast (tables_of system.now) (inclusions_of system.now) (solution_of (held f))) }
{
    let mut list = Worklist::new(alloc, system)?;
    let mut more = true;
    'turns: while more {
        // Facts and numbers can be counted, so the turns end.
        let _facts = list.facts.count();
        more = list.turn(alloc, system)?;
        let _groups = list.pending.groups();
    }
    Ok(list.facts)
}
