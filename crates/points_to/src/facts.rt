// What is known of a program: for each place, which words stand in which of its parts.

ghost use Rattle.std.specs.Prelude.{◌≡◌, ℕ, ◌<◌, ◌≤◌, ◌+◌, [], ◌++◌, length, MatchOption, IsTrue, ◌↔◌, ◌⊎◌, OnOk, IfOk, true, false};
ghost use Rattle.std.specs.List.{flat_map};
ghost use Rattle.flow_system.specs.declared.fact.Place.{Place as Place'};
ghost use Rattle.flow_system.specs.Shown.{tables_of};
ghost use Rattle.points_to.specs.Bits.{block_words};
ghost use Rattle.points_to.specs.Asked.{facts_at};
ghost use Rattle.points_to.specs.Held.{In, in_part, words_in_part, done_items};
ghost use Rattle.points_to.specs.Known.{items_at, held, PutsItems, GrowsByFacts};
ghost use Rattle.points_to.specs.Runs.{items_of_item_run, facts_of_run};
ghost use Rattle.points_to.specs.Wanted.{place_of};

use crate::items::Items;
use crate::runs::{FactRun, ItemRun, ItemRuns, WordRuns};
use crate::wanted::Kind;
use flow_system::fact::{Element, Part, Place};
use flow_system::inclusion::FlowSystem;
use seq::Seq;
use std::alloc::{AllocError, Global};

/// A word in a part of a place.
#[derive(Clone, Copy, Debug, PartialEq, Eq, PartialOrd, Ord)]
pub struct Item {
    pub part: Part,
    pub word: Element,
}

/// That a word stands in a part of a place.
#[derive(Clone, Copy, Debug, PartialEq, Eq, PartialOrd, Ord)]
pub struct Fact {
    pub place: Place,
    pub item: Item,
}

/// The facts that are known: for each kind of place a set of items by the place's number, and how
/// often facts were added.
#[derive(Drop)]
pub struct Facts {
    sites: Vec<Items>,
    vars: Vec<Items>,
    results: Vec<Items>,
    count: u64,
}

impl Facts {
    /// No facts.
    pub fn new(alloc: Global) -> Facts
        ensures { (q : Place') → held result q ≡ [] }
    {
        Facts {
            sites: Vec::new(alloc),
            vars: Vec::new(alloc),
            results: Vec::new(alloc),
            count: 0,
        }
    }

    /// How often facts were added.
    pub fn count(&self) -> u64
        ensures { result ≡ self.now.count }
    {
        self.count
    }

    /// A number past those of all places of a kind where something is known. Where there is none,
    /// that is want of memory.
    pub fn places(&self, kind: Kind) -> Result<u32, AllocError>
        ensures { IfOk result (λ n. (m : ℕ) → n ≤ m → held self.now (place_of kind m) ≡ []) }
    {
        match kind {
            Kind::Sites => count_of(self.sites.as_slice()),
            Kind::Vars => count_of(self.vars.as_slice()),
            Kind::Results => count_of(self.results.as_slice()),
        }
    }

    /// Puts the items at a place at the end of a list.
    pub fn append(&self, place: Place, out: &mut ItemRuns) -> Result<(), AllocError>
        ensures { OnOk result (out.new ≡ out.old ++ held self.now place) }
    {
        match place {
            Place::Site(n) => append_items(self.sites.as_slice(), n, out),
            Place::Var(n) => append_items(self.vars.as_slice(), n, out),
            Place::Result(n) => append_items(self.results.as_slice(), n, out),
        }
    }

    /// Puts the words in one part of a place at the end of a list.
    pub fn append_words(
        &self,
        place: Place,
        part: Part,
        out: &mut WordRuns,
    ) -> Result<(), AllocError>
        ensures { OnOk result (out.new ≡ out.old ++ words_in_part part (held self.now place)) }
    {
        match place {
            Place::Site(n) => append_words(self.sites.as_slice(), n, part, out),
            Place::Var(n) => append_words(self.vars.as_slice(), n, part, out),
            Place::Result(n) => append_words(self.results.as_slice(), n, part, out),
        }
    }

    /// Puts the words in one part of a place, one by one, at the end of a list.
    pub fn list_words(
        &self,
        place: Place,
        part: Part,
        out: &mut Seq<Element>,
    ) -> Result<(), AllocError>
        ensures { OnOk result (out.new ≡ out.old ++ words_in_part part (held self.now place)) }
    {
        match place {
            Place::Site(n) => list_words(self.sites.as_slice(), n, part, out),
            Place::Var(n) => list_words(self.vars.as_slice(), n, part, out),
            Place::Result(n) => list_words(self.results.as_slice(), n, part, out),
        }
    }

    /// The blocks of the words that a variable of one word may stand for.
    pub fn word_blocks(&self, var: u32) -> &[(u32, u64)]
        ensures { flat_map block_words result.now
            ≡ words_in_part (Part.Word 0) (held self.now (Place.Var var)) }
    {
        match self.vars.get(var as usize) {
            Some(items) => items.blocks(Part::Word(0)),
            None => &[],
        }
    }

    /// The blocks of the words in one part of a place.
    pub fn blocks(&self, place: Place, part: Part) -> &[(u32, u64)]
        ensures { flat_map block_words result.now ≡ words_in_part part (held self.now place) }
    {
        match place {
            Place::Site(n) => blocks_at(self.sites.as_slice(), n, part),
            Place::Var(n) => blocks_at(self.vars.as_slice(), n, part),
            Place::Result(n) => blocks_at(self.results.as_slice(), n, part),
        }
    }

    /// The items at a site. Where there is no set of them, there are none.
    pub fn items_at_site(&self, site: u32) -> Option<&Items>
        ensures { MatchOption result (held self.now (Place.Site site) ≡ [])
            (λ items. items.now ≡ held self.now (Place.Site site)) }
    {
        self.sites.get(site as usize)
    }

    /// Puts the items of the evaluated nodes in the cells of a site at the end of a list.
    pub fn append_done(
        &self,
        system: &FlowSystem,
        site: u32,
        out: &mut ItemRuns,
    ) -> Result<(), AllocError>
        ensures { OnOk result (out.new ≡ out.old
            ++ done_items (tables_of system.now) (held self.now (Place.Site site))) }
    {
        append_done(system, self.sites.as_slice(), site, out)
    }

    /// Adds facts, and says whether some of them may be new. Where none is, nothing changes. More
    /// than can be counted are want of memory.
    pub fn add(&mut self, alloc: Global, run: FactRun) -> Result<bool, AllocError>
        ensures grown { OnOk result (GrowsByFacts (held self.old) (held self.new) (facts_of_run run)) }
        ensures still { IfOk result (λ added. added ≡ false → self.new ≡ self.old) }
        ensures counted { IfOk result (λ added. added ≡ true → self.old.count < self.new.count) }
        ensures elsewhere { OnOk result ((q : Place') → (q ≡ run.place)
            ⊎ (held self.new q ≡ held self.old q)) }
    {
        if self.add_new(alloc, run)? {
            self.count = self.count.checked_add(1).ok_or(AllocError)?;
            return Ok(true);
        }
        Ok(false)
    }

    /// Adds words at a variable, and says whether some of them may be new.
    pub fn add_words(
        &mut self,
        alloc: Global,
        var: u32,
        blocks: &[(u32, u64)],
    ) -> Result<bool, AllocError>
        ensures { OnOk result (GrowsByFacts (held self.old) (held self.new)
            (facts_at (Place.Var var) (in_part (Part.Word 0) (flat_map block_words blocks.now)))) }
    {
        gain(alloc, &mut self.vars, var, blocks)
    }

    fn add_new(&mut self, alloc: Global, run: FactRun) -> Result<bool, AllocError>
        ensures grown { OnOk result (GrowsByFacts (held self.old) (held self.new) (facts_of_run run)) }
        ensures still { IfOk result (λ added. added ≡ false → self.new ≡ self.old) }
        ensures same_count { OnOk result (self.new.count ≡ self.old.count) }
        ensures elsewhere { OnOk result ((q : Place') → (q ≡ run.place)
            ⊎ (held self.new q ≡ held self.old q)) }
    {
        match run.place {
            Place::Site(n) => add_new(alloc, &mut self.sites, n, run.items),
            Place::Var(n) => add_new(alloc, &mut self.vars, n, run.items),
            Place::Result(n) => add_new(alloc, &mut self.results, n, run.items),
        }
    }

    /// Whether a fact is known.
    pub fn has(&self, fact: Fact) -> bool
        ensures { IsTrue result ↔ In fact.item (held self.now fact.place) }
    {
        match fact.place {
            Place::Site(n) => has_item(self.sites.as_slice(), n, fact.item),
            Place::Var(n) => has_item(self.vars.as_slice(), n, fact.item),
            Place::Result(n) => has_item(self.results.as_slice(), n, fact.item),
        }
    }
}

fn append_items(sets: &[Items], n: u32, out: &mut ItemRuns) -> Result<(), AllocError>
    ensures { OnOk result (out.new ≡ out.old ++ items_at sets.now n) }
{
    match sets.get(n as usize) {
        None => Ok(()),
        Some(set) => set.append(out),
    }
}

fn blocks_at(sets: &[Items], n: u32, part: Part) -> &[(u32, u64)]
    ensures { flat_map block_words result.now ≡ words_in_part part (items_at sets.now n) }
{
    match sets.get(n as usize) {
        None => &[],
        Some(set) => set.blocks(part),
    }
}

fn append_words(sets: &[Items], n: u32, part: Part, out: &mut WordRuns) -> Result<(), AllocError>
    ensures { OnOk result (out.new ≡ out.old ++ words_in_part part (items_at sets.now n)) }
{
    match sets.get(n as usize) {
        None => Ok(()),
        Some(set) => set.append_words(part, out),
    }
}

fn list_words(sets: &[Items], n: u32, part: Part, out: &mut Seq<Element>) -> Result<(), AllocError>
    ensures { OnOk result (out.new ≡ out.old ++ words_in_part part (items_at sets.now n)) }
{
    match sets.get(n as usize) {
        None => Ok(()),
        Some(set) => set.list_words(part, out),
    }
}

fn append_done(
    system: &FlowSystem,
    sets: &[Items],
    n: u32,
    out: &mut ItemRuns,
) -> Result<(), AllocError>
    ensures { OnOk result (out.new ≡ out.old
        ++ done_items (tables_of system.now) (items_at sets.now n)) }
{
    match sets.get(n as usize) {
        None => Ok(()),
        Some(set) => set.append_done(system, out),
    }
}

fn has_item(sets: &[Items], n: u32, item: Item) -> bool
    ensures { IsTrue result ↔ In item (items_at sets.now n) }
{
    match sets.get(n as usize) {
        Some(set) => set.has(item),
        None => false,
    }
}

fn count_of(sets: &[Items]) -> Result<u32, AllocError>
    ensures { IfOk result (λ n. (m : ℕ) → n ≤ m → items_at sets.now m ≡ []) }
{
    if sets.len() > u32::MAX as usize {
        return Err(AllocError);
    }
    Ok(sets.len() as u32)
}

// Makes empty sets up to the one with this number.
fn grow(alloc: Global, sets: &mut Vec<Items>, n: u32) -> Result<(), AllocError>
    ensures there { OnOk result (n < length sets.new.items) }
    ensures same { OnOk result (items_at sets.new.items ≡ items_at sets.old.items) }
{
    'growing: while sets.len() <= n as usize {
        sets.push(Items::new(alloc))?;
    }
    Ok(())
}

// Adds items to the set with a number, which is there.
fn add_there(alloc: Global, sets: &mut Vec<Items>, n: u32, run: ItemRun) -> Result<bool, AllocError>
    requires { n < length sets.old.items }
    ensures puts { OnOk result (PutsItems (items_at sets.old.items) (items_at sets.new.items) n
        (items_of_item_run run)) }
    ensures still { IfOk result (λ added. added ≡ false → sets.new ≡ sets.old) }
    ensures elsewhere { OnOk result ((m : ℕ) → (m ≡ n)
        ⊎ (items_at sets.new.items m ≡ items_at sets.old.items m)) }
{
    sets[n as usize].add_new(alloc, run)
}

// Adds words to the set with a number, which is there.
fn gain_there(
    alloc: Global,
    sets: &mut Vec<Items>,
    n: u32,
    blocks: &[(u32, u64)],
) -> Result<bool, AllocError>
    requires { n < length sets.old.items }
    ensures { OnOk result (PutsItems (items_at sets.old.items) (items_at sets.new.items) n
        (in_part (Part.Word 0) (flat_map block_words blocks.now))) }
{
    sets[n as usize].gain(alloc, Part::Word(0), blocks)
}

fn gain(
    alloc: Global,
    sets: &mut Vec<Items>,
    n: u32,
    blocks: &[(u32, u64)],
) -> Result<bool, AllocError>
    ensures { OnOk result (PutsItems (items_at sets.old.items) (items_at sets.new.items) n
        (in_part (Part.Word 0) (flat_map block_words blocks.now))) }
{
    grow(alloc, sets, n)?;
    gain_there(alloc, sets, n, blocks)
}

fn add_new(alloc: Global, sets: &mut Vec<Items>, n: u32, run: ItemRun) -> Result<bool, AllocError>
    ensures puts { OnOk result (PutsItems (items_at sets.old.items) (items_at sets.new.items) n
        (items_of_item_run run)) }
    ensures still { IfOk result (λ added. added ≡ false → sets.new ≡ sets.old) }
    ensures elsewhere { OnOk result ((m : ℕ) → (m ≡ n)
        ⊎ (items_at sets.new.items m ≡ items_at sets.old.items m)) }
{
    if (n as usize) < sets.len() {
        return add_there(alloc, sets, n, run);
    }
    grow(alloc, sets, n)?;
    add_there(alloc, sets, n, run)?;
    Ok(true)
}
