// The least solution of a system that reads cells by words alone. What reaches a cell is kept as
// values, not as the nodes that they stand for. Copies are followed first; rounds over all
// inclusions then add what is still missing.

ghost use Rattle.std.specs.Prelude.{◌≡◌, ◌≤◌, ◌⊎◌, ℕ, List, map, ◌++◌, ◌∷◌, [], ◌&&◌, Some, None, true, false, slice_get, IsTrue, OnOk, IfOk};
ghost use Rattle.std.specs.Option.{option_copied};
ghost use Rattle.std.specs.List.{flat_map};
ghost use Rattle.flow_system.specs.Inclusions.{Inclusion as Inclusion', value, word_at, flows, to, into_site, into_result, cells_at};
ghost use Rattle.flow_system.specs.Shown.{tables_of, inclusions_of, source_of, sink_of, inclusion_of};
ghost use Rattle.flow_system.specs.Solution.{IsLeast};
ghost use Rattle.flow_system.specs.Tables.{Tables};
ghost use Rattle.flow_system.specs.declared.fact.Place.{Place as Place'};
ghost use Rattle.points_to.specs.declared.facts.Fact.{Fact as Fact'};
ghost use Rattle.points_to.specs.declared.facts.Item.{Item as Item'};
ghost use Rattle.points_to.specs.Asked.{asked};
ghost use Rattle.points_to.specs.Bits.{block_numbers};
ghost use Rattle.flow_system.specs.declared.fact.Element.{Element as Element'};
ghost use Rattle.points_to.specs.Held.{In, in_part, words_in_part};
ghost use Rattle.points_to.specs.Kept.{is_not_cell_sink, has_no_node_variable, reads_no_cell, touches_no_cell, flow_by_words, is_by_words, AllByWords, cached_values_of, met_by, MetSound, MetExact, AreWords, AreKnown, WordsExact, NotedExact, IsSound, solution, Steps, MetAtEnd, AllMet};
ghost use Rattle.points_to.specs.Known.{held};
ghost use Rattle.points_to.specs.Rows.{numbers_in, words_in, SameMembers, GainsMembers};
ghost use Rattle.points_to.specs.Stored.{stored_at, cell_stored, values_in, PutsAtAllSites};
ghost use Rattle.points_to.specs.ValueWords.{words_of_values};

use crate::ask::asked;
use crate::bits::{Bits, are_within};
use crate::facts::Facts;
use crate::fast::solve_by_copies;
use crate::give::elements;
use crate::kept::{Kept, has_no_node_variable};
use crate::noted::NotedSets;
use crate::rounds::{add_all, satisfy as satisfy_plain};
use crate::runs::{FactRuns, ItemRuns, WordRuns};
use crate::state::is_not_cell_sink;
use crate::stored::Stored;
use crate::stored_tags::words_of_values;
use crate::truth::either;
use flow_system::fact::{Element, Part, Place};
use flow_system::inclusion::{FlowSink, FlowSystem, Inclusion, Source};
use grin_syntax::program::{Target, Val, Word};
use seq::Seq;
use std::alloc::{AllocError, Global};

fn flow_by_words(source: &Source, sink: &FlowSink) -> bool
    ensures { result ≡ flow_by_words (source_of source.now) (sink_of sink.now) }
{
    match source {
        Source::Value(v) => either(is_not_cell_sink(sink), has_no_node_variable(v)),
        Source::ACell(_) => is_not_cell_sink(sink),
        Source::ANumber => is_not_cell_sink(sink),
        Source::Result(_) => is_not_cell_sink(sink),
        Source::NodesAt(_) => false,
        Source::WordAt(_, _) => is_not_cell_sink(sink),
        Source::EvaluatedAt(_) => false,
        Source::Extended(_, _) => false,
        Source::FieldsOf(_, _) => is_not_cell_sink(sink),
    }
}

// Whether an inclusion reads cells by words, if at all, and puts values alone into cells.
fn is_by_words(inclusion: &Inclusion) -> bool
    ensures { result ≡ is_by_words (inclusion_of inclusion.now) }
{
    match inclusion {
        Inclusion::Flows(source, sink) => flow_by_words(source, sink),
        Inclusion::Forces(_) => false,
        Inclusion::Applies(_, _, _) => false,
    }
}

/// Whether a system reads cells by words alone.
pub fn reads_by_words(system: &FlowSystem) -> bool
    ensures { IsTrue result → AllByWords (inclusions_of system.now) }
{
    for inclusion in system.inclusions.as_slice() {
        if !is_by_words(inclusion) {
            return false;
        }
    }
    true
}

// The values in the cells of a word, as far as they were noted, by variable.
fn noted_of(met: &NotedSets, w: Word) -> Option<&Bits>
    ensures { option_copied result ≡ cached_values_of met.now w }
{
    match w {
        Word::Lit(_) => None,
        Word::Var(x) => met.at(x.0),
        Word::Global(_) => None,
        Word::TagWord(_) => None,
    }
}

// Notes the values in the cells of the variable that an inclusion fetches from.
fn note_met(
    alloc: Global,
    system: &FlowSystem,
    kept: &Kept,
    inclusion: &Inclusion,
    met: &mut NotedSets,
) -> Result<(), AllocError>
    ensures { OnOk result (MetExact (tables_of system.now) kept.now met.old
        → MetExact (tables_of system.now) kept.now met.new) }
{
    match inclusion {
        Inclusion::Flows(Source::WordAt(Word::Var(x), _), _) => match met.at(x.0) {
            Some(_) => Ok(()),
            None => {
                let numbers = kept.met(alloc, system, Word::Var(*x))?;
                met.put(x.0, numbers)
            }
        },
        _ => Ok(()),
    }
}

fn met_of(alloc: Global, system: &FlowSystem, kept: &Kept) -> Result<NotedSets, AllocError>
    ensures { IfOk result (MetExact (tables_of system.now) kept.now) }
{
    let mut met = NotedSets::new(alloc);
    for inclusion in system.inclusions.as_slice() {
        note_met(alloc, system, kept, inclusion, &mut met)?;
    }
    Ok(met)
}

/// Word i of the values with these numbers, and the place of the entry before it in its chain.
#[derive(Drop)]
pub struct CachedWords {
    numbers: Bits,
    i: u32,
    words: Bits,
    earlier: usize,
}

/// Words of values that were put together once. Many variables meet the same values.
#[derive(Drop)]
pub struct WordCache {
    entries: Vec<CachedWords>,
    // the place of the last entry of each chain
    last: Vec<usize>,
}

// The number of the chain that has word i of the values with these numbers. Small systems have low
// ones.
fn chain_of(numbers: &Bits, i: u32) -> usize {
    numbers.blocks.len() % 64 * 16 + i as usize % 16
}

fn same_blocks(a: &[(u32, u64)], b: &[(u32, u64)]) -> bool
    ensures numbers { IsTrue result → map (λ b. b.0) a.now ≡ map (λ b. b.0) b.now }
    ensures bits { IsTrue result → map (λ b. b.1) a.now ≡ map (λ b. b.1) b.now }
{
    if a.len() != b.len() {
        return false;
    }
    for k in 0..a.len() {
        if a[k].0 != b[k].0 {
            return false;
        }
        if a[k].1 != b[k].1 {
            return false;
        }
    }
    true
}

impl CachedWords {
    // Whether these are word i of the values with these numbers.
    fn is_of(&self, numbers: &Bits, i: u32) -> bool
        ensures index { IsTrue result → self.now.i ≡ i }
        ensures numbers { IsTrue result → numbers_in self.now.numbers ≡ numbers_in numbers.now }
    {
        if self.i != i {
            return false;
        }
        let own = self.numbers.blocks.as_slice();
        let others = numbers.blocks.as_slice();
        same_blocks(own, others)
    }
}

impl WordCache {
    fn new(alloc: Global) -> WordCache
        ensures { result.entries.items ≡ [] }
    {
        WordCache {
            entries: Vec::new(alloc),
            last: Vec::new(alloc),
        }
    }

    // The place of the last entry of a chain, past all entries where there is none.
    fn last_of(&self, chain: usize) -> usize {
        match self.last.get(chain) {
            Some(place) => *place,
            None => usize::MAX,
        }
    }

    // Word i of the values with these numbers, where it was noted.
    fn at(&self, numbers: &Bits, i: u32) -> Option<&Bits>
        ensures { (p : Tables) (cs : List Inclusion') (H : Place' → List Item')
            → WordsExact p cs H self.now
            → AreKnown p cs H i (numbers_in numbers.now) (option_copied result) }
    {
        let mut place = self.last_of(chain_of(numbers, i));
        'chain: while place < self.entries.len() {
            let entry = &self.entries[place];
            if entry.is_of(numbers, i) {
                return Some(&entry.words);
            }
            if entry.earlier >= place {
                return None;
            }
            place = entry.earlier;
        }
        None
    }

    fn set_last(&mut self, chain: usize, place: usize) -> Result<(), AllocError>
        ensures { self.new.entries ≡ self.old.entries }
    {
        'growing: while self.last.len() <= chain {
            self.last.push(usize::MAX)?;
        }
        self.last[chain] = place;
        Ok(())
    }

    // Notes word i of the values with these numbers, where it is not there yet.
    fn note_words(
        &mut self,
        alloc: Global,
        system: &FlowSystem,
        facts: &Facts,
        numbers: &Bits,
        i: u32,
    ) -> Result<(), AllocError>
        ensures { OnOk result (WordsExact (tables_of system.now) (inclusions_of system.now)
            (held facts.now) self.old → WordsExact (tables_of system.now)
            (inclusions_of system.now) (held facts.now) self.new) }
    {
        if self.at(numbers, i).is_some() {
            return Ok(());
        }
        let chain = chain_of(numbers, i);
        let entry = words_of(alloc, system, facts, numbers, i, self.last_of(chain))?;
        let place = self.entries.len();
        self.set_last(chain, place)?;
        self.entries.push(entry)?;
        Ok(())
    }

    fn note(
        &mut self,
        alloc: Global,
        system: &FlowSystem,
        facts: &Facts,
        met: &NotedSets,
        inclusion: &Inclusion,
    ) -> Result<(), AllocError>
        ensures { OnOk result (WordsExact (tables_of system.now) (inclusions_of system.now)
            (held facts.now) self.old → WordsExact (tables_of system.now)
            (inclusions_of system.now) (held facts.now) self.new) }
    {
        match inclusion {
            Inclusion::Flows(Source::WordAt(w, i), _) => match noted_of(met, *w) {
                Some(numbers) => self.note_words(alloc, system, facts, numbers, *i),
                None => Ok(()),
            },
            _ => Ok(()),
        }
    }
}

// Word i of the values with these numbers, as a set.
fn word_set(
    alloc: Global,
    system: &FlowSystem,
    facts: &Facts,
    numbers: &Bits,
    i: u32,
) -> Result<Bits, AllocError>
    ensures { IfOk result (AreWords (tables_of system.now) (inclusions_of system.now)
        (held facts.now) i (numbers_in numbers.now)) }
{
    let mut words = WordRuns::new(alloc);
    let values = numbers.blocks.as_slice();
    words_of_values(alloc, system, facts, values, i, &mut words)?;
    let mut found = Bits::new(alloc);
    words.put_into(&mut found, 0)?;
    Ok(found)
}

fn words_of(
    alloc: Global,
    system: &FlowSystem,
    facts: &Facts,
    numbers: &Bits,
    i: u32,
    earlier: usize,
) -> Result<CachedWords, AllocError>
    ensures { IfOk result (λ e. AreWords (tables_of system.now) (inclusions_of system.now)
        (held facts.now) e.i (numbers_in e.numbers) e.words) }
{
    let mut own = Bits::new(alloc);
    own.add_all(numbers.blocks.as_slice(), 0)?;
    let words = word_set(alloc, system, facts, &own, i)?;
    Ok(CachedWords {
        numbers: own,
        i,
        words,
        earlier,
    })
}

fn words_noted(
    alloc: Global,
    system: &FlowSystem,
    facts: &Facts,
    met: &NotedSets,
) -> Result<WordCache, AllocError>
    ensures { IfOk result (WordsExact (tables_of system.now) (inclusions_of system.now)
        (held facts.now)) }
{
    let mut words = WordCache::new(alloc);
    for inclusion in system.inclusions.as_slice() {
        words.note(alloc, system, facts, met, inclusion)?;
    }
    Ok(words)
}

/// What was noted before a round: the values in the cells of variables, and their words.
#[derive(Drop)]
pub struct RoundCaches {
    met: NotedSets,
    words: WordCache,
}

fn note_all(alloc: Global, system: &FlowSystem, kept: &Kept) -> Result<RoundCaches, AllocError>
    ensures { IfOk result (NotedExact (tables_of system.now) (inclusions_of system.now) kept.now) }
{
    let met = met_of(alloc, system, kept)?;
    let words = words_noted(alloc, system, &kept.facts, &met)?;
    Ok(RoundCaches { met, words })
}

fn store_at(alloc: Global, stored: &mut Stored, n: u32, cell: Element) -> Result<bool, AllocError>
    ensures stores { OnOk result (PutsAtAllSites (stored_at stored.old) (stored_at stored.new)
        (cell ∷ []) n) }
    ensures still { IfOk result (λ added. added ≡ false → stored.new ≡ stored.old) }
{
    match cell {
        Element::Cell(s) => stored.add(alloc, s, n),
        Element::Tag(_) => Ok(false),
        Element::Number => Ok(false),
    }
}

fn store_all(
    alloc: Global,
    stored: &mut Stored,
    n: u32,
    cells: &[Element],
) -> Result<bool, AllocError>
    ensures stores { OnOk result (PutsAtAllSites (stored_at stored.old) (stored_at stored.new)
        cells.now n) }
    ensures still { IfOk result (λ added. added ≡ false → stored.new ≡ stored.old) }
{
    let mut added = false;
    for cell in cells {
        added = either(added, store_at(alloc, stored, n, *cell)?);
    }
    Ok(added)
}

// Stores the value of an inclusion in the cells of a word.
fn update(
    alloc: Global,
    system: &FlowSystem,
    kept: &mut Kept,
    n: u32,
    inclusion: &Inclusion,
    v: &Val,
    w: Word,
) -> Result<bool, AllocError>
    requires number { slice_get (inclusions_of system.now) n ≡ Some (inclusion_of inclusion.now) }
    requires is { inclusion_of inclusion.now ≡ flows (value v.now) (cells_at w) }
    requires of_words { has_no_node_variable v.now ≡ true }
    ensures steps { IfOk result (Steps (tables_of system.now) (inclusions_of system.now) kept.old
        kept.new) }
    ensures met { IfOk result (MetAtEnd (tables_of system.now) (inclusions_of system.now) kept.old
        (inclusion_of inclusion.now)) }
{
    let mut cells = Seq::new(alloc);
    elements(alloc, system, &kept.facts, w, &mut cells)?;
    store_all(alloc, &mut kept.stored, n, cells.as_slice())
}

// Stores the value of an inclusion in the cells of a site.
fn store(
    alloc: Global,
    system: &FlowSystem,
    kept: &mut Kept,
    n: u32,
    inclusion: &Inclusion,
    v: &Val,
    s: u32,
) -> Result<bool, AllocError>
    requires number { slice_get (inclusions_of system.now) n ≡ Some (inclusion_of inclusion.now) }
    requires is { inclusion_of inclusion.now ≡ flows (value v.now) (into_site s) }
    requires of_words { has_no_node_variable v.now ≡ true }
    ensures steps { IfOk result (Steps (tables_of system.now) (inclusions_of system.now) kept.old
        kept.new) }
    ensures met { IfOk result (MetAtEnd (tables_of system.now) (inclusions_of system.now) kept.old
        (inclusion_of inclusion.now)) }
{
    store_at(alloc, &mut kept.stored, n, Element::Cell(s))
}

// Word i of the values with these numbers.
fn words_met(
    alloc: Global,
    system: &FlowSystem,
    kept: &Kept,
    numbers: &Bits,
    i: u32,
) -> Result<ItemRuns, AllocError>
    ensures { IfOk result (λ X. SameMembers X (in_part (Part.Word 0)
        (words_of_values (tables_of system.now) (values_in (inclusions_of system.now))
        (held kept.now.facts) i (numbers_in numbers.now)))) }
{
    let found = word_set(alloc, system, &kept.facts, numbers, i)?;
    let mut items = ItemRuns::new(alloc);
    for block in found.blocks.as_slice() {
        items.push_block(Part::Word(0), *block)?;
    }
    Ok(items)
}

// Whether word i of the values with these numbers is known at a variable.
fn is_known(
    alloc: Global,
    system: &FlowSystem,
    facts: &Facts,
    numbers: &Bits,
    i: u32,
    x: u32,
) -> Result<bool, AllocError>
    ensures { IfOk result (λ known. IsTrue known → (u : Element') → In u (words_of_values
        (tables_of system.now) (values_in (inclusions_of system.now)) (held facts.now) i
        (numbers_in numbers.now)) → In u (words_in_part (Part.Word 0) (held facts.now (Place.Var x)))) }
{
    let mut words = WordRuns::new(alloc);
    let values = numbers.blocks.as_slice();
    words_of_values(alloc, system, facts, values, i, &mut words)?;
    Ok(are_within(words.blocks(), facts.word_blocks(x)))
}

// The same, where the words may have been noted.
fn are_known(
    alloc: Global,
    system: &FlowSystem,
    facts: &Facts,
    numbers: &Bits,
    noted: Option<&Bits>,
    i: u32,
    x: u32,
) -> Result<bool, AllocError>
    ensures { IfOk result (λ known. IsTrue known → AreKnown (tables_of system.now)
        (inclusions_of system.now) (held facts.now) i (numbers_in numbers.now)
        (option_copied noted.entry) → (u : Element') → In u (words_of_values
        (tables_of system.now) (values_in (inclusions_of system.now)) (held facts.now) i
        (numbers_in numbers.now)) → In u (words_in_part (Part.Word 0) (held facts.now (Place.Var x)))) }
{
    match noted {
        Some(words) => Ok(are_within(words.blocks.as_slice(), facts.word_blocks(x))),
        None => is_known(alloc, system, facts, numbers, i, x),
    }
}

// Whether all that is asked so that word i of the values with these numbers reaches a sink is
// known.
fn is_there(
    alloc: Global,
    system: &FlowSystem,
    facts: &Facts,
    numbers: &Bits,
    noted: Option<&Bits>,
    i: u32,
    sink: &FlowSink,
) -> Result<bool, AllocError>
    ensures { IfOk result (λ known. IsTrue known → AreKnown (tables_of system.now)
        (inclusions_of system.now) (held facts.now) i (numbers_in numbers.now)
        (option_copied noted.entry) → (f : Fact') → In f (asked (tables_of system.now)
        (held facts.now) (Some 1) (in_part (Part.Word 0) (words_of_values (tables_of system.now)
        (values_in (inclusions_of system.now)) (held facts.now) i (numbers_in numbers.now)))
        (sink_of sink.now)) → In f.item (held facts.now f.place)) }
{
    match sink {
        FlowSink::To(target) => match target {
            Target::Nothing => Ok(false),
            Target::Node(_) => Ok(false),
            Target::One(x) => are_known(alloc, system, facts, numbers, noted, i, x.0),
            Target::Vector(_) => Ok(false),
        },
        FlowSink::Result(_) => Ok(false),
        FlowSink::Site(_) => Ok(false),
        FlowSink::CellsAt(_) => Ok(false),
    }
}

// Puts word i of the values with these numbers at a sink.
fn put_met(
    alloc: Global,
    system: &FlowSystem,
    kept: &mut Kept,
    n: u32,
    inclusion: &Inclusion,
    w: Word,
    i: u32,
    sink: &FlowSink,
    numbers: &Bits,
) -> Result<bool, AllocError>
    requires number { slice_get (inclusions_of system.now) n ≡ Some (inclusion_of inclusion.now) }
    requires is { inclusion_of inclusion.now ≡ flows (word_at w i) (sink_of sink.now) }
    requires elsewhere { is_not_cell_sink (sink_of sink.now) ≡ true }
    requires sound { (m : ℕ) → In m (numbers_in numbers.now)
        → In m (met_by (tables_of system.now) kept.old w) }
    ensures steps { IfOk result (Steps (tables_of system.now) (inclusions_of system.now) kept.old
        kept.new) }
    ensures met { IfOk result (λ added. SameMembers (numbers_in numbers.now)
        (met_by (tables_of system.now) kept.old w)
        → MetAtEnd (tables_of system.now) (inclusions_of system.now) kept.old
        (inclusion_of inclusion.now) added) }
{
    let items = words_met(alloc, system, kept, numbers, i)?;
    let mut facts = FactRuns::new(alloc);
    asked(
        alloc,
        system,
        &kept.facts,
        Some(1),
        &items,
        sink,
        &mut facts,
    )?;
    add_all(alloc, &mut kept.facts, &facts)
}

// Word i of the values with these numbers, at a sink.
fn fetch_met(
    alloc: Global,
    system: &FlowSystem,
    kept: &mut Kept,
    n: u32,
    inclusion: &Inclusion,
    w: Word,
    i: u32,
    sink: &FlowSink,
    numbers: &Bits,
    noted: Option<&Bits>,
) -> Result<bool, AllocError>
    requires number { slice_get (inclusions_of system.now) n ≡ Some (inclusion_of inclusion.now) }
    requires is { inclusion_of inclusion.now ≡ flows (word_at w i) (sink_of sink.now) }
    requires elsewhere { is_not_cell_sink (sink_of sink.now) ≡ true }
    requires sound { (m : ℕ) → In m (numbers_in numbers.now)
        → In m (met_by (tables_of system.now) kept.old w) }
    ensures steps { IfOk result (Steps (tables_of system.now) (inclusions_of system.now) kept.old
        kept.new) }
    ensures met { IfOk result (λ added. SameMembers (numbers_in numbers.now)
        (met_by (tables_of system.now) kept.old w)
        → AreKnown (tables_of system.now) (inclusions_of system.now) (held kept.old.facts) i
        (numbers_in numbers.now) (option_copied noted.entry)
        → MetAtEnd (tables_of system.now) (inclusions_of system.now) kept.old
        (inclusion_of inclusion.now) added) }
{
    if is_there(alloc, system, &kept.facts, numbers, noted, i, sink)? {
        return Ok(false);
    }
    put_met(alloc, system, kept, n, inclusion, w, i, sink, numbers)
}

// Word i of the nodes at the cells of a word flows to a sink.
fn fetch(
    alloc: Global,
    system: &FlowSystem,
    kept: &mut Kept,
    noted: &RoundCaches,
    n: u32,
    inclusion: &Inclusion,
    w: Word,
    i: u32,
    sink: &FlowSink,
) -> Result<bool, AllocError>
    requires number { slice_get (inclusions_of system.now) n ≡ Some (inclusion_of inclusion.now) }
    requires is { inclusion_of inclusion.now ≡ flows (word_at w i) (sink_of sink.now) }
    requires elsewhere { is_not_cell_sink (sink_of sink.now) ≡ true }
    requires sound { MetSound (tables_of system.now) kept.old noted.now.met }
    ensures steps { IfOk result (Steps (tables_of system.now) (inclusions_of system.now) kept.old
        kept.new) }
    ensures met { IfOk result (λ added. NotedExact (tables_of system.now) (inclusions_of system.now)
        kept.old noted.now → MetAtEnd (tables_of system.now) (inclusions_of system.now) kept.old
        (inclusion_of inclusion.now) added) }
{
    match noted_of(&noted.met, w) {
        Some(numbers) => {
            let words = noted.words.at(numbers, i);
            fetch_met(
                alloc, system, kept, n, inclusion, w, i, sink, numbers, words,
            )
        }
        None => {
            let numbers = kept.met(alloc, system, w)?;
            fetch_met(
                alloc, system, kept, n, inclusion, w, i, sink, &numbers, None,
            )
        }
    }
}

// Satisfies the inclusion that a value flows to a sink.
fn satisfy_value(
    alloc: Global,
    system: &FlowSystem,
    kept: &mut Kept,
    n: u32,
    inclusion: &Inclusion,
    v: &Val,
    sink: &FlowSink,
) -> Result<bool, AllocError>
    requires number { slice_get (inclusions_of system.now) n ≡ Some (inclusion_of inclusion.now) }
    requires is { inclusion_of inclusion.now ≡ flows (value v.now) (sink_of sink.now) }
    requires by_words { is_by_words (inclusion_of inclusion.now) ≡ true }
    ensures steps { IfOk result (Steps (tables_of system.now) (inclusions_of system.now) kept.old
        kept.new) }
    ensures met { IfOk result (MetAtEnd (tables_of system.now) (inclusions_of system.now) kept.old
        (inclusion_of inclusion.now)) }
{
    match sink {
        FlowSink::To(_) => plain(alloc, system, kept, n, inclusion),
        FlowSink::Result(_) => plain(alloc, system, kept, n, inclusion),
        FlowSink::Site(s) => store(alloc, system, kept, n, inclusion, v, s.0),
        FlowSink::CellsAt(w) => update(alloc, system, kept, n, inclusion, v, *w),
    }
}

// Satisfies an inclusion that has nothing to do with cells.
fn plain(
    alloc: Global,
    system: &FlowSystem,
    kept: &mut Kept,
    n: u32,
    inclusion: &Inclusion,
) -> Result<bool, AllocError>
    requires number { slice_get (inclusions_of system.now) n ≡ Some (inclusion_of inclusion.now) }
    requires plain { touches_no_cell (inclusion_of inclusion.now) ≡ true }
    ensures steps { IfOk result (Steps (tables_of system.now) (inclusions_of system.now) kept.old
        kept.new) }
    ensures met { IfOk result (MetAtEnd (tables_of system.now) (inclusions_of system.now) kept.old
        (inclusion_of inclusion.now)) }
{
    satisfy_plain(alloc, system, &mut kept.facts, inclusion)
}

fn satisfy(
    alloc: Global,
    system: &FlowSystem,
    kept: &mut Kept,
    noted: &RoundCaches,
    n: u32,
    inclusion: &Inclusion,
) -> Result<bool, AllocError>
    requires number { slice_get (inclusions_of system.now) n ≡ Some (inclusion_of inclusion.now) }
    requires by_words { is_by_words (inclusion_of inclusion.now) ≡ true }
    requires sound { MetSound (tables_of system.now) kept.old noted.now.met }
    ensures steps { IfOk result (Steps (tables_of system.now) (inclusions_of system.now) kept.old
        kept.new) }
    ensures met { IfOk result (λ added. NotedExact (tables_of system.now) (inclusions_of system.now)
        kept.old noted.now → MetAtEnd (tables_of system.now) (inclusions_of system.now) kept.old
        (inclusion_of inclusion.now) added) }
{
    match inclusion {
        Inclusion::Flows(source, sink) => match source {
            Source::Value(v) => satisfy_value(alloc, system, kept, n, inclusion, v, sink),
            Source::ACell(_) => plain(alloc, system, kept, n, inclusion),
            Source::ANumber => plain(alloc, system, kept, n, inclusion),
            Source::Result(_) => plain(alloc, system, kept, n, inclusion),
            Source::NodesAt(_) => plain(alloc, system, kept, n, inclusion),
            Source::WordAt(w, i) => {
                fetch(alloc, system, kept, noted, n, inclusion, *w, *i, sink)
            }
            Source::EvaluatedAt(_) => plain(alloc, system, kept, n, inclusion),
            Source::Extended(_, _) => plain(alloc, system, kept, n, inclusion),
            Source::FieldsOf(_, _) => plain(alloc, system, kept, n, inclusion),
        },
        Inclusion::Forces(_) => plain(alloc, system, kept, n, inclusion),
        Inclusion::Applies(_, _, _) => plain(alloc, system, kept, n, inclusion),
    }
}

// One round of all inclusions. Says whether something may be new; where nothing is, nothing is
// wanting.
fn round(alloc: Global, system: &FlowSystem, kept: &mut Kept) -> Result<bool, AllocError>
    requires { AllByWords (inclusions_of system.now) }
    ensures sound { OnOk result (IsSound (tables_of system.now) (inclusions_of system.now) kept.old
        → IsSound (tables_of system.now) (inclusions_of system.now) kept.new) }
    ensures done { IfOk result (λ added. IsSound (tables_of system.now) (inclusions_of system.now)
        kept.old → added ≡ false
        → AllMet (tables_of system.now) (inclusions_of system.now) kept.new) }
{
    let noted = note_all(alloc, system, kept)?;
    let mut added = false;
    let mut n: u32 = 0;
    for inclusion in system.inclusions.as_slice() {
        added = either(added, satisfy(alloc, system, kept, &noted, n, inclusion)?);
        n = n.checked_add(1).ok_or(AllocError)?;
    }
    Ok(added)
}

/// What is known at the end: no inclusion asks for more.
pub fn least_kept(alloc: Global, system: &FlowSystem) -> Result<Kept, AllocError>
    requires { AllByWords (inclusions_of system.now) }
    ensures { IfOk result (λ k. IsLeast (tables_of system.now) (inclusions_of system.now)
        (solution (tables_of system.now) (inclusions_of system.now) k)) }
{
    let mut kept = solve_by_copies(alloc, system)?;
    'rounds: for _ in 0..u64::MAX {
        if !round(alloc, system, &mut kept)? {
            return Ok(kept);
        }
    }
    Err(AllocError)
}
