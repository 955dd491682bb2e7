// Words that are fetched, where many fetches are of the same word of the same cells, and the
// variables whose words are among them in every solution.

ghost use Rattle.std.specs.Prelude.{◌≡◌, ◌⊎◌, ◌<◌, ℕ, List, ◌++◌, length, Some, slice_get, IsTrue, IfOk, IfSome, OnOk};
ghost use Rattle.std.specs.Int.{bit_at};
ghost use Rattle.std.specs.List.{flat_map};
ghost use Rattle.flow_system.specs.declared.fact.Element.{Element as Element'};
ghost use Rattle.flow_system.specs.declared.fact.Element.TheVariants.{Tag as tag};
ghost use Rattle.flow_system.specs.Inclusions.{Inclusion as Inclusion', flows, to, word_at};
ghost use Rattle.flow_system.specs.Shown.{tables_of, inclusions_of, inclusion_of};
ghost use Rattle.flow_system.specs.Tables.{Tables};
ghost use Rattle.points_to.specs.declared.copies.Fetch.{Fetch as Fetch'};
ghost use Rattle.points_to.specs.Bits.{block_words};
ghost use Rattle.points_to.specs.Copies.{fetch_at, words_at, targets_at, links_at, facts_to, AreFetched, HoldsFetched, GoesTo, AreAt, IsField, IsFetched, IsCopied};
ghost use Rattle.points_to.specs.Held.{In};
ghost use Rattle.points_to.specs.Kept.{IsSound};
ghost use Rattle.points_to.specs.Known.{held, GrowsByFacts};
ghost use Rattle.points_to.specs.ValueWords.{elements_of};
ghost use Rattle.seq.specs.Lists.{or_empty};

use crate::bits::{Bits, are_within, bits_there, number_of, place_from};
use crate::facts::Facts;
use crate::kept::Kept;
use crate::origin::value_in;
use crate::runs::WordRuns;
use crate::stored_tags::stored_word;
use crate::tags::fields_of;
use flow_system::fact::Element;
use flow_system::inclusion::{FlowSink, FlowSystem, Inclusion, Source};
use grin_syntax::program::{TagId, Target, Val, VarId, Word};
use seq::Seq;
use std::alloc::{AllocError, Global};

/// Word i of the nodes at the cells of a word.
#[derive(Clone, Copy)]
pub struct Fetch {
    pub cells: Word,
    pub word: u32,
}

/// What is known of a fetch, and the variables that get it.
#[derive(Drop)]
pub struct Fetched {
    pub fetch: Fetch,
    pub words: Bits,
    pub targets: Seq<u32>,
}

/// Fetches, and by variable the numbers of those that have all its words.
#[derive(Drop)]
pub struct Copies {
    pub fetches: Vec<Fetched>,
    links: Vec<Seq<u32>>,
}

impl Copies {
    /// No fetches.
    pub fn new(alloc: Global) -> Copies
        ensures { (p : Tables) → (cs : List Inclusion') → IsCopied p cs result }
    {
        Copies {
            fetches: Vec::new(alloc),
            links: Vec::new(alloc),
        }
    }

    /// The fetches that have all words of a variable.
    pub fn linked_to(&self, x: u32) -> &[u32]
        ensures { result.now ≡ links_at self.now x }
    {
        match self.links.get(x as usize) {
            Some(row) => row.as_slice(),
            None => &[],
        }
    }

    /// The fetch with a number.
    pub fn fetch(&self, g: u32) -> Option<Fetch>
        ensures { result ≡ fetch_at self.now g }
    {
        match self.fetches.get(g as usize) {
            Some(fetched) => Some(fetched.fetch),
            None => None,
        }
    }

    /// What is known to be fetched.
    pub fn words(&self, g: u32) -> &[(u32, u64)]
        ensures { flat_map block_words result.now ≡ words_at self.now g }
    {
        match self.fetches.get(g as usize) {
            Some(fetched) => fetched.words.blocks.as_slice(),
            None => &[],
        }
    }

    /// Whether a number is known to be fetched.
    pub fn has_number(&self, g: u32) -> bool {
        match self.fetches.get(g as usize) {
            Some(fetched) => fetched.words.has(0),
            None => false,
        }
    }

    /// Whether a tag is known to be fetched.
    pub fn has_tag(&self, g: u32, t: TagId) -> bool {
        match self.fetches.get(g as usize) {
            Some(fetched) => fetched.words.has(number_of(Element::Tag(t.0))),
            None => false,
        }
    }

    /// One fetch more, that goes nowhere as yet, and its number.
    pub fn add(&mut self, alloc: Global, fetch: Fetch) -> Result<u32, AllocError>
        ensures { OnOk result ((p : Tables) → (cs : List Inclusion')
            → IsCopied p cs self.old → IsCopied p cs self.new) }
    {
        if self.fetches.len() > u32::MAX as usize {
            return Err(AllocError);
        }
        let number = self.fetches.len() as u32;
        self.fetches.push(Fetched {
            fetch,
            words: Bits::new(alloc),
            targets: Seq::new(alloc),
        })?;
        Ok(number)
    }

    /// A fetch goes to the variable of an inclusion, where this is such a fetch.
    pub fn add_target(&mut self, g: u32, inclusion: &Inclusion) -> Result<(), AllocError>
        ensures { OnOk result ((p : Tables) → (cs : List Inclusion') → (i : ℕ)
            → slice_get cs i ≡ Some (inclusion_of inclusion.now)
            → IsCopied p cs self.old → IsCopied p cs self.new) }
    {
        match one_fetch(inclusion) {
            None => Ok(()),
            Some((fetch, x)) => {
                if (g as usize) < self.fetches.len() {
                    return put_target(&mut self.fetches[g as usize], fetch, x);
                }
                Ok(())
            }
        }
    }

    // Words that are fetched. Notes the fetch where it may have more.
    fn put(
        &mut self,
        g: u32,
        blocks: &[(u32, u64)],
        changed: &mut Vec<u32>,
    ) -> Result<(), AllocError>
        ensures { OnOk result ((p : Tables) → (cs : List Inclusion')
            → ((f : Fetch') → fetch_at self.old g ≡ Some f
            → AreFetched p cs f (flat_map block_words blocks.now))
            → IsCopied p cs self.old → IsCopied p cs self.new) }
    {
        if (g as usize) < self.fetches.len() {
            return put_words(&mut self.fetches[g as usize], g, blocks, changed);
        }
        Ok(())
    }

    // A variable whose words are fetched.
    fn put_link(&mut self, alloc: Global, x: u32, g: u32) -> Result<(), AllocError>
        ensures fetches { OnOk result (self.new.fetches ≡ self.old.fetches) }
        ensures links { OnOk result ((y h : ℕ) → In h (links_at self.new y)
            → In h (links_at self.old y) ⊎ ((y ≡ x) × (h ≡ g))) }
    {
        grow(alloc, &mut self.links, x)?;
        push_at(&mut self.links, x, g)
    }

    /// Links a variable to a fetch, where its words are all fetched, by a value at a site with a
    /// tag among its own. Says whether there is such a variable, and which fetches may have more.
    pub fn link(
        &mut self,
        alloc: Global,
        system: &FlowSystem,
        kept: &Kept,
        g: u32,
        site: u32,
        n: u32,
        t: u32,
        changed: &mut Vec<u32>,
    ) -> Result<bool, AllocError>
        ensures { OnOk result (IsSound (tables_of system.now) (inclusions_of system.now) kept.now
            → IsCopied (tables_of system.now) (inclusions_of system.now) self.old
            → IsCopied (tables_of system.now) (inclusions_of system.now) self.new) }
    {
        changed.clear();
        match self.fetch(g) {
            None => Ok(false),
            Some(fetch) => match linked(system, kept, fetch, site, n, t) {
                None => Ok(false),
                Some(x) => {
                    self.put_link(alloc, x.0, g)?;
                    self.put(g, kept.facts.word_blocks(x.0), changed)?;
                    Ok(true)
                }
            },
        }
    }

    /// The word of a value at a site is fetched. Says which fetches may have more.
    pub fn give(
        &mut self,
        alloc: Global,
        system: &FlowSystem,
        kept: &Kept,
        g: u32,
        site: u32,
        n: u32,
        changed: &mut Vec<u32>,
    ) -> Result<(), AllocError>
        ensures { OnOk result (IsSound (tables_of system.now) (inclusions_of system.now) kept.now
            → IsCopied (tables_of system.now) (inclusions_of system.now) self.old
            → IsCopied (tables_of system.now) (inclusions_of system.now) self.new) }
    {
        changed.clear();
        match self.fetch(g) {
            None => Ok(()),
            Some(fetch) => {
                if !kept.reaches(system, fetch.cells, site, n) {
                    return Ok(());
                }
                let mut words = WordRuns::new(alloc);
                stored_word(alloc, system, &kept.facts, n as u64, fetch.word, &mut words)?;
                self.put(g, words.blocks(), changed)
            }
        }
    }

    /// What is new at a variable is fetched where it is linked. Says which fetches may have more.
    pub fn pass(
        &mut self,
        x: u32,
        fresh: &[(u32, u64)],
        changed: &mut Vec<u32>,
    ) -> Result<(), AllocError>
        ensures { OnOk result ((p : Tables) → (cs : List Inclusion')
            → AreAt p cs x (flat_map block_words fresh.now)
            → IsCopied p cs self.old → IsCopied p cs self.new) }
    {
        changed.clear();
        let count = self.linked_to(x).len();
        for k in 0..count {
            self.pass_to(x, k, fresh, changed)?;
        }
        Ok(())
    }

    // The same for the fetch at place k of those that a variable is linked to.
    fn pass_to(
        &mut self,
        x: u32,
        k: usize,
        fresh: &[(u32, u64)],
        changed: &mut Vec<u32>,
    ) -> Result<(), AllocError>
        ensures { OnOk result ((p : Tables) → (cs : List Inclusion')
            → AreAt p cs x (flat_map block_words fresh.now)
            → IsCopied p cs self.old → IsCopied p cs self.new) }
    {
        match self.linked_to(x).get(k) {
            Some(g) => {
                let g = *g;
                self.put(g, fresh, changed)
            }
            None => Ok(()),
        }
    }

    /// What is new at a fetch goes to its variables. Says which of them may have more.
    pub fn deliver(
        &self,
        alloc: Global,
        facts: &mut Facts,
        g: u32,
        fresh: &[(u32, u64)],
        changed: &mut Vec<u32>,
    ) -> Result<(), AllocError>
        ensures { OnOk result (GrowsByFacts (held facts.old) (held facts.new)
            (facts_to (targets_at self.now g) (flat_map block_words fresh.now))) }
    {
        changed.clear();
        match self.fetches.get(g as usize) {
            Some(fetched) => add_to_all(alloc, facts, fetched.targets.as_slice(), fresh, changed),
            None => Ok(()),
        }
    }
}

// Notes a number, where something changed.
fn note_changed(more: bool, n: u32, changed: &mut Vec<u32>) -> Result<(), AllocError> {
    if more {
        changed.push(n)?;
    }
    Ok(())
}

// Words that are fetched, where the fetch has the number g.
fn put_words(
    fetched: &mut Fetched,
    g: u32,
    blocks: &[(u32, u64)],
    changed: &mut Vec<u32>,
) -> Result<(), AllocError>
    ensures fetch { OnOk result (fetched.new.fetch ≡ fetched.old.fetch) }
    ensures sound { OnOk result ((p : Tables) → (cs : List Inclusion')
        → AreFetched p cs fetched.old.fetch (flat_map block_words blocks.now)
        → IsFetched p cs fetched.old → IsFetched p cs fetched.new) }
{
    if are_there(blocks, fetched.words.blocks.as_slice()) {
        return Ok(());
    }
    note_changed(fetched.words.gain_all(blocks)?, g, changed)?;
    Ok(())
}

// Whether many blocks are all among others, which is often so. Of a few it says no.
fn are_there(blocks: &[(u32, u64)], others: &[(u32, u64)]) -> bool {
    if blocks.len() < others.len() / 8 {
        return false;
    }
    are_within(blocks, others)
}

// Makes empty rows up to the one with this number.
fn grow(alloc: Global, rows: &mut Vec<Seq<u32>>, n: u32) -> Result<(), AllocError>
    ensures there { OnOk result (n < length rows.new.items) }
    ensures same { OnOk result ((m : ℕ) → or_empty (slice_get rows.new.items m)
        ≡ or_empty (slice_get rows.old.items m)) }
{
    'growing: while rows.len() <= n as usize {
        rows.push(Seq::new(alloc))?;
    }
    Ok(())
}

// Puts a number at the end of the row with a number, which is there.
fn push_at(rows: &mut Vec<Seq<u32>>, n: u32, g: u32) -> Result<(), AllocError>
    requires { n < length rows.old.items }
    ensures { OnOk result ((m h : ℕ) → In h (or_empty (slice_get rows.new.items m))
        → In h (or_empty (slice_get rows.old.items m)) ⊎ ((m ≡ n) × (h ≡ g))) }
{
    rows[n as usize].push(g)
}

fn put_target(fetched: &mut Fetched, fetch: Fetch, x: VarId) -> Result<(), AllocError>
    ensures fetch { OnOk result (fetched.new.fetch ≡ fetched.old.fetch) }
    ensures sound { OnOk result ((p : Tables) → (cs : List Inclusion') → GoesTo p cs fetch x.0
        → IsFetched p cs fetched.old → IsFetched p cs fetched.new) }
{
    if same_fetch(fetched.fetch, fetch) {
        return fetched.targets.push(x.0);
    }
    Ok(())
}

fn add_to_all(
    alloc: Global,
    facts: &mut Facts,
    targets: &[u32],
    words: &[(u32, u64)],
    changed: &mut Vec<u32>,
) -> Result<(), AllocError>
    ensures { OnOk result (GrowsByFacts (held facts.old) (held facts.new)
        (facts_to targets.now (flat_map block_words words.now))) }
{
    for x in targets {
        note_changed(facts.add_words(alloc, *x, words)?, *x, changed)?;
    }
    Ok(())
}

// The variable whose words are all fetched, by a value at a site with a tag among its own.
fn linked(
    system: &FlowSystem,
    kept: &Kept,
    fetch: Fetch,
    site: u32,
    n: u32,
    t: u32,
) -> Option<VarId>
    ensures { IfSome result (λ x. IsSound (tables_of system.now) (inclusions_of system.now) kept.now
        → HoldsFetched (tables_of system.now) (inclusions_of system.now) fetch x.0) }
{
    if fetch.word == 0 {
        return None;
    }
    if !kept.reaches(system, fetch.cells, site, n) {
        return None;
    }
    match fields_of(system, t) {
        None => None,
        Some(fields) => {
            if fetch.word > fields {
                return None;
            }
            match system.inclusions.get(n as usize) {
                None => None,
                Some(inclusion) => match value_in(inclusion) {
                    None => None,
                    Some(v) => match field(system, kept, v, t, fields, fetch.word - 1) {
                        None => None,
                        Some(w) => as_variable(w),
                    },
                },
            }
        }
    }
}

// Field j of the nodes of a tag with so many fields that a value stands for.
fn field(system: &FlowSystem, kept: &Kept, v: &Val, t: u32, fields: u32, j: u32) -> Option<Word>
    ensures { IfSome result (IsField (tables_of system.now) (held kept.now.facts) t fields j v.now) }
{
    match v {
        Val::NodeVar(_) => None,
        Val::Node(u, words) => {
            if u.0 != t {
                return None;
            }
            word_at(words.as_slice(), j as usize)
        }
        Val::Vector(words) => {
            if begins_with(system, kept, words.as_slice(), t, fields) {
                return word_at(words.as_slice(), j as usize + 1);
            }
            None
        }
        Val::One(_) => None,
    }
}

fn word_at(words: &[Word], j: usize) -> Option<Word>
    ensures { result ≡ slice_get words.now j }
{
    match words.get(j) {
        Some(w) => Some(*w),
        None => None,
    }
}

// Whether words begin with a tag, and are more than its fields.
fn begins_with(system: &FlowSystem, kept: &Kept, words: &[Word], t: u32, fields: u32) -> bool
    ensures { IsTrue result → (fields < length words.now) × In (tag t)
        (elements_of (tables_of system.now) (held kept.now.facts) (slice_get words.now 0)) }
{
    if fields as usize >= words.len() {
        return false;
    }
    match words.get(0) {
        Some(w) => kept.stands_for(system, *w, Element::Tag(t)),
        None => false,
    }
}

// The bits of a that are not bits of b.
fn without(a: u64, b: u64) -> u64
    ensures { (i : ℕ) → bit_at result i ≡ 1 → bit_at a i ≡ 1 }
{
    a & !b
}

/// Puts the words of blocks that are not in a set at the end of a list.
pub fn put_fresh(blocks: &[(u32, u64)], old: &Bits, out: &mut WordRuns) -> Result<(), AllocError>
    ensures { OnOk result ((u : Element') → In u out.new
        → In u out.old ⊎ In u (flat_map block_words blocks.now)) }
{
    let mut place = 0;
    for block in blocks {
        place = place_from(old.blocks.as_slice(), place, block.0);
        put_left(
            *block,
            bits_there(old.blocks.as_slice(), place, block.0),
            out,
        )?;
    }
    Ok(())
}

// Puts the words of a block whose bits are not among others at the end.
fn put_left(block: (u32, u64), others: u64, out: &mut WordRuns) -> Result<(), AllocError>
    ensures { OnOk result ((u : Element') → In u out.new
        → In u out.old ⊎ In u (block_words block)) }
{
    let left = without(block.1, others);
    if left == 0 {
        return Ok(());
    }
    out.push_block((block.0, left))
}

/// The fetch and the variable, where a variable gets word i of the nodes at the cells of a word.
pub fn one_fetch(inclusion: &Inclusion) -> Option<(Fetch, VarId)>
    ensures { IfSome result (λ r. inclusion_of inclusion.now
        ≡ flows (word_at r.0.cells r.0.word) (to (Target.One r.1))) }
{
    match inclusion {
        Inclusion::Flows(Source::WordAt(w, i), FlowSink::To(Target::One(x))) => {
            let fetch = Fetch {
                cells: *w,
                word: *i,
            };
            Some((fetch, *x))
        }
        _ => None,
    }
}

/// Whether two fetches, of variables or global cells, are the same.
pub fn same_fetch(a: Fetch, b: Fetch) -> bool
    ensures { IsTrue result → a ≡ b }
{
    if a.word != b.word {
        return false;
    }
    same_word(a.cells, b.cells)
}

fn same_word(a: Word, b: Word) -> bool
    ensures { IsTrue result → a ≡ b }
{
    match a {
        Word::Lit(_) => false,
        Word::Var(x) => match b {
            Word::Lit(_) => false,
            Word::Var(y) => x.0 == y.0,
            Word::Global(_) => false,
            Word::TagWord(_) => false,
        },
        Word::Global(i) => match b {
            Word::Lit(_) => false,
            Word::Var(_) => false,
            Word::Global(j) => i == j,
            Word::TagWord(_) => false,
        },
        Word::TagWord(_) => false,
    }
}

fn as_variable(w: Word) -> Option<VarId>
    ensures { IfSome result (λ x. w ≡ Word.Var x) }
{
    match w {
        Word::Lit(_) => None,
        Word::Var(x) => Some(x),
        Word::Global(_) => None,
        Word::TagWord(_) => None,
    }
}
