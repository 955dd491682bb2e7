// What is known of a system that reads cells by words alone.

ghost use Rattle.std.specs.Prelude.{◌≡◌, ℕ, [], ◌++◌, IsTrue, IfOk, OnOk};
ghost use Rattle.std.specs.List.{flat_map};
ghost use Rattle.flow_system.specs.declared.fact.Place.{Place as Place'};
ghost use Rattle.flow_system.specs.Shown.{tables_of, inclusions_of, inclusion_of, sink_of};
ghost use Rattle.points_to.specs.Held.{In, elements};
ghost use Rattle.points_to.specs.Known.{held};
ghost use Rattle.points_to.specs.Kept.{has_no_node_variable, met_by, HasSite, PutsAt, IsSound};
ghost use Rattle.points_to.specs.Rows.{numbers_in, SameMembers};
ghost use Rattle.points_to.specs.Stored.{stored_at, cell_stored};

use crate::bits::Bits;
use crate::facts::{Fact, Facts, Item};
use crate::give::elements;
use crate::stored::Stored;
use flow_system::fact::{Element, Part, Place};
use flow_system::inclusion::{FlowSink, FlowSystem, Inclusion, Source};
use grin_syntax::program::{Val, Word};
use seq::Seq;
use std::alloc::{AllocError, Global};

/// Facts, and the values that reach cells.
#[derive(Drop)]
pub struct Kept {
    pub facts: Facts,
    pub stored: Stored,
}

impl Kept {
    /// Nothing is known.
    pub fn new(alloc: Global) -> Kept
        ensures facts { (q : Place') → held result.facts q ≡ [] }
        ensures stored { (s : ℕ) → stored_at result.stored s ≡ [] }
    {
        Kept {
            facts: Facts::new(alloc),
            stored: Stored::new(alloc),
        }
    }

    /// The values in the cells of a word.
    pub fn met(&self, alloc: Global, system: &FlowSystem, w: Word) -> Result<Bits, AllocError>
        ensures { IfOk result (λ b. SameMembers (numbers_in b)
            (met_by (tables_of system.now) self.now w)) }
    {
        let mut cells = Seq::new(alloc);
        elements(alloc, system, &self.facts, w, &mut cells)?;
        met_in(alloc, &self.stored, cells.as_slice())
    }

    /// Whether a word may stand for another.
    pub fn stands_for(&self, system: &FlowSystem, w: Word, word: Element) -> bool
        ensures { IsTrue result
            → In word (elements (tables_of system.now) (held self.now.facts) w) }
    {
        match w {
            Word::Lit(_) => is_same(word, Element::Number),
            Word::Var(x) => self.facts.has(Fact {
                place: Place::Var(x.0),
                item: Item {
                    part: Part::Word(0),
                    word,
                },
            }),
            Word::Global(i) => match system.globals.get(i as usize) {
                Some(global) => is_same(word, Element::Cell(global.site.0)),
                None => false,
            },
            Word::TagWord(t) => is_same(word, Element::Tag(t.0)),
        }
    }

    /// Whether the value with a number is in a cell of a word at a site.
    pub fn reaches(&self, system: &FlowSystem, w: Word, site: u32, n: u32) -> bool
        ensures { IsTrue result → In n (met_by (tables_of system.now) self.now w) }
    {
        self.stored.has(site, n) && self.stands_for(system, w, Element::Cell(site))
    }

    // Whether what flows to a sink reaches the cells of a site.
    fn has_site(&self, system: &FlowSystem, sink: &FlowSink, site: u32) -> bool
        ensures { IsTrue result
            → HasSite (tables_of system.now) (held self.now.facts) site (sink_of sink.now) }
    {
        match sink {
            FlowSink::To(_) => false,
            FlowSink::Result(_) => false,
            FlowSink::Site(s) => s.0 == site,
            FlowSink::CellsAt(w) => self.stands_for(system, *w, Element::Cell(site)),
        }
    }

    // Whether an inclusion puts a value of words into the cells of a site.
    fn puts_at(&self, system: &FlowSystem, inclusion: &Inclusion, site: u32) -> bool
        ensures { IsTrue result → PutsAt (tables_of system.now) (held self.now.facts)
            (inclusion_of inclusion.now) site }
    {
        match inclusion {
            Inclusion::Flows(source, sink) => match source {
                Source::Value(v) => has_no_node_variable(v) && self.has_site(system, sink, site),
                Source::ACell(_) => false,
                Source::ANumber => false,
                Source::Result(_) => false,
                Source::NodesAt(_) => false,
                Source::WordAt(_, _) => false,
                Source::EvaluatedAt(_) => false,
                Source::Extended(_, _) => false,
                Source::FieldsOf(_, _) => false,
            },
            Inclusion::Forces(_) => false,
            Inclusion::Applies(_, _, _) => false,
        }
    }

    /// Stores the value of an inclusion at a site, where it goes there. Says whether it may be new.
    pub fn store(
        &mut self,
        alloc: Global,
        system: &FlowSystem,
        n: u32,
        site: u32,
    ) -> Result<bool, AllocError>
        ensures { OnOk result (IsSound (tables_of system.now) (inclusions_of system.now) self.old
            → IsSound (tables_of system.now) (inclusions_of system.now) self.new) }
    {
        match system.inclusions.get(n as usize) {
            Some(inclusion) => {
                if self.puts_at(system, inclusion, site) {
                    return self.stored.add(alloc, site, n);
                }
                Ok(false)
            }
            None => Ok(false),
        }
    }
}

fn is_same(a: Element, b: Element) -> bool
    ensures { IsTrue result → a ≡ b }
{
    match a {
        Element::Cell(s) => match b {
            Element::Cell(r) => s == r,
            Element::Tag(_) => false,
            Element::Number => false,
        },
        Element::Tag(t) => match b {
            Element::Cell(_) => false,
            Element::Tag(u) => t == u,
            Element::Number => false,
        },
        Element::Number => match b {
            Element::Cell(_) => false,
            Element::Tag(_) => false,
            Element::Number => true,
        },
    }
}

/// Whether a value has no node variable.
pub fn has_no_node_variable(v: &Val) -> bool
    ensures { result ≡ has_no_node_variable v.now }
{
    match v {
        Val::NodeVar(_) => false,
        Val::Node(_, _) => true,
        Val::Vector(_) => true,
        Val::One(_) => true,
    }
}

// The values in some cells.
fn met_in(alloc: Global, stored: &Stored, cells: &[Element]) -> Result<Bits, AllocError>
    ensures { IfOk result (λ b. SameMembers (numbers_in b)
        (flat_map (cell_stored stored.now) cells.now)) }
{
    let mut met = Bits::new(alloc);
    for cell in cells {
        stored.put_met(*cell, &mut met)?;
    }
    Ok(met)
}
