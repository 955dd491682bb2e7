// The places that inclusions read, by what is known so far: those that they name, and those that
// they reach through them.

ghost use Rattle.std.specs.Prelude.{◌≡◌, ◌++◌, OnOk};
ghost use Rattle.std.specs.List.{flat_map};
ghost use Rattle.flow_system.specs.Inclusions.{forces, applies};
ghost use Rattle.flow_system.specs.Shown.{tables_of, source_of, sink_of, inclusion_of};
ghost use Rattle.points_to.specs.Reads.{word_reads, value_reads, sink_reads, cell_reads, result_reads, forced_reads, applied_reads, cells_reads, source_reads, reads};
ghost use Rattle.points_to.specs.Known.{held};

use crate::facts::Facts;
use crate::give::{elements, value_nodes};
use crate::nodes::listed;
use crate::runs::ItemRuns;
use crate::tags::{called, delayed};
use flow_system::fact::{Element, Part, Place};
use flow_system::inclusion::{FlowSink, FlowSystem, Inclusion, Source};
use grin_syntax::program::{Val, Word};
use seq::Seq;
use std::alloc::{AllocError, Global};

fn word_reads(w: Word, out: &mut Seq<Place>) -> Result<(), AllocError>
    ensures { OnOk result (out.new ≡ out.old ++ word_reads w) }
{
    match w {
        Word::Lit(_) => Ok(()),
        Word::Var(x) => out.push(Place::Var(x.0)),
        Word::Global(_) => Ok(()),
        Word::TagWord(_) => Ok(()),
    }
}

fn words_read(words: &[Word], out: &mut Seq<Place>) -> Result<(), AllocError>
    ensures { OnOk result (out.new ≡ out.old ++ flat_map word_reads words.now) }
{
    for word in words {
        word_reads(*word, out)?;
    }
    Ok(())
}

fn value_reads(v: &Val, out: &mut Seq<Place>) -> Result<(), AllocError>
    ensures { OnOk result (out.new ≡ out.old ++ value_reads v.now) }
{
    match v {
        Val::NodeVar(x) => out.push(Place::Var(x.0)),
        Val::Node(_, words) => words_read(words.as_slice(), out),
        Val::Vector(words) => words_read(words.as_slice(), out),
        Val::One(w) => word_reads(*w, out),
    }
}

fn sink_reads(sink: &FlowSink, out: &mut Seq<Place>) -> Result<(), AllocError>
    ensures { OnOk result (out.new ≡ out.old ++ sink_reads (sink_of sink.now)) }
{
    match sink {
        FlowSink::To(_) => Ok(()),
        FlowSink::Result(_) => Ok(()),
        FlowSink::Site(_) => Ok(()),
        FlowSink::CellsAt(w) => word_reads(*w, out),
    }
}

fn cell_reads(word: Element, out: &mut Seq<Place>) -> Result<(), AllocError>
    ensures { OnOk result (out.new ≡ out.old ++ cell_reads word) }
{
    match word {
        Element::Cell(s) => out.push(Place::Site(s)),
        Element::Tag(_) => Ok(()),
        Element::Number => Ok(()),
    }
}

fn all_cells_read(words: &[Element], out: &mut Seq<Place>) -> Result<(), AllocError>
    ensures { OnOk result (out.new ≡ out.old ++ flat_map cell_reads words.now) }
{
    for word in words {
        cell_reads(*word, out)?;
    }
    Ok(())
}

// The variable of a word, and the cells that it may stand for.
fn cells_reads(
    alloc: Global,
    system: &FlowSystem,
    facts: &Facts,
    w: Word,
    out: &mut Seq<Place>,
) -> Result<(), AllocError>
    ensures { OnOk result (out.new ≡ out.old
        ++ cells_reads (tables_of system.now) (held facts.now) w) }
{
    word_reads(w, out)?;
    let mut cells = Seq::new(alloc);
    elements(alloc, system, facts, w, &mut cells)?;
    all_cells_read(cells.as_slice(), out)?;
    Ok(())
}

fn extended_reads(v: &Val, a: Word, out: &mut Seq<Place>) -> Result<(), AllocError>
    ensures { OnOk result (out.new ≡ out.old ++ (value_reads v.now ++ word_reads a)) }
{
    value_reads(v, out)?;
    word_reads(a, out)?;
    Ok(())
}

fn source_reads(
    alloc: Global,
    system: &FlowSystem,
    facts: &Facts,
    source: &Source,
    out: &mut Seq<Place>,
) -> Result<(), AllocError>
    ensures { OnOk result (out.new ≡ out.old
        ++ source_reads (tables_of system.now) (held facts.now) (source_of source.now)) }
{
    match source {
        Source::Value(v) => value_reads(v, out),
        Source::ACell(_) => Ok(()),
        Source::ANumber => Ok(()),
        Source::Result(f) => out.push(Place::Result(f.0)),
        Source::NodesAt(w) => cells_reads(alloc, system, facts, *w, out),
        Source::WordAt(w, _) => cells_reads(alloc, system, facts, *w, out),
        Source::EvaluatedAt(w) => cells_reads(alloc, system, facts, *w, out),
        Source::Extended(v, a) => extended_reads(v, *a, out),
        Source::FieldsOf(v, _) => value_reads(v, out),
    }
}

fn flow_reads(
    alloc: Global,
    system: &FlowSystem,
    facts: &Facts,
    source: &Source,
    sink: &FlowSink,
    out: &mut Seq<Place>,
) -> Result<(), AllocError>
    ensures { OnOk result (out.new ≡ out.old
        ++ (source_reads (tables_of system.now) (held facts.now) (source_of source.now)
        ++ sink_reads (sink_of sink.now))) }
{
    source_reads(alloc, system, facts, source, out)?;
    sink_reads(sink, out)?;
    Ok(())
}

fn result_reads(proc: Option<u32>, out: &mut Seq<Place>) -> Result<(), AllocError>
    ensures { OnOk result (out.new ≡ out.old ++ result_reads proc) }
{
    match proc {
        Some(f) => out.push(Place::Result(f)),
        None => Ok(()),
    }
}

fn forced_reads(system: &FlowSystem, word: Element, out: &mut Seq<Place>) -> Result<(), AllocError>
    ensures { OnOk result (out.new ≡ out.old ++ forced_reads (tables_of system.now) word) }
{
    match word {
        Element::Cell(_) => Ok(()),
        Element::Tag(t) => result_reads(delayed(system, t), out),
        Element::Number => Ok(()),
    }
}

fn all_forced_reads(
    system: &FlowSystem,
    words: &[Element],
    out: &mut Seq<Place>,
) -> Result<(), AllocError>
    ensures { OnOk result (out.new ≡ out.old
        ++ flat_map (forced_reads (tables_of system.now)) words.now) }
{
    for word in words {
        forced_reads(system, *word, out)?;
    }
    Ok(())
}

// A site, and the results of the procedures whose calls are delayed there.
fn forces_reads(
    alloc: Global,
    system: &FlowSystem,
    facts: &Facts,
    s: u32,
    out: &mut Seq<Place>,
) -> Result<(), AllocError>
    ensures { OnOk result (out.new ≡ out.old
        ++ reads (tables_of system.now) (held facts.now) (forces s)) }
{
    out.push(Place::Site(s))?;
    let mut found = Seq::new(alloc);
    facts.list_words(Place::Site(s), Part::Tags, &mut found)?;
    all_forced_reads(system, found.as_slice(), out)?;
    Ok(())
}

fn applied_reads(system: &FlowSystem, word: Element, out: &mut Seq<Place>) -> Result<(), AllocError>
    ensures { OnOk result (out.new ≡ out.old ++ applied_reads (tables_of system.now) word) }
{
    match word {
        Element::Cell(_) => Ok(()),
        Element::Tag(t) => result_reads(called(system, t), out),
        Element::Number => Ok(()),
    }
}

fn all_applied_reads(
    system: &FlowSystem,
    words: &[Element],
    out: &mut Seq<Place>,
) -> Result<(), AllocError>
    ensures { OnOk result (out.new ≡ out.old
        ++ flat_map (applied_reads (tables_of system.now)) words.now) }
{
    for word in words {
        applied_reads(system, *word, out)?;
    }
    Ok(())
}

// A value, an argument and a sink, and the results of the procedures that the value may call.
fn applies_reads(
    alloc: Global,
    system: &FlowSystem,
    facts: &Facts,
    v: &Val,
    a: Word,
    sink: &FlowSink,
    out: &mut Seq<Place>,
) -> Result<(), AllocError>
    ensures { OnOk result (out.new ≡ out.old
        ++ reads (tables_of system.now) (held facts.now) (applies v.now a (sink_of sink.now))) }
{
    value_reads(v, out)?;
    word_reads(a, out)?;
    sink_reads(sink, out)?;
    let mut nodes = ItemRuns::new(alloc);
    value_nodes(alloc, system, facts, v, &mut nodes)?;
    let mut found = Seq::new(alloc);
    listed(alloc, Part::Tags, &nodes, &mut found)?;
    all_applied_reads(system, found.as_slice(), out)?;
    Ok(())
}

/// All places that an inclusion reads.
pub fn reads(
    alloc: Global,
    system: &FlowSystem,
    facts: &Facts,
    inclusion: &Inclusion,
    out: &mut Seq<Place>,
) -> Result<(), AllocError>
    ensures { OnOk result (out.new ≡ out.old
        ++ reads (tables_of system.now) (held facts.now) (inclusion_of inclusion.now)) }
{
    match inclusion {
        Inclusion::Flows(source, sink) => flow_reads(alloc, system, facts, source, sink, out),
        Inclusion::Forces(s) => forces_reads(alloc, system, facts, s.0, out),
        Inclusion::Applies(v, a, sink) => applies_reads(alloc, system, facts, v, *a, sink, out),
    }
}
