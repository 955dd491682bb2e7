// What inclusions ask for, by what is known so far.

ghost use Rattle.std.specs.Prelude.{◌≡◌, ◌++◌, None, Some, OnOk};
ghost use Rattle.std.specs.List.{flat_map};
ghost use Rattle.flow_system.specs.Inclusions.{held as held', evaluated, into_site, into_result, cells_at, forces, applies};
ghost use Rattle.flow_system.specs.Shown.{tables_of, source_of, sink_of, inclusion_of};
ghost use Rattle.flow_system.specs.Tables.{params_of};
ghost use Rattle.points_to.specs.Held.{as_nodes, elements, items};
ghost use Rattle.points_to.specs.Asked.{asked, target_facts, cell_facts, flow_facts, delayed_facts, forced, facts_demanded};
ghost use Rattle.points_to.specs.Applied.{call_arguments, call_facts, tag_applied};
ghost use Rattle.points_to.specs.ByTag.{IsByTag};
ghost use Rattle.points_to.specs.Known.{held};

use crate::by_tag::ByTag;
use crate::facts::Facts;
use crate::give::{arguments_by_tag, elements, items, value_nodes, width};
use crate::nodes::{as_nodes, evaluated, listed};
use crate::runs::{FactRuns, ItemRuns};
use crate::tags::{called, delayed};
use crate::targets::{facts_at, flow_to_target, items_to_target, nodes_at_place, vector_facts};
use flow_system::fact::{Element, Part, Place};
use flow_system::inclusion::{FlowSink, FlowSystem, Inclusion, Source};
use grin_syntax::program::{ProcId, Site, Val, Word};
use seq::Seq;
use std::alloc::{AllocError, Global};

fn cell_facts(nodes: &ItemRuns, word: Element, out: &mut FactRuns) -> Result<(), AllocError>
    ensures { OnOk result (out.new ≡ out.old ++ cell_facts nodes.now word) }
{
    match word {
        Element::Cell(s) => facts_at(Place::Site(s), nodes, out),
        Element::Tag(_) => Ok(()),
        Element::Number => Ok(()),
    }
}

fn cells_facts(nodes: &ItemRuns, words: &[Element], out: &mut FactRuns) -> Result<(), AllocError>
    ensures { OnOk result (out.new ≡ out.old ++ flat_map (cell_facts nodes.now) words.now) }
{
    for word in words {
        cell_facts(nodes, *word, out)?;
    }
    Ok(())
}

fn cells_asked(
    alloc: Global,
    system: &FlowSystem,
    facts: &Facts,
    k: Option<usize>,
    items: &ItemRuns,
    w: Word,
    out: &mut FactRuns,
) -> Result<(), AllocError>
    ensures { OnOk result (out.new ≡ out.old
        ++ flat_map (cell_facts (as_nodes (tables_of system.now) k items.now))
        (elements (tables_of system.now) (held facts.now) w)) }
{
    let mut nodes = ItemRuns::new(alloc);
    as_nodes(alloc, system, k, items, &mut nodes)?;
    let mut cells = Seq::new(alloc);
    elements(alloc, system, facts, w, &mut cells)?;
    cells_facts(&nodes, cells.as_slice(), out)
}

// What a source gives, at the result of a procedure.
fn flow_to_result(
    alloc: Global,
    system: &FlowSystem,
    facts: &Facts,
    source: &Source,
    f: ProcId,
    out: &mut FactRuns,
) -> Result<(), AllocError>
    ensures { OnOk result (out.new ≡ out.old
        ++ flow_facts (tables_of system.now) (held facts.now) (source_of source.now)
        (into_result f.0)) }
{
    let mut given = ItemRuns::new(alloc);
    items(alloc, system, facts, source, &mut given)?;
    facts_at(Place::Result(f.0), &given, out)
}

// What a source gives as nodes, at the cells of a site.
fn flow_to_site(
    alloc: Global,
    system: &FlowSystem,
    facts: &Facts,
    source: &Source,
    s: Site,
    out: &mut FactRuns,
) -> Result<(), AllocError>
    ensures { OnOk result (out.new ≡ out.old
        ++ flow_facts (tables_of system.now) (held facts.now) (source_of source.now)
        (into_site s.0)) }
{
    let mut given = ItemRuns::new(alloc);
    items(alloc, system, facts, source, &mut given)?;
    let k = width(source);
    nodes_at_place(alloc, system, k, &given, Place::Site(s.0), out)
}

// What a source gives as nodes, at the cells of a word.
fn flow_to_cells(
    alloc: Global,
    system: &FlowSystem,
    facts: &Facts,
    source: &Source,
    w: Word,
    out: &mut FactRuns,
) -> Result<(), AllocError>
    ensures { OnOk result (out.new ≡ out.old
        ++ flow_facts (tables_of system.now) (held facts.now) (source_of source.now)
        (cells_at w)) }
{
    let mut given = ItemRuns::new(alloc);
    items(alloc, system, facts, source, &mut given)?;
    cells_asked(alloc, system, facts, width(source), &given, w, out)
}

fn flow_facts(
    alloc: Global,
    system: &FlowSystem,
    facts: &Facts,
    source: &Source,
    sink: &FlowSink,
    out: &mut FactRuns,
) -> Result<(), AllocError>
    ensures { OnOk result (out.new ≡ out.old
        ++ flow_facts (tables_of system.now) (held facts.now) (source_of source.now)
        (sink_of sink.now)) }
{
    match sink {
        FlowSink::To(target) => flow_to_target(alloc, system, facts, source, target, out),
        FlowSink::Result(f) => flow_to_result(alloc, system, facts, source, *f, out),
        FlowSink::Site(s) => flow_to_site(alloc, system, facts, source, *s, out),
        FlowSink::CellsAt(w) => flow_to_cells(alloc, system, facts, source, *w, out),
    }
}

/// What is asked so that items reach a sink.
pub fn asked(
    alloc: Global,
    system: &FlowSystem,
    facts: &Facts,
    k: Option<usize>,
    items: &ItemRuns,
    sink: &FlowSink,
    out: &mut FactRuns,
) -> Result<(), AllocError>
    ensures { OnOk result (out.new ≡ out.old
        ++ asked (tables_of system.now) (held facts.now) k items.now (sink_of sink.now)) }
{
    match sink {
        FlowSink::To(target) => items_to_target(alloc, system, k, items, target, out),
        FlowSink::Result(f) => facts_at(Place::Result(f.0), items, out),
        FlowSink::Site(s) => nodes_at_place(alloc, system, k, items, Place::Site(s.0), out),
        FlowSink::CellsAt(w) => cells_asked(alloc, system, facts, k, items, *w, out),
    }
}

// Arguments, at the parameters of a procedure.
fn params_facts(
    alloc: Global,
    system: &FlowSystem,
    f: u32,
    items: &ItemRuns,
    out: &mut FactRuns,
) -> Result<(), AllocError>
    ensures { OnOk result (out.new ≡ out.old
        ++ target_facts (tables_of system.now) (Some 1) items.now
        (params_of (tables_of system.now) f)) }
{
    match system.params.get(f as usize) {
        Some(xs) => vector_facts(alloc, system, items, xs.as_slice(), out),
        None => Ok(()),
    }
}

// The fields of a tag among some nodes, followed by words, at the parameters of a procedure.
fn call_params(
    alloc: Global,
    system: &FlowSystem,
    facts: &Facts,
    nodes: &ByTag,
    words: &[Word],
    t: u32,
    f: u32,
    out: &mut FactRuns,
) -> Result<(), AllocError>
    requires { IsByTag nodes.now }
    ensures { OnOk result (out.new ≡ out.old
        ++ target_facts (tables_of system.now) (Some 1)
        (call_arguments (tables_of system.now) (held facts.now) nodes.now.nodes t words.now)
        (params_of (tables_of system.now) f)) }
{
    let mut given = ItemRuns::new(alloc);
    arguments_by_tag(alloc, system, facts, t, words, nodes, &mut given)?;
    params_facts(alloc, system, f, &given, out)
}

// The evaluated results of a procedure.
fn evaluated_result(
    alloc: Global,
    system: &FlowSystem,
    facts: &Facts,
    f: u32,
    out: &mut ItemRuns,
) -> Result<(), AllocError>
    ensures { OnOk result (out.new ≡ out.old
        ++ items (tables_of system.now) (held facts.now) (evaluated (held' (Place.Result f)))) }
{
    let mut results = ItemRuns::new(alloc);
    facts.append(Place::Result(f), &mut results)?;
    evaluated(alloc, system, None, &results, out)
}

fn evaluated_results(
    alloc: Global,
    system: &FlowSystem,
    facts: &Facts,
    s: u32,
    f: u32,
    out: &mut FactRuns,
) -> Result<(), AllocError>
    ensures { OnOk result (out.new ≡ out.old
        ++ flow_facts (tables_of system.now) (held facts.now) (evaluated (held' (Place.Result f)))
        (into_site s)) }
{
    let mut given = ItemRuns::new(alloc);
    evaluated_result(alloc, system, facts, f, &mut given)?;
    nodes_at_place(alloc, system, Some(1), &given, Place::Site(s), out)
}

// The delayed calls of f in the cells of a site: their fields are its arguments, and its evaluated
// results are there.
fn delayed_facts(
    alloc: Global,
    system: &FlowSystem,
    facts: &Facts,
    nodes: &ByTag,
    s: u32,
    t: u32,
    f: u32,
    out: &mut FactRuns,
) -> Result<(), AllocError>
    requires by_tag { IsByTag nodes.now }
    requires nodes { nodes.now.nodes
        ≡ as_nodes (tables_of system.now) None (held facts.now (Place.Site s)) }
    ensures { OnOk result (out.new ≡ out.old
        ++ delayed_facts (tables_of system.now) (held facts.now) s t (Some f)) }
{
    call_params(alloc, system, facts, nodes, &[], t, f, out)?;
    evaluated_results(alloc, system, facts, s, f, out)?;
    Ok(())
}

fn forced(
    alloc: Global,
    system: &FlowSystem,
    facts: &Facts,
    nodes: &ByTag,
    s: u32,
    word: Element,
    out: &mut FactRuns,
) -> Result<(), AllocError>
    requires by_tag { IsByTag nodes.now }
    requires nodes { nodes.now.nodes
        ≡ as_nodes (tables_of system.now) None (held facts.now (Place.Site s)) }
    ensures { OnOk result (out.new ≡ out.old
        ++ forced (tables_of system.now) (held facts.now) s word) }
{
    match word {
        Element::Cell(_) => Ok(()),
        Element::Tag(t) => match delayed(system, t) {
            Some(f) => delayed_facts(alloc, system, facts, nodes, s, t, f, out),
            None => Ok(()),
        },
        Element::Number => Ok(()),
    }
}

fn forced_all(
    alloc: Global,
    system: &FlowSystem,
    facts: &Facts,
    nodes: &ByTag,
    s: u32,
    words: &[Element],
    out: &mut FactRuns,
) -> Result<(), AllocError>
    requires by_tag { IsByTag nodes.now }
    requires nodes { nodes.now.nodes
        ≡ as_nodes (tables_of system.now) None (held facts.now (Place.Site s)) }
    ensures { OnOk result (out.new ≡ out.old
        ++ flat_map (forced (tables_of system.now) (held facts.now) s) words.now) }
{
    for word in words {
        forced(alloc, system, facts, nodes, s, *word, out)?;
    }
    Ok(())
}

fn forces_facts(
    alloc: Global,
    system: &FlowSystem,
    facts: &Facts,
    s: u32,
    out: &mut FactRuns,
) -> Result<(), AllocError>
    ensures { OnOk result (out.new ≡ out.old
        ++ facts_demanded (tables_of system.now) (held facts.now) (forces s)) }
{
    let mut there = ItemRuns::new(alloc);
    facts.append(Place::Site(s), &mut there)?;
    let mut found = Seq::new(alloc);
    listed(alloc, Part::Tags, &there, &mut found)?;
    let mut given = ItemRuns::new(alloc);
    as_nodes(alloc, system, None, &there, &mut given)?;
    let nodes = ByTag::new(alloc, given)?;
    forced_all(alloc, system, facts, &nodes, s, found.as_slice(), out)
}

// The calls of f with one argument more: their results are at the sink.
fn call_facts(
    alloc: Global,
    system: &FlowSystem,
    facts: &Facts,
    nodes: &ByTag,
    a: Word,
    sink: &FlowSink,
    t: u32,
    f: u32,
    out: &mut FactRuns,
) -> Result<(), AllocError>
    requires { IsByTag nodes.now }
    ensures { OnOk result (out.new ≡ out.old
        ++ call_facts (tables_of system.now) (held facts.now) nodes.now.nodes a (sink_of sink.now) t
        (Some f)) }
{
    call_params(alloc, system, facts, nodes, &[a], t, f, out)?;
    flow_facts(alloc, system, facts, &Source::Result(ProcId(f)), sink, out)?;
    Ok(())
}

fn tag_applied(
    alloc: Global,
    system: &FlowSystem,
    facts: &Facts,
    nodes: &ByTag,
    a: Word,
    sink: &FlowSink,
    word: Element,
    out: &mut FactRuns,
) -> Result<(), AllocError>
    requires { IsByTag nodes.now }
    ensures { OnOk result (out.new ≡ out.old
        ++ tag_applied (tables_of system.now) (held facts.now) nodes.now.nodes a (sink_of sink.now)
        word) }
{
    match word {
        Element::Cell(_) => Ok(()),
        Element::Tag(t) => match called(system, t) {
            Some(f) => call_facts(alloc, system, facts, nodes, a, sink, t, f, out),
            None => Ok(()),
        },
        Element::Number => Ok(()),
    }
}

fn tags_applied(
    alloc: Global,
    system: &FlowSystem,
    facts: &Facts,
    nodes: &ByTag,
    a: Word,
    sink: &FlowSink,
    words: &[Element],
    out: &mut FactRuns,
) -> Result<(), AllocError>
    requires { IsByTag nodes.now }
    ensures { OnOk result (out.new ≡ out.old
        ++ flat_map (tag_applied (tables_of system.now) (held facts.now) nodes.now.nodes a
        (sink_of sink.now)) words.now) }
{
    for word in words {
        tag_applied(alloc, system, facts, nodes, a, sink, *word, out)?;
    }
    Ok(())
}

fn applies_facts(
    alloc: Global,
    system: &FlowSystem,
    facts: &Facts,
    v: &Val,
    a: Word,
    sink: &FlowSink,
    out: &mut FactRuns,
) -> Result<(), AllocError>
    ensures { OnOk result (out.new ≡ out.old
        ++ facts_demanded (tables_of system.now) (held facts.now) (applies v.now a (sink_of sink.now))) }
{
    let mut given = ItemRuns::new(alloc);
    value_nodes(alloc, system, facts, v, &mut given)?;
    let nodes = ByTag::new(alloc, given)?;
    let tags = nodes.tags.as_slice();
    tags_applied(alloc, system, facts, &nodes, a, sink, tags, out)
}

/// All that an inclusion asks for.
pub fn facts_demanded(
    alloc: Global,
    system: &FlowSystem,
    facts: &Facts,
    inclusion: &Inclusion,
    out: &mut FactRuns,
) -> Result<(), AllocError>
    ensures { OnOk result (out.new ≡ out.old
        ++ facts_demanded (tables_of system.now) (held facts.now) (inclusion_of inclusion.now)) }
{
    match inclusion {
        Inclusion::Flows(source, sink) => flow_facts(alloc, system, facts, source, sink, out),
        Inclusion::Forces(s) => forces_facts(alloc, system, facts, s.0, out),
        Inclusion::Applies(v, a, sink) => applies_facts(alloc, system, facts, v, *a, sink, out),
    }
}
