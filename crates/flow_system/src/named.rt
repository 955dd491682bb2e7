// The sets that an inclusion names.

ghost use Rattle.std.specs.Prelude.{◌≡◌, ◌++◌, map, IfOk, OnOk};
ghost use Rattle.flow_system.specs.declared.fact.Place.TheVariants.{Var};
ghost use Rattle.std.specs.List.{flat_map};
ghost use Rattle.flow_system.specs.Written.{source_of, sink_of, inclusion_of, shown};
ghost use Rattle.flow_system.specs.Readers.{named_word, named_value, named_source, named_condition, named_variables, named_sink, named_sources, named_targets, named};

use crate::fact::Place;
use crate::inclusion::{FlowSink, Inclusion, Source};
use grin_syntax::program::{Target, Val, VarId, Word};
use seq::Seq;
use std::alloc::{AllocError, Global};

fn put_word(word: Word, out: &mut Seq<Place>) -> Result<(), AllocError>
    ensures { OnOk result (out.new ≡ out.old ++ named_word word) }
{
    match word {
        Word::Var(x) => out.push(Place::Var(x.0)),
        Word::Lit(_) => put_nothing(out),
        Word::Global(_) => put_nothing(out),
        Word::TagWord(_) => put_nothing(out),
    }
}

fn put_nothing(out: &mut Seq<Place>) -> Result<(), AllocError>
    ensures { OnOk result (out.new ≡ out.old) }
{
    Ok(())
}

fn put_words(words: &[Word], out: &mut Seq<Place>) -> Result<(), AllocError>
    ensures { OnOk result (out.new ≡ out.old ++ flat_map named_word words.now) }
{
    for word in words {
        put_word(*word, out)?;
    }
    Ok(())
}

fn put_value(v: &Val, out: &mut Seq<Place>) -> Result<(), AllocError>
    ensures { OnOk result (out.new ≡ out.old ++ named_value v.now) }
{
    match v {
        Val::NodeVar(x) => out.push(Place::Var(x.0)),
        Val::Node(_, words) => put_words(words.as_slice(), out),
        Val::Vector(words) => put_words(words.as_slice(), out),
        Val::One(word) => put_word(*word, out),
    }
}

fn put_source(source: &Source, out: &mut Seq<Place>) -> Result<(), AllocError>
    ensures { OnOk result (out.new ≡ out.old ++ named_source (source_of source.now)) }
{
    match source {
        Source::Value(v) => put_value(v, out),
        Source::ACell(_) => put_nothing(out),
        Source::ANumber => put_nothing(out),
        Source::Result(f) => out.push(Place::Result(f.0)),
        Source::NodesAt(word) => put_word(*word, out),
        Source::WordAt(word, _) => put_word(*word, out),
        Source::EvaluatedAt(word) => put_word(*word, out),
        Source::Extended(v, word) => {
            put_value(v, out)?;
            put_word(*word, out)
        }
        Source::FieldsOf(v, _) => put_value(v, out),
    }
}

fn put_condition(sink: &FlowSink, out: &mut Seq<Place>) -> Result<(), AllocError>
    ensures { OnOk result (out.new ≡ out.old ++ named_condition (sink_of sink.now)) }
{
    match sink {
        FlowSink::To(_) => put_nothing(out),
        FlowSink::Result(_) => put_nothing(out),
        FlowSink::Site(_) => put_nothing(out),
        FlowSink::CellsAt(word) => put_word(*word, out),
    }
}

fn put_vars(vars: &[VarId], out: &mut Seq<Place>) -> Result<(), AllocError>
    ensures { OnOk result (out.new ≡ out.old ++ map (λ x. Var x.0) vars.now) }
{
    for var in vars {
        out.push(Place::Var(var.0))?;
    }
    Ok(())
}

fn put_variables(target: &Target, out: &mut Seq<Place>) -> Result<(), AllocError>
    ensures { OnOk result (out.new ≡ out.old ++ named_variables target.now) }
{
    match target {
        Target::Nothing => put_nothing(out),
        Target::Node(x) => out.push(Place::Var(x.0)),
        Target::One(x) => out.push(Place::Var(x.0)),
        Target::Vector(xs) => put_vars(xs.as_slice(), out),
    }
}

fn put_sink(sink: &FlowSink, out: &mut Seq<Place>) -> Result<(), AllocError>
    ensures { OnOk result (out.new ≡ out.old ++ named_sink (sink_of sink.now)) }
{
    match sink {
        FlowSink::To(target) => put_variables(target, out),
        FlowSink::Result(f) => out.push(Place::Result(f.0)),
        FlowSink::Site(s) => out.push(Place::Site(s.0)),
        FlowSink::CellsAt(_) => put_nothing(out),
    }
}

fn put_sources(inclusion: &Inclusion, out: &mut Seq<Place>) -> Result<(), AllocError>
    ensures { OnOk result (out.new ≡ out.old ++ named_sources (inclusion_of inclusion.now)) }
{
    match inclusion {
        Inclusion::Flows(source, sink) => {
            put_source(source, out)?;
            put_condition(sink, out)
        }
        Inclusion::Forces(s) => out.push(Place::Site(s.0)),
        Inclusion::Applies(v, word, sink) => {
            put_value(v, out)?;
            put_word(*word, out)?;
            put_condition(sink, out)
        }
    }
}

fn put_targets(inclusion: &Inclusion, out: &mut Seq<Place>) -> Result<(), AllocError>
    ensures { OnOk result (out.new ≡ out.old ++ named_targets (inclusion_of inclusion.now)) }
{
    match inclusion {
        Inclusion::Flows(_, sink) => put_sink(sink, out),
        Inclusion::Forces(s) => out.push(Place::Site(s.0)),
        Inclusion::Applies(_, _, sink) => put_sink(sink, out),
    }
}

fn put_named(inclusion: &Inclusion, out: &mut Seq<Place>) -> Result<(), AllocError>
    ensures { OnOk result (out.new ≡ out.old ++ named (inclusion_of inclusion.now)) }
{
    put_sources(inclusion, out)?;
    put_targets(inclusion, out)
}

/// The sets that an inclusion names as sources or conditions, from left to right.
pub(crate) fn named_sources(alloc: Global, inclusion: &Inclusion) -> Result<Seq<Place>, AllocError>
    ensures { IfOk result (λ places. places ≡ named_sources (inclusion_of inclusion.now)) }
{
    let mut places = Seq::new(alloc);
    put_sources(inclusion, &mut places)?;
    Ok(places)
}

/// All sets that these inclusions name, in order and with repeats.
pub(crate) fn all_named_sets(
    alloc: Global,
    inclusions: &[Inclusion],
) -> Result<Seq<Place>, AllocError>
    ensures { IfOk result (λ places. places ≡ flat_map named (shown inclusions.now)) }
{
    let mut places = Seq::new(alloc);
    for inclusion in inclusions {
        put_named(inclusion, &mut places)?;
    }
    Ok(places)
}
