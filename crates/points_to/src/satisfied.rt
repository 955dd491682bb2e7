// Whether inclusions are satisfied, found out without a list of what they ask for.

ghost use Rattle.std.specs.Prelude.{◌∷◌, [], ℕ, Option, IsTrue};
ghost use Rattle.flow_system.specs.Inclusions.{value, arguments, held as held', into_result, to};
ghost use Rattle.flow_system.specs.Shown.{tables_of, source_of, sink_of, inclusion_of};
ghost use Rattle.flow_system.specs.Tables.{Tables};
ghost use Rattle.flow_system.specs.declared.fact.Element.{Element as Element'};
ghost use Rattle.points_to.specs.Asked.{facts_at, vector_facts, target_facts, flow_facts, facts_demanded};
ghost use Rattle.points_to.specs.Held.{In, words_in_part, in_part, as_word, elements, numbered, items};
ghost use Rattle.points_to.specs.Known.{held};
ghost use Rattle.points_to.specs.Rounds.{AllFactsKnown};

use crate::bits::are_within;
use crate::facts::{Fact, Facts, Item};
use flow_system::fact::{Element, Part, Place};
use flow_system::inclusion::{FlowSink, FlowSystem, Inclusion, Source};
use grin_syntax::program::{Target, Val, VarId, Word};

// Whether one word is known in a part of a place.
fn is_held(facts: &Facts, word: Element, place: Place, part: Part) -> bool
    ensures { IsTrue result → AllFactsKnown (held facts.now) (facts_at place (in_part part (word ∷ []))) }
{
    facts.has(Fact {
        place,
        item: Item { part, word },
    })
}

// Whether the words in a part of one place are known in a part of another.
fn are_held(facts: &Facts, from: Place, given: Part, place: Place, part: Part) -> bool
    ensures { IsTrue result → AllFactsKnown (held facts.now)
        (facts_at place (in_part part (words_in_part given (held facts.now from)))) }
{
    are_within(facts.blocks(from, given), facts.blocks(place, part))
}

// Whether what a word stands for is known in a part of a place.
fn stands_at(system: &FlowSystem, facts: &Facts, w: Word, place: Place, part: Part) -> bool
    ensures { IsTrue result → AllFactsKnown (held facts.now)
        (facts_at place (in_part part (elements (tables_of system.now) (held facts.now) w))) }
{
    match w {
        Word::Lit(_) => is_held(facts, Element::Number, place, part),
        Word::Var(x) => are_held(facts, Place::Var(x.0), Part::Word(0), place, part),
        Word::Global(i) => match system.globals.get(i as usize) {
            Some(global) => is_held(facts, Element::Cell(global.site.0), place, part),
            None => true,
        },
        Word::TagWord(t) => is_held(facts, Element::Tag(t.0), place, part),
    }
}

// Whether what word j of some words stands for is known at a variable.
fn nth_stands_at(system: &FlowSystem, facts: &Facts, words: &[Word], j: u32, x: VarId) -> bool
    ensures { IsTrue result → AllFactsKnown (held facts.now)
        (facts_at (Place.Var x.0) (in_part (Part.Word 0) (as_word (tables_of system.now) j
        (numbered (tables_of system.now) (held facts.now) Part.Word 0 words.now)))) }
{
    match words.get(j as usize) {
        Some(w) => stands_at(system, facts, *w, Place::Var(x.0), Part::Word(0)),
        None => true,
    }
}

// Whether what words stand for is known, each at its variable.
fn stand_at_vector(system: &FlowSystem, facts: &Facts, words: &[Word], xs: &[VarId]) -> bool
    ensures { IsTrue result → AllFactsKnown (held facts.now) (vector_facts (tables_of system.now)
        (numbered (tables_of system.now) (held facts.now) Part.Word 0 words.now) 0 xs.now) }
{
    let mut j: u32 = 0;
    for x in xs {
        if !nth_stands_at(system, facts, words, j, *x) {
            return false;
        }
        if j == u32::MAX {
            return false;
        }
        j += 1;
    }
    true
}

// Whether what words stand for is known, each in its part of a result.
fn stand_at_result(system: &FlowSystem, facts: &Facts, words: &[Word], f: u32) -> bool
    ensures { IsTrue result → AllFactsKnown (held facts.now) (facts_at (Place.Result f)
        (numbered (tables_of system.now) (held facts.now) Part.Word 0 words.now)) }
{
    let mut j: u32 = 0;
    for w in words {
        if !stands_at(system, facts, *w, Place::Result(f), Part::Word(j)) {
            return false;
        }
        if j == u32::MAX {
            return false;
        }
        j += 1;
    }
    true
}

// Whether a word is a variable that is never a tag.
fn is_never(facts: &Facts, w: Word, t: u32) -> bool
    ensures { IsTrue result → (p : Tables)
        → In (Element'.Tag t) (elements p (held facts.now) w) → ⊥ }
{
    match w {
        Word::Lit(_) => false,
        Word::Var(x) => {
            if facts.has(Fact {
                place: Place::Var(x.0),
                item: Item {
                    part: Part::Word(0),
                    word: Element::Tag(t),
                },
            }) {
                return false;
            }
            true
        }
        Word::Global(_) => false,
        Word::TagWord(_) => false,
    }
}

// Whether what the words after the first stand for is known, each at its variable.
fn later_stand_at(system: &FlowSystem, facts: &Facts, words: &[Word], t: u32, xs: &[VarId]) -> bool
    ensures { IsTrue result → AllFactsKnown (held facts.now) (vector_facts (tables_of system.now)
        (items (tables_of system.now) (held facts.now)
        (arguments (value (Val.Vector words.now)) t [])) 0 xs.now) }
{
    let mut j: u32 = 0;
    for x in xs {
        if j == u32::MAX {
            return false;
        }
        if !nth_stands_at(system, facts, words, j + 1, *x) {
            return false;
        }
        j += 1;
    }
    true
}

// Whether the fields of a tag among the nodes that words may be are known, each at its variable.
fn fields_are_at(system: &FlowSystem, facts: &Facts, words: &[Word], t: u32, xs: &[VarId]) -> bool
    ensures { IsTrue result → AllFactsKnown (held facts.now) (vector_facts (tables_of system.now)
        (items (tables_of system.now) (held facts.now)
        (arguments (value (Val.Vector words.now)) t [])) 0 xs.now) }
{
    match words.get(0) {
        Some(w) => {
            if is_never(facts, *w, t) {
                return true;
            }
            later_stand_at(system, facts, words, t, xs)
        }
        None => false,
    }
}

// Whether the fields of a tag among the nodes that a value may be are known at a target.
fn fields_at_target(system: &FlowSystem, facts: &Facts, v: &Val, t: u32, target: &Target) -> bool
    ensures { IsTrue result → AllFactsKnown (held facts.now) (flow_facts (tables_of system.now)
        (held facts.now) (arguments (value v.now) t []) (to target.now)) }
{
    match v {
        Val::NodeVar(_) => false,
        Val::Node(_, _) => false,
        Val::Vector(words) => match target {
            Target::Nothing => false,
            Target::Node(_) => false,
            Target::One(_) => false,
            Target::Vector(xs) => {
                let ws = words.as_slice();
                let ys = xs.as_slice();
                fields_are_at(system, facts, ws, t, ys)
            }
        },
        Val::One(_) => false,
    }
}

// Whether what the first of some words stands for is known at a variable.
fn first_stands_at(system: &FlowSystem, facts: &Facts, words: &[Word], x: VarId) -> bool
    ensures { IsTrue result → AllFactsKnown (held facts.now)
        (facts_at (Place.Var x.0) (in_part (Part.Word 0) (words_in_part (Part.Word 0)
        (numbered (tables_of system.now) (held facts.now) Part.Word 0 words.now)))) }
{
    nth_stands_at(system, facts, words, 0, x)
}

// Whether what a word stands for is known at a variable.
fn word_stands_at(system: &FlowSystem, facts: &Facts, w: Word, x: VarId) -> bool
    ensures { IsTrue result → AllFactsKnown (held facts.now)
        (facts_at (Place.Var x.0) (in_part (Part.Word 0) (words_in_part (Part.Word 0)
        (in_part (Part.Word 0) (elements (tables_of system.now) (held facts.now) w))))) }
{
    stands_at(system, facts, w, Place::Var(x.0), Part::Word(0))
}

// Whether a value is known at a target.
fn is_at_target(system: &FlowSystem, facts: &Facts, v: &Val, target: &Target) -> bool
    ensures { IsTrue result → AllFactsKnown (held facts.now)
        (flow_facts (tables_of system.now) (held facts.now) (value v.now) (to target.now)) }
{
    match v {
        Val::NodeVar(_) => false,
        Val::Node(_, _) => false,
        Val::Vector(words) => match target {
            Target::Nothing => false,
            Target::Node(_) => false,
            Target::One(x) => first_stands_at(system, facts, words.as_slice(), *x),
            Target::Vector(xs) => {
                stand_at_vector(system, facts, words.as_slice(), xs.as_slice())
            }
        },
        Val::One(w) => match target {
            Target::Nothing => false,
            Target::Node(_) => false,
            Target::One(x) => word_stands_at(system, facts, *w, *x),
            Target::Vector(_) => false,
        },
    }
}

// Whether a value is known at the result of a procedure.
fn is_at_result(system: &FlowSystem, facts: &Facts, v: &Val, f: u32) -> bool
    ensures { IsTrue result → AllFactsKnown (held facts.now)
        (flow_facts (tables_of system.now) (held facts.now) (value v.now) (into_result f)) }
{
    match v {
        Val::NodeVar(_) => false,
        Val::Node(_, _) => false,
        Val::Vector(words) => stand_at_result(system, facts, words.as_slice(), f),
        Val::One(w) => stands_at(system, facts, *w, Place::Result(f), Part::Word(0)),
    }
}

// Whether one word is known at a target of one word.
fn word_is_at_target(facts: &Facts, word: Element, target: &Target) -> bool
    ensures { IsTrue result → (p : Tables) → (k : Option ℕ) → AllFactsKnown (held facts.now)
        (target_facts p k (in_part (Part.Word 0) (word ∷ [])) target.now) }
{
    match target {
        Target::Nothing => false,
        Target::Node(_) => false,
        Target::One(x) => is_held(facts, word, Place::Var(x.0), Part::Word(0)),
        Target::Vector(_) => false,
    }
}

// Whether a result is known at a target.
fn result_is_at_target(system: &FlowSystem, facts: &Facts, f: u32, target: &Target) -> bool
    ensures { IsTrue result → AllFactsKnown (held facts.now) (flow_facts (tables_of system.now)
        (held facts.now) (held' (Place.Result f)) (to target.now)) }
{
    match target {
        Target::Nothing => false,
        Target::Node(_) => false,
        Target::One(x) => are_held(
            facts,
            Place::Result(f),
            Part::Word(0),
            Place::Var(x.0),
            Part::Word(0),
        ),
        Target::Vector(_) => false,
    }
}

// Whether what a source gives is known at a target.
fn flows_to_target(system: &FlowSystem, facts: &Facts, source: &Source, target: &Target) -> bool
    ensures { IsTrue result → AllFactsKnown (held facts.now) (flow_facts (tables_of system.now)
        (held facts.now) (source_of source.now) (to target.now)) }
{
    match source {
        Source::Value(v) => is_at_target(system, facts, v, target),
        Source::ACell(s) => word_is_at_target(facts, Element::Cell(s.0), target),
        Source::ANumber => word_is_at_target(facts, Element::Number, target),
        Source::Result(f) => result_is_at_target(system, facts, f.0, target),
        Source::NodesAt(_) => false,
        Source::WordAt(_, _) => false,
        Source::EvaluatedAt(_) => false,
        Source::Extended(_, _) => false,
        Source::FieldsOf(v, t) => fields_at_target(system, facts, v, t.0, target),
    }
}

// Whether what a source gives is known at the result of a procedure.
fn flows_to_result(system: &FlowSystem, facts: &Facts, source: &Source, f: u32) -> bool
    ensures { IsTrue result → AllFactsKnown (held facts.now) (flow_facts (tables_of system.now)
        (held facts.now) (source_of source.now) (into_result f)) }
{
    match source {
        Source::Value(v) => is_at_result(system, facts, v, f),
        Source::ACell(_) => false,
        Source::ANumber => false,
        Source::Result(_) => false,
        Source::NodesAt(_) => false,
        Source::WordAt(_, _) => false,
        Source::EvaluatedAt(_) => false,
        Source::Extended(_, _) => false,
        Source::FieldsOf(_, _) => false,
    }
}

/// Whether all that an inclusion asks for is known already. Where it says no, it may be known; it
/// looks at words and results that flow to variables and to results.
pub fn is_satisfied(system: &FlowSystem, facts: &Facts, inclusion: &Inclusion) -> bool
    ensures { IsTrue result → AllFactsKnown (held facts.now)
        (facts_demanded (tables_of system.now) (held facts.now) (inclusion_of inclusion.now)) }
{
    match inclusion {
        Inclusion::Flows(source, sink) => match sink {
            FlowSink::To(target) => flows_to_target(system, facts, source, target),
            FlowSink::Result(f) => flows_to_result(system, facts, source, f.0),
            FlowSink::Site(_) => false,
            FlowSink::CellsAt(_) => false,
        },
        Inclusion::Forces(_) => false,
        Inclusion::Applies(_, _, _) => false,
    }
}
