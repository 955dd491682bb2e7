//! The least solution of a flow system: which tags, cells and numbers may stand where in a program.
#![tactic(auto)]

ghost use Rattle.std.specs.Prelude.{IfOk};
ghost use Rattle.flow_system.specs.Shown.{tables_of, inclusions_of};
ghost use Rattle.flow_system.specs.Solution.{IsLeast};
ghost use Rattle.points_to.specs.Found.{found};

mod ask;
mod bits;
mod by_tag;
mod copies;
mod facts;
mod fast;
mod fetch;
mod first;
mod flow;
mod give;
mod groups;
mod hints;
mod items;
mod kept;
mod met;
mod nodes;
mod noted;
mod number_set;
mod origin;
mod parts;
mod pending;
mod queue;
mod readers;
mod reads;
mod rounds;
mod row_table;
mod runs;
mod satisfied;
mod sources;
mod span;
mod state;
mod stored;
mod stored_tags;
mod tables;
mod tags;
mod targets;
mod truth;
mod value_word;
mod vectors;
mod wanted;
mod worklist;
mod writers;

pub use flow::Flow;
use flow_system::inclusion::FlowSystem;
use std::alloc::{AllocError, Global};

/// The least solution of a flow system: it is a solution, and is included in every other one. An
/// inclusion is satisfied again only where more is known at a place that it reads.
pub fn solve(alloc: Global, system: &FlowSystem) -> Result<Flow, AllocError>
    ensures { IfOk result (λ f.
        IsLeast (tables_of system.now) (inclusions_of system.now) (found f)) }
{
    if vectors::reads_by_words(system) {
        let kept = vectors::least_kept(alloc, system)?;
        return Flow::with_values(alloc, system, kept.facts, kept.stored);
    }
    let facts = worklist::least_facts(alloc, system)?;
    Flow::from_facts(alloc, facts)
}

/// The same solution, found in rounds over all inclusions until nothing is added: the plain way,
/// with which tests compare.
pub fn solve_by_rounds(alloc: Global, system: &FlowSystem) -> Result<Flow, AllocError>
    ensures { IfOk result (λ f.
        IsLeast (tables_of system.now) (inclusions_of system.now) (found f)) }
{
    let facts = rounds::least_facts(alloc, system)?;
    Flow::from_facts(alloc, facts)
}
