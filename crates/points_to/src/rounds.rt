// The least solution, in rounds over all inclusions.

ghost use Rattle.std.specs.Prelude.{◌≡◌, false, OnOk, IfOk};
ghost use Rattle.flow_system.specs.Shown.{tables_of, inclusions_of, inclusion_of};
ghost use Rattle.flow_system.specs.Solution.{IsLeast};
ghost use Rattle.points_to.specs.Asked.{facts_demanded};
ghost use Rattle.points_to.specs.Known.{held, GrowsByFacts, solution_of};
ghost use Rattle.points_to.specs.Rounds.{InEvery, AllSatisfied, CountsAddedFacts};

use crate::ask::facts_demanded;
use crate::facts::Facts;
use crate::runs::FactRuns;
use crate::satisfied::is_satisfied;
use crate::truth::either;
use flow_system::inclusion::{FlowSystem, Inclusion};
use std::alloc::{AllocError, Global};

/// Adds facts, and says whether some of them may be new.
pub fn add_all(alloc: Global, facts: &mut Facts, more: &FactRuns) -> Result<bool, AllocError>
    ensures grown { OnOk result (GrowsByFacts (held facts.old) (held facts.new) more.now) }
    ensures still { IfOk result (λ added. added ≡ false → facts.new ≡ facts.old) }
    ensures counted { IfOk result (λ added. CountsAddedFacts facts.old facts.new added) }
{
    let mut added = false;
    for run in more.as_slice() {
        added = either(added, facts.add(alloc, *run)?);
    }
    Ok(added)
}

/// Adds all that an inclusion asks for, and says whether some of it may be new.
pub fn satisfy(
    alloc: Global,
    system: &FlowSystem,
    facts: &mut Facts,
    inclusion: &Inclusion,
) -> Result<bool, AllocError>
    ensures grown { OnOk result
        (GrowsByFacts (held facts.old) (held facts.new)
        (facts_demanded (tables_of system.now) (held facts.old) (inclusion_of inclusion.now))) }
    ensures still { IfOk result (λ added. added ≡ false → facts.new ≡ facts.old) }
    ensures counted { IfOk result (λ added. CountsAddedFacts facts.old facts.new added) }
{
    if is_satisfied(system, facts, inclusion) {
        return Ok(false);
    }
    let mut asked = FactRuns::new(alloc);
    facts_demanded(alloc, system, facts, inclusion, &mut asked)?;
    add_all(alloc, facts, &asked)
}

// One round of all inclusions. Says whether facts may be new; where none is, nothing is wanting.
fn round(alloc: Global, system: &FlowSystem, facts: &mut Facts) -> Result<bool, AllocError>
    ensures sound { OnOk result
        (InEvery (tables_of system.now) (inclusions_of system.now) (held facts.old)
        → InEvery (tables_of system.now) (inclusions_of system.now) (held facts.new)) }
    ensures done { IfOk result (λ added. added ≡ false
        → AllSatisfied (tables_of system.now) (inclusions_of system.now) (held facts.new)) }
    ensures counted { IfOk result (λ added. CountsAddedFacts facts.old facts.new added) }
{
    let mut added = false;
    for inclusion in system.inclusions.as_slice() {
        added = either(added, satisfy(alloc, system, facts, inclusion)?);
    }
    Ok(added)
}

/// The facts of the least solution: rounds of all inclusions, until one adds nothing.
pub fn least_facts(alloc: Global, system: &FlowSystem) -> Result<Facts, AllocError>
    ensures { IfOk result (λ f.
        IsLeast (tables_of system.now) (inclusions_of system.now) (solution_of (held f))) }
{
    let mut facts = Facts::new(alloc);
    let mut more = true;
    'rounds: while more {
        // The facts can be counted, so the rounds end.
        let _count = facts.count();
        more = round(alloc, system, &mut facts)?;
    }
    Ok(facts)
}
