// Which parameters are raised: each is looked at in its turn, from the left.
#![tactic(auto)]

ghost use Rattle.std.specs.Prelude.{◌≡◌, ◌≤◌, ◌+◌, ℕ, nat_le, length, map, IfOk, IfSome, OnOk, MatchOption, [], ◌∷◌};
ghost use Rattle.grin_syntax.specs.Tree.{procedure_of, program_of};
ghost use Rattle.points_to.specs.Found.{found};
ghost use Rattle.raise_theory.specs.Raisable.{Raisable};
ghost use Rattle.raise_theory.specs.Decided.{FitsParameterLimit, Decided, ProcedureDecided, IsDecided, new_params};
ghost use Rattle.arity_raise.specs.Deciding.{parameter_count_after, DecidedOf, AreConsecutive, NoneRaised};

use crate::cells::{Node, ProgramFacts};
use crate::updated::updated_sites;
use grin_syntax::fresh::Fresh;
use grin_syntax::{Grin, Proc, VarId};
use pass_ground::uses::block_uses_as_value;
use points_to::Flow;
use raise_theory::Raising;
use seq::Seq;
use std::alloc::{AllocError, Global};

/// What is decided of each parameter of a procedure: whether it stays, or what stands in its place.
pub(crate) type Decisions = Seq<Option<Raising>>;

/// What is decided of the parameters of each procedure, and a supply of variables past the new
/// parameters.
#[derive(Drop)]
pub(crate) struct Planned {
    pub procs: Seq<Decisions>,
    pub fresh: Fresh,
}

// Replacing a parameter leaves a procedure with at most so many.
const MOST_PARAMETERS: u64 = 16;

// Whether a procedure with so many parameters can have so many fields in place of one of them.
fn has_room(count: u64, fields: u32) -> bool
    ensures { result ≡ nat_le (count + fields) 17 }
{
    if count > MOST_PARAMETERS + 1 {
        return false;
    }
    count + u64::from(fields) <= MOST_PARAMETERS + 1
}

// So many variables in a row: the first of them.
fn in_a_row(fresh: &mut Fresh, fields: u32) -> Result<VarId, AllocError>
    ensures first { IfOk result (λ x. x.0 ≡ fresh.old.next) }
    ensures next { OnOk result (fresh.new.next ≡ fresh.old.next + fields) }
{
    let Ok(first) = u32::try_from(fresh.next) else {
        return Err(AllocError);
    };
    fresh.next += u64::from(fields);
    Ok(VarId(first))
}

// How many parameters there are at the next turn.
fn parameter_count_after(count: u64, decision: Option<Raising>) -> u64
    requires { IfSome decision (λ r. FitsParameterLimit count r.fields) }
    ensures { result ≡ parameter_count_after count decision }
{
    match decision {
        Some(raising) => {
            let with_fields = count + u64::from(raising.fields);
            if with_fields == 0 {
                return 0;
            }
            with_fields - 1
        }
        None => count,
    }
}

// Each of these parameters stays.
fn all_stay(alloc: Global, params: &[VarId]) -> Result<Decisions, AllocError>
    ensures { IfOk result (λ ds. NoneRaised params.now ds) }
{
    let mut made = Seq::new(alloc);
    for at in 0..params.len() {
        made.push(None)?;
    }
    Ok(made)
}

impl ProgramFacts<'_> {
    // The fields that can stand in place of a parameter.
    fn raisable(&self, proc: &Proc, x: VarId) -> Option<Node>
        ensures { MatchOption result ((t k : ℕ)
            → Raisable (found self.now.flow.now) (program_of self.now.g.now) (procedure_of proc.now)
            x.0 t k → ⊥) (λ n. Raisable (found self.now.flow.now) (program_of self.now.g.now)
            (procedure_of proc.now) x.0 n.tag.0 n.fields) }
    {
        if block_uses_as_value(x, &proc.body) {
            return None;
        }
        match self.node_of(x) {
            Some(node) => Some(node),
            None => None,
        }
    }

    // What is decided of a parameter, where there are so many at its turn.
    fn turn(
        &self,
        fresh: &mut Fresh,
        proc: &Proc,
        x: VarId,
        count: u64,
    ) -> Result<Option<Raising>, AllocError>
        ensures turn { IfOk result (λ d.
            DecidedOf (found self.now.flow.now) (program_of self.now.g.now) (procedure_of proc.now)
            x count d) }
        ensures row { IfOk result (λ d. AreConsecutive (new_params (d ∷ [])) fresh.old.next fresh.new.next) }
    {
        match self.raisable(proc, x) {
            Some(node) => {
                if !has_room(count, node.fields) {
                    return Ok(None);
                }
                let first = in_a_row(fresh, node.fields)?;
                Ok(Some(Raising {
                    tag: node.tag,
                    first,
                    fields: node.fields,
                }))
            }
            None => Ok(None),
        }
    }

    // What is decided of the parameters of a procedure, from the left.
    fn turns(&self, alloc: Global, fresh: &mut Fresh, proc: &Proc) -> Result<Decisions, AllocError>
        ensures decided { IfOk result (λ ds.
            Decided (found self.now.flow.now) (program_of self.now.g.now) (procedure_of proc.now)
            (length proc.now.params) proc.now.params ds) }
        ensures row { IfOk result (λ ds. AreConsecutive (new_params ds) fresh.old.next fresh.new.next) }
    {
        let mut count = proc.params.len() as u64;
        let mut made = Seq::new(alloc);
        for x in proc.params.as_slice() {
            let decision = self.turn(fresh, proc, *x, count)?;
            made.push(decision)?;
            count = parameter_count_after(count, decision);
        }
        Ok(made)
    }

    // What is decided of the parameters of procedure f; the start keeps its parameters.
    fn procedure(
        &self,
        alloc: Global,
        fresh: &mut Fresh,
        f: u32,
        proc: &Proc,
    ) -> Result<Decisions, AllocError>
        ensures decided { IfOk result (λ ds.
            ProcedureDecided (found self.now.flow.now) (program_of self.now.g.now) f
            (procedure_of proc.now) ds) }
        ensures row { IfOk result (λ ds. AreConsecutive (new_params ds) fresh.old.next fresh.new.next) }
    {
        if f == self.g.start.0 {
            let stay = all_stay(alloc, proc.params.as_slice())?;
            return Ok(stay);
        }
        let turns = self.turns(alloc, fresh, proc)?;
        Ok(turns)
    }
}

fn next_number(f: u32) -> Result<u32, AllocError>
    ensures { IfOk result (λ n. n ≡ f + 1) }
{
    f.checked_add(1).ok_or(AllocError)
}

/// What is decided of the parameters of each procedure. Running out of procedure numbers counts as
/// want of memory.
pub(crate) fn plan(alloc: Global, g: &Grin, flow: &Flow) -> Result<Planned, AllocError>
    ensures decided { IfOk result (λ p.
        IsDecided (found flow.now) (program_of g.now) p.procs p.fresh.next) }
    ensures as_many { IfOk result (λ p. length p.procs ≡ length g.now.procs) }
{
    let updated = updated_sites(alloc, g, flow)?;
    let known = ProgramFacts { g, flow, updated };
    let mut fresh = Fresh::past(g.procs.as_slice());
    let mut procs = Seq::new(alloc);
    let mut f: u32 = 0;
    for proc in g.procs.as_slice() {
        let decisions = known.procedure(alloc, &mut fresh, f, proc)?;
        procs.push(decisions)?;
        f = next_number(f)?;
    }
    Ok(Planned { procs, fresh })
}
