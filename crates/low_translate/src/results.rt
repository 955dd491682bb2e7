// How many words each procedure gives: those that tail calls join give one number, the widest of
// theirs.
#![tactic(auto, using(grin_syntax::proofs::TreeOf::tree_of), unfolding(crate::specs::Lowered::ActEnds, crate::specs::Lowered::ActGives))]

ghost use Rattle.std.specs.Prelude.{◌≡◌, ℕ, List, [], ◌≤◌, ◌<◌, ◌+◌, map, length, max, slice_index, IfOk, OnOk};
ghost use Rattle.grin_syntax.specs.Tree.{act_of, arms_of, arm_of, code_of, procedure_of};
ghost use Rattle.grin_syntax.specs.Formed.{AllOf};
ghost use Rattle.grin_meaning.specs.Ready.{val_width};
ghost use Rattle.low_translate.specs.Groups.{ParentsAreSmaller, IsConstantOnGroups};
ghost use Rattle.low_translate.specs.Ends.{ResultsCollected};
ghost use Rattle.low_translate.specs.Lowered.{ActEnds, CodeEnds, ArmsEnd, ActGives, CodeGives, ArmsGive, EachProcedureReturns};

use crate::groups::Groups;
use grin_syntax::{Alt, Op, Proc, Val};
use std::alloc::{AllocError, Global};

/// Looks for the widest ends of blocks, where a node counts as so many words, and for the
/// procedures that they call.
#[derive(Drop)]
pub(crate) struct Ends {
    pub node: usize,
    pub calls: Vec<u32>,
}

// How many words a value has.
fn value_width(node: usize, v: &Val) -> usize
    ensures { result ≡ val_width node v.now }
{
    match v {
        Val::NodeVar(_) | Val::Node(_, _) => node,
        Val::Vector(words) => words.len(),
        Val::One(_) => 1,
    }
}

impl Ends {
    // The widest end of an operation at the end of a block.
    #[cycle(ends)]
    fn op(&mut self, op: &Op) -> Result<usize, AllocError>
        ensures { IfOk result (λ width.
            ResultsCollected self.old.node self.new.node self.old.calls.items self.new.calls.items width
            (λ n. ActEnds n self.old.node 13 (act_of op.now)) (λ rs r.
            ActGives self.old.node rs r (act_of op.now))) }
    {
        match op {
            Op::Unit(v) => Ok(value_width(self.node, v)),
            Op::Fetch(_) => Ok(self.node),
            Op::FetchWord(_, _) | Op::Prim(_, _, _) | Op::Read => Ok(1),
            Op::Call(f, _) => {
                self.calls.push(f.0)?;
                Ok(0)
            }
            Op::Case(_, alts) => self.alts(alts.as_slice()),
            Op::Nested(block) => self.op(&block.last),
            Op::Update(_, _) | Op::Eval(_) | Op::Apply(_, _) | Op::Write(_) | Op::Fail => Ok(0),
        }
    }

    // The widest end of alternatives.
    #[cycle(ends)]
    fn alts(&mut self, alts: &[Alt]) -> Result<usize, AllocError>
        ensures { IfOk result (λ width.
            ResultsCollected self.old.node self.new.node self.old.calls.items self.new.calls.items width
            (λ n. ArmsEnd n self.old.node 13 (arms_of (map arm_of alts.now))) (λ rs r.
            ArmsGive self.old.node rs r (arms_of (map arm_of alts.now)))) }
    {
        let mut widest = 0;
        for alt in alts {
            let width = self.op(&alt.body.last)?;
            widest = width.max(widest);
        }
        Ok(widest)
    }
}

// Joins procedure f with those that it calls at its ends.
fn join_all(groups: &mut Groups, f: u32, calls: &[u32])
    requires f_known { f < length groups.old.parents.items }
    requires known { AllOf (λ h. h < length groups.old.parents.items) calls.now }
    requires ordered { ParentsAreSmaller groups.old.parents.items }
    ensures many { length groups.new.parents.items ≡ length groups.old.parents.items }
    ensures ordered { ParentsAreSmaller groups.new.parents.items }
    ensures older { (c : ℕ → ℕ) → IsConstantOnGroups c groups.new.parents.items
        → IsConstantOnGroups c groups.old.parents.items }
    ensures joined { (c : ℕ → ℕ) → IsConstantOnGroups c groups.new.parents.items
        → AllOf (λ h. c h ≡ c f) calls.now }
{
    for call in calls {
        groups.join(*call, f);
    }
}

/// How many words each procedure gives, where a node counts as so many.
pub(crate) fn results(alloc: Global, node: usize, procs: &[Proc]) -> Result<Vec<u32>, AllocError>
    requires { AllOf (λ q. CodeEnds (length procs.now) node 13 q.body)
        (map procedure_of procs.now) }
    ensures gives { IfOk result (λ rs.
        EachProcedureReturns node rs.items rs.items (map procedure_of procs.now)) }
    ensures few { IfOk result (λ rs. AllOf (λ r. r ≤ 13) rs.items) }
{
    let Ok(count) = u32::try_from(procs.len()) else {
        return Err(AllocError);
    };
    let mut groups = Groups::new(alloc, count)?;
    let mut widths = Vec::new(alloc);
    for (f, proc) in procs.iter().enumerate() {
        let calls = Vec::new(alloc);
        let mut ends = Ends { node, calls };
        let width = ends.op(&proc.body.last)?;
        join_all(&mut groups, f as u32, ends.calls.as_slice());
        widths.push(width as u32)?;
    }
    groups.raise(&mut widths);
    groups.spread_over_groups(&mut widths);
    Ok(widths)
}
