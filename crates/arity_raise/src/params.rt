// Parameters, and those that stand in their place.
#![tactic(auto)]

ghost use Rattle.std.specs.Prelude.{◌≡◌, ◌++◌, nat_eq, IfOk, OnOk};
ghost use Rattle.grin_syntax.specs.Tree.{act_of};
ghost use Rattle.raise_theory.specs.Raising.{raised_param, raised_params, decided, word_at, raised_fetch_of};
ghost use Rattle.arity_raise.specs.Decision.{decision_at};

use grin_syntax::fresh::Fresh;
use grin_syntax::{Op, Val, VarId, Word};
use raise_theory::Raising;
use seq::Seq;
use std::alloc::{AllocError, Global};

/// What is decided of the parameter at a place; past the end it stays.
pub(crate) fn decision_at(decisions: &[Option<Raising>], at: usize) -> Option<Raising>
    ensures { result ≡ decision_at decisions.now at }
{
    match decisions.get(at) {
        Some(decision) => *decision,
        None => None,
    }
}

// The variables in place of a parameter.
fn put_param(
    alloc: Global,
    decision: Option<Raising>,
    x: VarId,
    made: &mut Seq<VarId>,
) -> Result<(), AllocError>
    ensures { OnOk result (made.new ≡ made.old ++ raised_param decision x) }
{
    match decision {
        Some(raising) => {
            let mut row = Fresh {
                next: u64::from(raising.first.0),
            };
            made.append(row.variables(alloc, raising.fields)?)
        }
        None => made.push(x),
    }
}

/// The parameters with those in place that are raised.
pub(crate) fn raised_params(
    alloc: Global,
    decisions: &[Option<Raising>],
    params: &[VarId],
) -> Result<Seq<VarId>, AllocError>
    ensures { IfOk result (λ xs. xs ≡ raised_params decisions.now params.now) }
{
    let mut made = Seq::new(alloc);
    for at in 0..params.len() {
        put_param(alloc, decision_at(decisions, at), params[at], &mut made)?;
    }
    Ok(made)
}

fn is_same(x: VarId, y: VarId) -> bool
    ensures { result ≡ nat_eq x.0 y.0 }
{
    x.0 == y.0
}

/// What is decided of a variable, where these are the parameters.
pub(crate) fn decided(decisions: &[Option<Raising>], params: &[VarId], x: VarId) -> Option<Raising>
    ensures { result ≡ decided decisions.now params.now x.0 }
{
    for at in 0..params.len() {
        if is_same(params[at], x) {
            return decision_at(decisions, at);
        }
    }
    None
}

// Word i of the node that a raised parameter stood for: its tag, its fields, and zeros after them.
fn word_at(raising: Raising, i: u32) -> Result<Word, AllocError>
    ensures { IfOk result (λ w. w ≡ word_at raising i) }
{
    if i == 0 {
        return Ok(Word::TagWord(raising.tag));
    }
    if i - 1 < raising.fields {
        let x = raising.first.0.checked_add(i - 1).ok_or(AllocError)?;
        return Ok(Word::Var(VarId(x)));
    }
    Ok(Word::Lit(0))
}

/// The fetch of word i of a cell, where this is decided of the variable that stands for it.
#[tactic(auto, using(grin_syntax::proofs::TreeOf::tree_of))]
pub(crate) fn fetched(decision: Option<Raising>, cell: Word, i: u32) -> Result<Op, AllocError>
    ensures { IfOk result (λ o. act_of o ≡ raised_fetch_of decision cell i) }
{
    match decision {
        Some(raising) => Ok(Op::Unit(Val::One(word_at(raising, i)?))),
        None => Ok(Op::FetchWord(cell, i)),
    }
}
