//! Moves that are meant at once, put in an order in which one machine can do them one after
//! another.
#![tactic(auto)]

ghost use Rattle.std.specs.Prelude.{◌≡◌, ◌≤◌, ◌*◌, IfOk, MatchOption, length, List, false};
ghost use Rattle.parallel_move.specs.Moves.{same, is_source, DistinctTargets, NoScratch, MovesInParallel, ends, UsesOnlyMoveSpots, IsReordered, IsMoveRemoved, BreaksCycle};

use std::alloc::{AllocError, Global};
use std::collections::BTreeSet;

/// Where a word stands: in a register by its number, in a slot of the frame by its number, or in
/// the scratch spot, which holds nothing of its own.
#[derive(Clone, Copy, Debug, PartialEq, Eq, PartialOrd, Ord)]
pub enum Spot {
    Reg(u8),
    Slot(u32),
    Scratch,
}

/// A word goes from one spot to another, and stays where it came from. The order of moves is by
/// where they come from, so that the moves from one spot stand together.
#[derive(Clone, Copy, Debug, PartialEq, Eq, PartialOrd, Ord)]
pub struct Move {
    pub from: Spot,
    pub to: Spot,
}

fn is_same(a: Spot, b: Spot) -> bool
    ensures { result ≡ same a b }
{
    match (a, b) {
        (Spot::Reg(r), Spot::Reg(q)) => r == q,
        (Spot::Slot(k), Spot::Slot(j)) => k == j,
        (Spot::Scratch, Spot::Scratch) => true,
        _ => false,
    }
}

/// The moves in their order, as the set of those still to be done. `AllocError` where memory is
/// wanting.
#[tactic(auto, using(crate::proofs::Ordered::none_yet, crate::proofs::Ordered::all_there))]
fn in_order(alloc: Global, moves: &[Move]) -> Result<BTreeSet<Move>, AllocError>
    requires distinct { DistinctTargets moves.now }
    requires no_scratch { NoScratch moves.now }
    ensures { IfOk result (λ pending. IsReordered moves.now pending.keys) }
{
    let mut pending: BTreeSet<Move> = BTreeSet::new(alloc);
    for i in 0..moves.len() {
        pending.insert(moves[i])?;
    }
    Ok(pending)
}

/// Takes out a move from the spot, if there is one.
#[tactic(auto, using(crate::proofs::Ordered::none_found))]
fn take_from(pending: &mut BTreeSet<Move>, spot: Spot) -> Option<Move>
    ensures { MatchOption result ((is_source spot pending.old.keys ≡ false)
        × (pending.new.keys ≡ pending.old.keys)) (λ m.
        IsMoveRemoved spot m pending.old.keys pending.new.keys) }
{
    let first = Move {
        from: spot,
        to: Spot::Reg(0),
    };
    let last = Move {
        from: spot,
        to: Spot::Scratch,
    };
    let Some(found) = pending.range(first..=last).next().copied() else {
        return None;
    };
    pending.remove(&found);
    Some(found)
}

/// Lets the first move of the path come from the scratch spot, where it comes from this one.
#[tactic(auto, using(crate::proofs::Paths::closes_true, crate::proofs::Paths::closes_false, crate::proofs::Paths::closes_empty))]
fn close(path: &mut Vec<Move>, spot: Spot) -> bool
    ensures { BreaksCycle spot result path.old.items path.new.items }
{
    if path.is_empty() {
        return false;
    }
    let first = path[0];
    if !is_same(spot, first.from) {
        return false;
    }
    path[0] = Move {
        to: first.to,
        from: Spot::Scratch,
    };
    true
}

/// Steps that, done one after another, do what the moves do at once, and leave anything in the
/// scratch spot. They read and write no more registers and slots than the moves do, and no other
/// ones. `AllocError` where memory is wanting.
///
/// Before a move is done, the moves that read its target are: they wait on one path, of which each
/// move reads the target of the one below. Where the lowest reads the target of the uppermost, the
/// path is a cycle, and that word waits in the scratch spot. The readers of a spot are found in an
/// ordered set, so the time is near-linear in the moves.
#[tactic(auto, using(crate::proofs::Paths::begins, crate::proofs::Paths::done))]
pub fn order(alloc: Global, moves: &[Move]) -> Result<Vec<Move>, AllocError>
    requires distinct { DistinctTargets moves.now }
    requires no_scratch { NoScratch moves.now }
    ensures same { IfOk result (λ steps. MovesInParallel steps.items moves.now) }
    ensures few { IfOk result (λ steps. ends steps.items ≤ 2 * length moves.now) }
    ensures among { IfOk result (λ steps. UsesOnlyMoveSpots steps.items moves.now) }
{
    let mut pending = in_order(alloc, moves)?;
    let mut path: Vec<Move> = Vec::new(alloc);
    let mut steps: Vec<Move> = Vec::new(alloc);
    loop {
        if let Some(top) = path.pop() {
            if let Some(next) = take_from(&mut pending, top.to) {
                path.push(top)?;
                path.push(next)?;
            } else {
                if close(&mut path, top.to) {
                    steps.push(Move {
                        to: Spot::Scratch,
                        from: top.to,
                    })?;
                }
                steps.push(top)?;
            }
        } else if let Some(m) = pending.pop_last() {
            if !is_same(m.to, m.from) {
                path.push(m)?;
            }
        } else {
            return Ok(steps);
        }
    }
}
