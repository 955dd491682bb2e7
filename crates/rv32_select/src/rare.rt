// Blocks that likely run rarely, and first alternatives that stand behind the others for them.
#![tactic(auto, using(low_code::proofs::TreeOf::tree_of))]

ghost use Rattle.std.specs.Prelude.{◌≡◌, true, false, if◌then◌else◌};
ghost use Rattle.low_code.specs.Tree.{Code as Block, before_of, end_of, code_of};
ghost use Rattle.rv32_select.specs.IsSelected.{is_rare as is_rare_code, waits as waits_there, has_one};

use crate::source::Continuation;
use low_code::{LowArm, LowBlock, LowEnd, LowStmt};

/// Whether a statement calls a procedure.
fn calls(stmt: &LowStmt) -> bool
    ensures { (c : Block) → is_rare_code (before_of stmt.now c)
        ≡ (if result then true else is_rare_code c) }
{
    match stmt {
        LowStmt::Set(_, _) => false,
        LowStmt::Prim(_, _, _, _) => false,
        LowStmt::Load(_, _, _) => false,
        LowStmt::Save(_, _, _) => false,
        LowStmt::Take(_) => false,
        LowStmt::Put(_) => false,
        LowStmt::Get(_) => false,
        LowStmt::Call(_, _, _, _) => true,
        LowStmt::Join(_, _) => false,
    }
}

/// Whether an end has no alternative.
fn fails(end: &LowEnd) -> bool
    ensures { result ≡ is_rare_code (end_of end.now) }
{
    match end {
        LowEnd::Give(_) => false,
        LowEnd::Tail(_, _, _) => false,
        LowEnd::Choose(_, _) => false,
        LowEnd::Fail => true,
    }
}

/// Whether a block likely runs rarely: it calls a procedure, or has no alternative.
fn is_rare(block: &LowBlock) -> bool
    ensures { result ≡ is_rare_code (code_of block.now) }
{
    for stmt in block.stmts.as_slice() {
        if calls(stmt) {
            return true;
        }
    }
    fails(&block.last)
}

/// Whether the first alternative is to stand behind the others, of which this is the last.
fn waits(way: Continuation, first: &LowBlock, last: &LowBlock) -> bool
    ensures { result ≡ waits_there way (code_of first.now) (code_of last.now) }
{
    match way {
        Continuation::Returns => false,
        Continuation::Follows(_) => { if is_rare(first) { false } else { is_rare(last) } }
        Continuation::Jumps(_) => { if is_rare(first) { false } else { is_rare(last) } }
    }
}

/// Whether it has one test, too.
pub(crate) fn first_arm_goes_last(way: Continuation, first: &LowArm, last: &LowBlock) -> bool
    ensures { result ≡ (if has_one first.now.tests
        then waits_there way (code_of first.now.block) (code_of last.now) else false) }
{
    if first.tests.len() == 1 {
        return waits(way, &first.block, last);
    }
    false
}

/// Whether the first of some alternatives is likely the common one: the last calls a procedure, and
/// the first doesn't.
pub(crate) fn is_common(first: &LowBlock, last: &LowBlock) -> bool {
    if is_rare(first) {
        return false;
    }
    if fails(&last.last) {
        return false;
    }
    is_rare(last)
}
