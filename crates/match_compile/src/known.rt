//! The integers that the first test of a tree accepts, kept beside it: whether an equation begins a
//! branch is then known without a look at each branch.
#![tactic(auto, using(crate::proofs::TreesOf::trees))]

ghost use Rattle.std.specs.Prelude.{◌≡◌, ℤ, true, cond, IsTrue, OnOk, IfOk, IfSome};
ghost use Rattle.std.specs.List.{list_any};
ghost use Rattle.std.specs.Ordering.{int_eq};
ghost use Rattle.match_compile.specs.TreeOf.{tree_of, branches_of};
ghost use Rattle.match_compile.specs.Known.{IsKnown, IsUnknown, KnowsMore, AreKnown, FirstIsKnown};

use crate::head::Head;
use crate::row::Test;
use crate::tree::{Branch, Tree};
use indexmap::IndexSet;
use std::alloc::{AllocError, Global};

/// Whether an integer is among these.
fn has(known: &IndexSet<i32>, number: i32) -> bool
    ensures { result ≡ list_any (int_eq number) known.now.keys }
{
    known.contains(&number)
}

/// Whether a head is an integer that is not among these.
fn is_unknown(known: &IndexSet<i32>, head: Head) -> bool
    ensures { IsTrue result → IsUnknown known.now.keys head }
{
    match head {
        Head::Integer(number) => !has(known, number),
        Head::Constructor(_) => false,
    }
}

/// Whether there is a test, for an integer that is not among these.
pub fn is_new(known: &IndexSet<i32>, test: Option<Test>) -> bool
    ensures { IsTrue result → IfSome test (λ t. IsUnknown known.now.keys t.head) }
{
    match test {
        None => false,
        Some(test) => is_unknown(known, test.head),
    }
}

/// Puts an integer among these.
fn enter(known: &mut IndexSet<i32>, number: i32) -> Result<(), AllocError>
    ensures { OnOk result ((k : ℤ) → list_any (int_eq k) known.new.keys
        ≡ cond (int_eq number k) true (list_any (int_eq k) known.old.keys)) }
{
    known.insert(number)?;
    Ok(())
}

/// Puts what a test accepts among these, if it is an integer.
pub fn note(known: &mut IndexSet<i32>, head: Head) -> Result<(), AllocError>
    ensures more { OnOk result (KnowsMore known.old.keys known.new.keys) }
    ensures head { OnOk result (IsKnown known.new.keys head) }
{
    match head {
        Head::Integer(number) => enter(known, number),
        Head::Constructor(_) => Ok(()),
    }
}

/// Puts what the branches accept among these, as far as it is integers.
fn note_all(known: &mut IndexSet<i32>, branches: &[Branch]) -> Result<(), AllocError>
    ensures { OnOk result (AreKnown known.new.keys (branches_of branches.now)) }
{
    for branch in branches {
        note(known, branch.head)?;
    }
    Ok(())
}

/// The integers that the first test of a tree accepts.
pub fn known_of(alloc: Global, tree: &Tree) -> Result<IndexSet<i32>, AllocError>
    ensures { IfOk result (λ known. FirstIsKnown known.keys (tree_of tree.now)) }
{
    let mut known = IndexSet::new(alloc);
    match tree {
        Tree::Body(_, _) => {}
        Tree::Tests(_, branches) => note_all(&mut known, branches.as_slice())?,
        Tree::Otherwise(_, branches, _) => note_all(&mut known, branches.as_slice())?,
    }
    Ok(known)
}
