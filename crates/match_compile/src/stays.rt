//! The names that places keep.
#![tactic(auto, using(crate::proofs::TreesOf::trees))]

ghost use Rattle.std.specs.Prelude.{◌≡◌};
ghost use Rattle.match_compile.specs.Translated as translated;
ghost use Rattle.match_compile.specs.TreeOf.{tree_of, branches_of};

use crate::tree::{Branch, Tree};
use core_reader::Binder;

/// The name that an equation has bound to a place.
fn bound_at(place: u32, bound: &[(Binder, u32)]) -> Option<u32>
    ensures { result ≡ translated.bound_at place bound.now }
{
    for (binder, other) in bound {
        if *other == place {
            return Some(binder.name.0);
        }
    }
    None
}

/// The name that the first equation of a tree has bound to a place.
#[cycle(first)]
fn first_bound(place: u32, tree: &Tree) -> Option<u32>
    ensures { result ≡ translated.bound_at place (translated.first_bound (tree_of tree.now)) }
{
    match tree {
        Tree::Body(_, way) => bound_at(place, way.bound.as_slice()),
        Tree::Tests(_, branches) => first_bound_in(place, branches.as_slice()),
        Tree::Otherwise(_, branches, _) => first_bound_in(place, branches.as_slice()),
    }
}

/// The same, where the tree begins with these branches.
#[cycle(first)]
fn first_bound_in(place: u32, branches: &[Branch]) -> Option<u32>
    ensures { result
        ≡ translated.bound_at place (translated.first_bound_in (branches_of branches.now)) }
{
    match branches.get(0) {
        None => None,
        Some(branch) => first_bound(place, &branch.tree),
    }
}

/// Whether this is the name.
fn is_name(name: u32, other: Option<u32>) -> bool
    ensures { result ≡ translated.is_name name other }
{
    match other {
        None => false,
        Some(other) => other == name,
    }
}

/// Whether all equations of a tree have bound this name to a place.
#[cycle(all)]
fn all_bind(place: u32, name: u32, tree: &Tree) -> bool
    ensures { result ≡ translated.all_bind place name (tree_of tree.now) }
{
    match tree {
        Tree::Body(_, way) => is_name(name, bound_at(place, way.bound.as_slice())),
        Tree::Tests(_, branches) => branches_bind(place, name, branches.as_slice()),
        Tree::Otherwise(_, branches, other) => {
            branches_bind(place, name, branches.as_slice()) && all_bind(place, name, other)
        }
    }
}

/// The same of the branches of a test.
#[cycle(all)]
fn branches_bind(place: u32, name: u32, branches: &[Branch]) -> bool
    ensures { result ≡ translated.branches_bind place name (branches_of branches.now) }
{
    for branch in branches {
        if !all_bind(place, name, &branch.tree) {
            return false;
        }
    }
    true
}

/// The name that all equations of a tree have bound to a place, if there is one.
pub fn stays(place: u32, tree: &Tree) -> Option<u32>
    ensures { result ≡ translated.stays place (tree_of tree.now) }
{
    match first_bound(place, tree) {
        None => None,
        Some(name) => {
            if all_bind(place, name, tree) {
                Some(name)
            } else {
                None
            }
        }
    }
}
