//! The trees of tests that equations become.
#![tactic(auto, using(crate::proofs::TreesOf::trees))]

ghost use Rattle.std.specs.Prelude.{◌≡◌, ◌<◌, false, None, IfOk, MatchOption, IfSome, IsTrue, length};
ghost use Rattle.core_reader.specs.Tree.{expr};
ghost use Rattle.match_compile.specs.Trees as trees;
ghost use Rattle.match_compile.specs.RowOf.{pending, rows_of, first_of};
ghost use Rattle.match_compile.specs.Known.{IsNowhere};
ghost use Rattle.match_compile.specs.TreeOf.{tree_of, branches_of, planted_of, tree_after_insertion, branches_after_insertion, insertion_result, in_branches, with_new, as_default, IsNew, is_closed, after_branches, without_default, with_default, branch_for};

use crate::head::Head;
use crate::row::{Pending, Test, numbers_from};
use core_reader::Expr;
use seq::Seq;
use std::alloc::{AllocError, Global};

/// The most cases that stand one in the default of the other.
pub const MOST_CHAINED: u32 = 8;

/// A tree of tests.
#[derive(Drop)]
#[cycle(tree)]
pub enum Tree<'a> {
    /// The body of an equation.
    Body(Expr, Pending<'a>),
    /// A test at a place, which only the values of its branches pass.
    Tests(u32, Seq<Branch<'a>>),
    /// A test at a place, and the tree for all other values.
    Otherwise(u32, Seq<Branch<'a>>, Box<Tree<'a>>),
}

/// What follows where a test accepts a value.
#[derive(Drop)]
#[cycle(tree)]
pub struct Branch<'a> {
    /// What is accepted.
    pub head: Head,
    /// The places of the fields.
    pub places: Seq<u32>,
    /// The tree behind it.
    pub tree: Box<Tree<'a>>,
}

/// A tree and the first place that is free, after an equation came to it. A body is left where the
/// tree does not take the equation. Trees and bodies are in boxes here, so that a recursion over a
/// deep tree takes little of the stack.
#[derive(Drop)]
pub struct TreeAfterInsertion<'a> {
    pub tree: Box<Tree<'a>>,
    pub free: u32,
    pub left: Option<Box<Expr>>,
}

/// The same for the branches of a test.
#[derive(Drop)]
pub struct Put<'a> {
    pub branches: Seq<Branch<'a>>,
    pub free: u32,
    pub left: Option<Box<Expr>>,
}

/// Whether values may come that no equation in the tree accepts.
#[cycle(fails)]
pub fn can_fail(tree: &Tree) -> bool
    ensures { result ≡ trees.can_fail (tree_of tree.now) }
{
    match tree {
        Tree::Body(_, _) => false,
        Tree::Tests(_, _) => true,
        Tree::Otherwise(_, branches, other) => can_fail(other)
            || branches_fail(branches.as_slice()),
    }
}

#[cycle(fails)]
fn branches_fail(branches: &[Branch]) -> bool
    ensures { result ≡ trees.branches_fail (branches_of branches.now) }
{
    for branch in branches {
        if can_fail(&branch.tree) {
            return true;
        }
    }
    false
}

/// The number of the branch that accepts this, if there is one.
fn branch_for(branches: &[Branch], head: Head) -> Option<usize>
    ensures number { MatchOption result (branch_for head branches.now ≡ length branches.now) (λ k.
        branch_for head branches.now ≡ k) }
    ensures within { IfSome result (λ k. k < length branches.now) }
{
    'branches: for (k, branch) in branches.iter().enumerate() {
        if branch.head.is_same(head) {
            return Some(k);
        }
    }
    None
}

/// Whether the branches are of the kind of a test.
fn fits(branches: &[Branch], head: Head) -> bool
    ensures { result ≡ trees.fits head (branches_of branches.now) }
{
    match branches.get(0) {
        None => true,
        Some(branch) => branch.head.is_like(head),
    }
}

/// The test of an equation that begins a branch of its own here, if it does. Where no branch is for
/// it, none is looked at.
fn new_test(is_new: bool, place: u32, branches: &[Branch], way: &Pending) -> Option<Test>
    requires { IsTrue is_new → IfSome (first_of (pending way.now.jobs)) (λ t.
        trees.has_head t.head (branches_of branches.now) ≡ false) }
    ensures { IfSome result (IsNew place branches.now (pending way.now.jobs)) }
{
    let Some(test) = way.first() else {
        return None;
    };
    if test.place != place {
        return None;
    }
    if !fits(branches, test.head) {
        return None;
    }
    if is_new {
        return Some(test);
    }
    match branch_for(branches, test.head) {
        None => Some(test),
        Some(_) => None,
    }
}

/// Whether a test with these branches can have no tree for other values: one of them can fail, or
/// there is no room.
fn is_closed(room: u32, branches: &[Branch]) -> bool
    ensures { result ≡ is_closed room (branches_of branches.now) }
{
    if room == 0 {
        return true;
    }
    branches_fail(branches)
}

/// Behind a test one branch alone.
#[inline(never)]
fn one_branch<'a>(
    alloc: Global,
    test: Test,
    places: Seq<u32>,
    tree: Tree<'a>,
) -> Result<Seq<Branch<'a>>, AllocError>
    ensures { IfOk result (λ made. branches_of made
        ≡ trees.AndBranch test.head places (tree_of tree.entry) trees.NoBranch) }
{
    let mut branches = Seq::new(alloc);
    let boxed = Box::new(alloc, tree)?;
    branches.push(Branch {
        head: test.head,
        places,
        tree: boxed,
    })?;
    Ok(branches)
}

/// The tree of one equation, and the first place that is free then. Past the depth memory is
/// wanting.
pub fn alone<'a>(
    alloc: Global,
    depth: u32,
    free: u32,
    body: Expr,
    way: Pending<'a>,
) -> Result<(Tree<'a>, u32), AllocError>
    ensures { IfOk result (λ made. planted_of made
        ≡ trees.alone_from free (rows_of way.entry (expr body))) }
{
    let Some(test) = way.first() else {
        return Ok((Tree::Body(body, way), free));
    };
    let depth = depth.checked_sub(1).ok_or(AllocError)?;
    let (places, next) = numbers_from(alloc, free, test.fields)?;
    let opened = way.opened(places.as_slice())?;
    let (tree, free) = alone(alloc, depth, next, body, opened)?;
    let branches = one_branch(alloc, test, places, tree)?;
    Ok((Tree::Tests(test.place, branches), free))
}

/// An equation goes into a tree, or its body is left. It is new where no branch of the tree's first
/// test is for it. Past the depth memory is wanting.
#[cycle(insert)]
pub fn insert<'a>(
    alloc: Global,
    depth: u32,
    room: u32,
    is_new: bool,
    tree: Box<Tree<'a>>,
    free: u32,
    body: Box<Expr>,
    way: Pending<'a>,
) -> Result<TreeAfterInsertion<'a>, AllocError>
    requires { IsTrue is_new → IfSome (first_of (pending way.jobs)) (λ t.
        IsNowhere t.head (tree_of tree.value)) }
    ensures { IfOk result (λ grown. tree_after_insertion grown
        ≡ insertion_result (tree_of tree.entry.value, free) (expr body.value)
        (trees.insert room (tree_of tree.entry.value) free (rows_of way.entry (expr body.value)))) }
{
    match Box::into_inner(tree) {
        Tree::Body(old, taken) => not_taken(alloc, old, taken, free, body),
        Tree::Tests(place, branches) => {
            let depth = depth.checked_sub(1).ok_or(AllocError)?;
            let room = room.saturating_sub(1);
            insert_test(alloc, depth, room, is_new, place, branches, free, body, way)
        }
        Tree::Otherwise(place, branches, other) => {
            let depth = depth.checked_sub(1).ok_or(AllocError)?;
            let room = room.saturating_sub(1);
            let grown = insert(alloc, depth, room, false, other, free, body, way)?;
            in_default(alloc, place, branches, grown)
        }
    }
}

/// The tree that a body is takes no equation.
#[inline(never)]
fn not_taken<'a>(
    alloc: Global,
    old: Expr,
    taken: Pending<'a>,
    free: u32,
    body: Box<Expr>,
) -> Result<TreeAfterInsertion<'a>, AllocError>
    ensures { IfOk result (λ grown. tree_after_insertion grown
        ≡ insertion_result (trees.Body (rows_of taken.entry (expr old)), free) (expr body.value) None) }
{
    Ok(TreeAfterInsertion {
        tree: Box::new(alloc, Tree::Body(old, taken))?,
        free,
        left: Some(body),
    })
}

/// A test with the tree for all other values to which an equation came.
#[inline(never)]
fn in_default<'a>(
    alloc: Global,
    place: u32,
    branches: Seq<Branch<'a>>,
    grown: TreeAfterInsertion<'a>,
) -> Result<TreeAfterInsertion<'a>, AllocError>
    ensures { IfOk result (λ whole. tree_after_insertion whole
        ≡ as_default place (branches_of branches.entry) (tree_after_insertion grown.entry)) }
{
    Ok(TreeAfterInsertion {
        tree: Box::new(alloc, Tree::Otherwise(place, branches, grown.tree))?,
        free: grown.free,
        left: grown.left,
    })
}

/// An equation goes into a test that has no tree for other values, or its body is left. Where it
/// begins a branch, nobody asks whether the others can fail. Its way is kept only where it can
/// become the tree for other values, so that one way is kept at most.
#[cycle(insert)]
#[inline(never)]
fn insert_test<'a>(
    alloc: Global,
    depth: u32,
    room: u32,
    is_new: bool,
    place: u32,
    branches: Seq<Branch<'a>>,
    free: u32,
    body: Box<Expr>,
    way: Pending<'a>,
) -> Result<TreeAfterInsertion<'a>, AllocError>
    requires { IsTrue is_new → IfSome (first_of (pending way.jobs)) (λ t.
        trees.has_head t.head (branches_of branches) ≡ false) }
    ensures { IfOk result (λ grown. tree_after_insertion grown ≡ after_branches room place
        (insertion_result (branches_of branches.entry, free) (expr body.value)
        (in_branches place (branches_of branches.entry) free (rows_of way.entry (expr body.value))))
        (rows_of way.entry)) }
{
    if let Some(test) = new_test(is_new, place, branches.as_slice(), &way) {
        let put = new_branch(alloc, depth, test, branches, free, body, way)?;
        return without_default(alloc, place, put);
    }
    if is_closed(room, branches.as_slice()) {
        let put = insert_branch(alloc, depth, place, branches, free, body, way)?;
        return without_default(alloc, place, put);
    }
    let kept = way.copied(alloc)?;
    let put = insert_branch(alloc, depth, place, branches, free, body, way)?;
    with_default(alloc, depth, place, put, kept)
}

/// An equation goes into the branches of a test, or its body is left.
#[cycle(insert)]
#[inline(never)]
fn insert_branch<'a>(
    alloc: Global,
    depth: u32,
    place: u32,
    branches: Seq<Branch<'a>>,
    free: u32,
    body: Box<Expr>,
    way: Pending<'a>,
) -> Result<Put<'a>, AllocError>
    ensures { IfOk result (λ put. branches_after_insertion put
        ≡ insertion_result (branches_of branches.entry, free) (expr body.value)
        (in_branches place (branches_of branches.entry) free
        (rows_of way.entry (expr body.value)))) }
{
    let Some(test) = way.first() else {
        return Ok(not_put(branches, free, body));
    };
    if test.place != place {
        return Ok(not_put(branches, free, body));
    }
    if !fits(branches.as_slice(), test.head) {
        return Ok(not_put(branches, free, body));
    }
    match branch_for(branches.as_slice(), test.head) {
        None => new_branch(alloc, depth, test, branches, free, body, way),
        Some(k) => {
            let mut branches = branches.into_vec();
            let branch = branches.remove(k);
            let opened = way.opened(branch.places.as_slice())?;
            let grown = insert(
                alloc,
                depth,
                MOST_CHAINED,
                false,
                branch.tree,
                free,
                body,
                opened,
            )?;
            branches.insert(
                k,
                Branch {
                    head: branch.head,
                    places: branch.places,
                    tree: grown.tree,
                },
            )?;
            Ok(Put {
                branches: Seq::from_vec(branches),
                free: grown.free,
                left: grown.left,
            })
        }
    }
}

/// The branches as they were, with a body that is left.
fn not_put<'a>(branches: Seq<Branch<'a>>, free: u32, body: Box<Expr>) -> Put<'a>
    ensures { branches_after_insertion result
        ≡ insertion_result (branches_of branches.entry, free) (expr body.value) None }
{
    Put {
        branches,
        free,
        left: Some(body),
    }
}

/// A branch of its own behind those that are there.
#[inline(never)]
fn new_branch<'a>(
    alloc: Global,
    depth: u32,
    test: Test,
    branches: Seq<Branch<'a>>,
    free: u32,
    body: Box<Expr>,
    way: Pending<'a>,
) -> Result<Put<'a>, AllocError>
    ensures { IfOk result (λ put. branches_after_insertion put
        ≡ with_new test (branches_of branches.entry) free (rows_of way.entry (expr body.value))) }
{
    let mut branches = branches;
    let (places, next) = numbers_from(alloc, free, test.fields)?;
    let opened = way.opened(places.as_slice())?;
    let (tree, free) = alone(alloc, depth, next, Box::into_inner(body), opened)?;
    let boxed = Box::new(alloc, tree)?;
    branches.push(Branch {
        head: test.head,
        places,
        tree: boxed,
    })?;
    Ok(Put {
        branches,
        free,
        left: None,
    })
}

/// A test without a tree for other values.
#[inline(never)]
fn without_default<'a>(
    alloc: Global,
    place: u32,
    put: Put<'a>,
) -> Result<TreeAfterInsertion<'a>, AllocError>
    ensures { IfOk result (λ grown. tree_after_insertion grown
        ≡ without_default place (branches_after_insertion put.entry)) }
{
    Ok(TreeAfterInsertion {
        tree: Box::new(alloc, Tree::Tests(place, put.branches))?,
        free: put.free,
        left: put.left,
    })
}

/// An equation that no branch takes becomes the tree for all other values.
#[inline(never)]
fn with_default<'a>(
    alloc: Global,
    depth: u32,
    place: u32,
    put: Put<'a>,
    way: Pending<'a>,
) -> Result<TreeAfterInsertion<'a>, AllocError>
    ensures { IfOk result (λ grown. tree_after_insertion grown
        ≡ with_default place (branches_after_insertion put.entry) (rows_of way.entry)) }
{
    let Put {
        branches,
        free,
        left,
    } = put;
    let Some(body) = left else {
        return Ok(TreeAfterInsertion {
            tree: Box::new(alloc, Tree::Tests(place, branches))?,
            free,
            left: None,
        });
    };
    let (other, free) = alone(alloc, depth, free, Box::into_inner(body), way)?;
    let boxed = Box::new(alloc, other)?;
    Ok(TreeAfterInsertion {
        tree: Box::new(alloc, Tree::Otherwise(place, branches, boxed))?,
        free,
        left: None,
    })
}
