//! A walk over classes, which finds whether one stands within itself.

ghost use Rattle.std.specs.Prelude.{◌≡◌, ◌<◌, ◌+◌, ◌^◌, ℕ, List, length, true, false, [], ◌∷◌, ◌++◌, slice_set, MatchOption, OnOk, IfOk};
ghost use Rattle.unification.specs.Classes.{IsPartition};
ghost use Rattle.unification.specs.Shown.{class_of, ClassStandsForTree};
ghost use Rattle.unification.specs.Terms.{AreEarlier};
ghost use Rattle.unification.specs.Trees.{Tree};
ghost use Rattle.unification.specs.Walks.{IsDepthFirstWalk, IsAtArgument, IsNextArgument, NothingVisited, WalkSteps, EntersClass, VisitsClassWholly, HasNoFiniteSolution};

use crate::classes::Classes;
use crate::term::{Term, arguments_at};
use std::alloc::{AllocError, Global};

/// How far a class has been walked: not at all, with so many of its arguments done, or whole.
#[derive(Clone, Copy, Debug)]
pub enum VisitMark {
    Unseen,
    Entered(usize),
    Done,
}

/// The marks of classes, and the classes that are entered, each within the one before it.
#[derive(Drop)]
struct Walk {
    marks: Vec<VisitMark>,
    path: Vec<usize>,
}

impl Walk {
    /// No class is seen.
    fn new(alloc: Global, count: usize) -> Result<Walk, AllocError>
        ensures { IfOk result (NothingVisited count) }
    {
        let mut marks = Vec::new(alloc);
        for i in 0..count {
            marks.push(VisitMark::Unseen)?;
        }
        Ok(Walk {
            marks,
            path: Vec::new(alloc),
        })
    }

    /// Enters a class.
    fn enter(&mut self, class: usize) -> Result<(), AllocError>
        requires { class < length self.old.marks.items }
        ensures marks { self.new.marks.items
            ≡ slice_set self.old.marks.items class (VisitMark.Entered 0) }
        ensures path { OnOk result (self.new.path.items ≡ self.old.path.items ++ class ∷ []) }
    {
        self.marks[class] = VisitMark::Entered(0);
        self.path.push(class)?;
        Ok(())
    }

    /// The class that was entered last is done.
    fn leave(&mut self, class: usize)
        requires within { class < length self.old.marks.items }
        requires last { (front : List ℕ) × (self.old.path.items ≡ front ++ class ∷ []) }
        ensures marks { self.new.marks.items ≡ slice_set self.old.marks.items class VisitMark.Done }
        ensures path { self.old.path.items ≡ self.new.path.items ++ class ∷ [] }
    {
        self.marks[class] = VisitMark::Done;
        self.path.pop();
    }

    /// The class that was entered last.
    fn last(&self) -> Option<usize>
        ensures { MatchOption result (self.now.path.items ≡ [])
            (λ top. (front : List ℕ) × (self.now.path.items ≡ front ++ top ∷ [])) }
    {
        let count = self.path.len();
        if count == 0 {
            return None;
        }
        Some(self.path[count - 1])
    }

    /// Goes on from the class of the next argument of the class that was entered last. Says whether
    /// it stands outside of the path.
    fn pass(
        &mut self,
        terms: &[Term],
        classes: &Classes,
        top: usize,
        first: usize,
        next: usize,
    ) -> Result<bool, AllocError>
        requires earlier { AreEarlier terms.now }
        requires partition { IsPartition (length terms.now) classes.now }
        requires at { IsAtArgument terms.now classes.now self.old top first }
        requires next { IsNextArgument terms.now classes.now top first next }
        requires fits { first + 1 < 2 ^ 64 }
        ensures steps { IfOk result (λ outside. outside ≡ true
            → WalkSteps terms.now classes.now self.old self.new) }
        ensures none { IfOk result (λ outside. outside ≡ false
            → HasNoFiniteSolution terms.now classes.now) }
    {
        match self.marks[next] {
            VisitMark::Unseen => {
                self.enter(next)?;
                Ok(true)
            }
            VisitMark::Entered(_) => Ok(false),
            VisitMark::Done => {
                self.marks[top] = VisitMark::Entered(first + 1);
                Ok(true)
            }
        }
    }

    /// Looks at the next argument of the class that was entered last, or leaves it.
    fn look(
        &mut self,
        terms: &[Term],
        classes: &Classes,
        top: usize,
        first: usize,
    ) -> Result<bool, AllocError>
        requires earlier { AreEarlier terms.now }
        requires partition { IsPartition (length terms.now) classes.now }
        requires at { IsAtArgument terms.now classes.now self.old top first }
        ensures steps { IfOk result (λ outside. outside ≡ true
            → WalkSteps terms.now classes.now self.old self.new) }
        ensures none { IfOk result (λ outside. outside ≡ false
            → HasNoFiniteSolution terms.now classes.now) }
    {
        let arguments = arguments_at(terms, classes.kept_of(top));
        if first >= arguments.len() {
            self.leave(top);
            return Ok(true);
        }
        let next = classes.class_of(arguments[first]);
        self.pass(terms, classes, top, first, next)
    }

    /// Goes on from the class that was entered last. Says whether no class stands within itself as
    /// yet.
    fn step(&mut self, terms: &[Term], classes: &Classes, top: usize) -> Result<bool, AllocError>
        requires earlier { AreEarlier terms.now }
        requires partition { IsPartition (length terms.now) classes.now }
        requires walk { IsDepthFirstWalk terms.now classes.now self.old }
        requires last { (front : List ℕ) × (self.old.path.items ≡ front ++ top ∷ []) }
        ensures steps { IfOk result (λ outside. outside ≡ true
            → WalkSteps terms.now classes.now self.old self.new) }
        ensures none { IfOk result (λ outside. outside ≡ false
            → HasNoFiniteSolution terms.now classes.now) }
    {
        match self.marks[top] {
            VisitMark::Entered(first) => self.look(terms, classes, top, first),
            VisitMark::Unseen => Ok(false),
            VisitMark::Done => Ok(false),
        }
    }

    /// Enters a class that is not seen.
    fn begin(&mut self, class: usize) -> Result<(), AllocError>
        requires { class < length self.old.marks.items }
        ensures { OnOk result (EntersClass self.old self.new class) }
    {
        match self.marks[class] {
            VisitMark::Unseen => {
                self.enter(class)?;
                Ok(())
            }
            VisitMark::Entered(_) => Ok(()),
            VisitMark::Done => Ok(()),
        }
    }

    /// Walks a class and all that stands within it. Says whether no class stands within itself.
    fn visit(&mut self, terms: &[Term], classes: &Classes, class: usize) -> Result<bool, AllocError>
        requires earlier { AreEarlier terms.now }
        requires partition { IsPartition (length terms.now) classes.now }
        requires walk { IsDepthFirstWalk terms.now classes.now self.old }
        requires path { self.old.path.items ≡ [] }
        requires within { class < length terms.now }
        requires root { class_of classes.now class ≡ class }
        ensures visits { IfOk result (λ founded. founded ≡ true
            → VisitsClassWholly terms.now classes.now self.old self.new class) }
        ensures none { IfOk result (λ founded. founded ≡ false
            → HasNoFiniteSolution terms.now classes.now) }
    {
        self.begin(class)?;
        'walking: while let Some(top) = self.last() {
            if !self.step(terms, classes, top)? {
                return Ok(false);
            }
        }
        Ok(true)
    }
}

/// Says whether no class stands within itself.
pub fn is_acyclic(alloc: Global, terms: &[Term], classes: &Classes) -> Result<bool, AllocError>
    requires earlier { AreEarlier terms.now }
    requires partition { IsPartition (length terms.now) classes.now }
    ensures stand { IfOk result (λ founded. founded ≡ true → (i : ℕ) → i < length terms.now
        → (t : Tree) × ClassStandsForTree terms.now classes.now (class_of classes.now i) t) }
    ensures none { IfOk result (λ founded. founded ≡ false → HasNoFiniteSolution terms.now classes.now) }
{
    let mut walk = Walk::new(alloc, terms.len())?;
    for i in 0..terms.len() {
        let class = classes.class_of(i);
        if !walk.visit(terms, classes, class)? {
            return Ok(false);
        }
    }
    Ok(true)
}
