//! Classes of terms that are equal in each solution.

ghost use Rattle.std.specs.Prelude.{◌≡◌, ◌<◌, ℕ, length, [], ◌++◌, slice_get, slice_set, slice_index, IfOk, OnOk};
ghost use Rattle.seq.specs.Lists.{In, or_empty};
ghost use Rattle.unification.specs.Classes.{AreSingletons, ClassesAreMerged, IsPartition, preferred};
ghost use Rattle.unification.specs.Shown.{class_of, kept_of};

use crate::term::{Term, symbol_at};
use seq::Seq;
use std::alloc::{AllocError, Global};
use std::mem;

/// Classes of terms that are equal in each solution. A class goes by one of its terms, and keeps a
/// term that is no variable, where it has one. Where two classes are joined, the terms of the
/// smaller one change their class, so that a term does so at most log2(n) times.
#[derive(Drop)]
pub struct Classes {
    class: Vec<usize>,
    members: Vec<Seq<usize>>,
    kept: Vec<usize>,
}

impl Classes {
    /// So many terms, each in a class of its own.
    pub fn new(alloc: Global, count: usize) -> Result<Classes, AllocError>
        ensures { IfOk result (AreSingletons count) }
    {
        let mut class = Vec::new(alloc);
        let mut members = Vec::new(alloc);
        let mut kept = Vec::new(alloc);
        for i in 0..count {
            class.push(i)?;
            members.push(Seq::new(alloc))?;
            kept.push(i)?;
        }
        Ok(Classes {
            class,
            members,
            kept,
        })
    }

    /// The class of a term.
    pub fn class_of(&self, at: usize) -> usize
        requires { at < length self.now.class.items }
        ensures { result ≡ class_of self.now at }
    {
        self.class[at]
    }

    /// The term that a class keeps.
    pub fn kept_of(&self, class: usize) -> usize
        requires { class < length self.now.kept.items }
        ensures { result ≡ kept_of self.now class }
    {
        self.kept[class]
    }

    /// Whether a class has more terms than another one.
    pub fn is_larger(&self, a: usize, b: usize) -> bool
        requires a { a < length self.now.members.items }
        requires b { b < length self.now.members.items }
    {
        self.members[a].len() > self.members[b].len()
    }

    /// Keeps the term of class a for class b, where that of b is a variable.
    fn keep(&mut self, terms: &[Term], a: usize, b: usize)
        requires a { a < length self.old.kept.items }
        requires b { b < length self.old.kept.items }
        ensures classes { self.new.class ≡ self.old.class }
        ensures members { self.new.members ≡ self.old.members }
        ensures kept { self.new.kept.items ≡ slice_set self.old.kept.items b
            (preferred terms.now (kept_of self.old b) (kept_of self.old a)) }
    {
        self.kept[b] = match symbol_at(terms, self.kept[b]) {
            Some(_) => self.kept[b],
            None => self.kept[a],
        };
    }

    /// Joins class a with class b, by which they go from now on.
    pub fn join(
        &mut self,
        alloc: Global,
        terms: &[Term],
        a: usize,
        b: usize,
    ) -> Result<(), AllocError>
        requires partition { IsPartition (length terms.now) self.old }
        requires within { (a < length terms.now) × (b < length terms.now) }
        requires roots { (class_of self.old a ≡ a) × (class_of self.old b ≡ b) }
        requires distinct { a ≡ b → ⊥ }
        ensures { OnOk result (ClassesAreMerged terms.now self.old self.new a b) }
    {
        self.keep(terms, a, b);
        let mut moved = taken(alloc, &mut self.members, a);
        moved.push(a)?;
        relabel(&mut self.class, moved.as_slice(), b);
        append_at(&mut self.members, b, moved)?;
        Ok(())
    }
}

/// Takes the list at a place, and leaves the empty one.
fn taken(alloc: Global, rows: &mut Vec<Seq<usize>>, at: usize) -> Seq<usize>
    requires { at < length rows.old.items }
    ensures row { result ≡ or_empty (slice_get rows.old.items at) }
    ensures rest { rows.new.items ≡ slice_set rows.old.items at [] }
{
    mem::replace(&mut rows[at], Seq::new(alloc))
}

/// Puts items at the end of the list at a place.
fn append_at(rows: &mut Vec<Seq<usize>>, at: usize, items: Seq<usize>) -> Result<(), AllocError>
    requires { at < length rows.old.items }
    ensures { OnOk result (rows.new.items ≡ slice_set rows.old.items at
        (or_empty (slice_get rows.old.items at) ++ items)) }
{
    rows[at].append(items)
}

/// Puts terms in another class.
fn relabel(class: &mut Vec<usize>, moved: &[usize], to: usize)
    requires { (i : ℕ) → In i moved.now → i < length class.old.items }
    ensures length { length class.new.items ≡ length class.old.items }
    ensures moved { (i : ℕ) → In i moved.now → slice_index class.new.items i ≡ to }
    ensures others { (i : ℕ) → (In i moved.now → ⊥)
        → slice_index class.new.items i ≡ slice_index class.old.items i }
{
    for i in moved {
        class[*i] = to;
    }
}
