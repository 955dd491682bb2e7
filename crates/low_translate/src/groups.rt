// Groups of numbers that are joined one after the other.

ghost use Rattle.std.specs.Prelude.{◌≡◌, ℕ, ◌≤◌, ◌<◌, ◌+◌, length, slice_index, IfOk};
ghost use Rattle.low_translate.specs.Groups.{ParentsAreSmaller, IsConstantOnGroups};

use seq::Seq;
use std::alloc::{AllocError, Global};

/// Numbers from 0 on, in groups: each number has a parent, a smaller one of its group or itself.
#[derive(Drop)]
pub(crate) struct Groups {
    pub parents: Vec<u32>,
}

impl Groups {
    /// So many numbers, each in a group of its own.
    pub(crate) fn new(alloc: Global, count: u32) -> Result<Groups, AllocError>
        ensures many { IfOk result (λ g. length g.parents.items ≡ count) }
        ensures ordered { IfOk result (λ g. ParentsAreSmaller g.parents.items) }
    {
        let mut parents = Vec::new(alloc);
        for x in 0..count {
            parents.push(x)?;
        }
        Ok(Groups { parents })
    }

    // The first number of a group. On the way, parents become nearer to it.
    fn first(&mut self, x: u32) -> u32
        requires known { x < length self.old.parents.items }
        requires ordered { ParentsAreSmaller self.old.parents.items }
        ensures many { length self.new.parents.items ≡ length self.old.parents.items }
        ensures ordered { ParentsAreSmaller self.new.parents.items }
        ensures known { result < length self.old.parents.items }
        ensures first { slice_index self.new.parents.items result ≡ result }
        ensures joined { (c : ℕ → ℕ) → IsConstantOnGroups c self.new.parents.items → c result ≡ c x }
        ensures older { (c : ℕ → ℕ) → IsConstantOnGroups c self.new.parents.items
            → IsConstantOnGroups c self.old.parents.items }
        ensures firsts { (y : ℕ) → slice_index self.old.parents.items y ≡ y
            → slice_index self.new.parents.items y ≡ y }
    {
        let mut at = x as usize;
        while self.parents[at] as usize != at {
            let next = self.parents[self.parents[at] as usize];
            self.parents[at] = next;
            at = next as usize;
        }
        at as u32
    }

    /// Joins the groups of two numbers.
    pub(crate) fn join(&mut self, x: u32, y: u32)
        requires x_known { x < length self.old.parents.items }
        requires y_known { y < length self.old.parents.items }
        requires ordered { ParentsAreSmaller self.old.parents.items }
        ensures many { length self.new.parents.items ≡ length self.old.parents.items }
        ensures ordered { ParentsAreSmaller self.new.parents.items }
        ensures joined { (c : ℕ → ℕ) → IsConstantOnGroups c self.new.parents.items → c x ≡ c y }
        ensures older { (c : ℕ → ℕ) → IsConstantOnGroups c self.new.parents.items
            → IsConstantOnGroups c self.old.parents.items }
    {
        let a = self.first(x);
        let b = self.first(y);
        self.parents[a.max(b) as usize] = a.min(b);
    }

    /// Raises the values of numbers so that no parent has less than the number.
    pub(crate) fn raise(&self, values: &mut Vec<u32>)
        requires many { length values.old.items ≡ length self.now.parents.items }
        requires ordered { ParentsAreSmaller self.now.parents.items }
        ensures many { length values.new.items ≡ length values.old.items }
        ensures more { (x : ℕ) → slice_index values.old.items x ≤ slice_index values.new.items x }
        ensures raised { (x : ℕ) → x < length self.now.parents.items
            → slice_index values.new.items x
            ≤ slice_index values.new.items (slice_index self.now.parents.items x) }
        ensures few { (most : ℕ) → ((x : ℕ) → slice_index values.old.items x ≤ most) → (x : ℕ)
            → slice_index values.new.items x ≤ most }
    {
        let mut x = self.parents.len();
        while x > 0 {
            x -= 1;
            let parent = self.parents[x] as usize;
            values[parent] = values[x].max(values[parent]);
        }
    }

    /// Gives each number the value of the first one of its group.
    pub(crate) fn spread_over_groups(&self, values: &mut Vec<u32>)
        requires many { length values.old.items ≡ length self.now.parents.items }
        requires ordered { ParentsAreSmaller self.now.parents.items }
        requires raised { (x : ℕ) → x < length self.now.parents.items
            → slice_index values.old.items x
            ≤ slice_index values.old.items (slice_index self.now.parents.items x) }
        ensures many { length values.new.items ≡ length values.old.items }
        ensures more { (x : ℕ) → slice_index values.old.items x ≤ slice_index values.new.items x }
        ensures same { IsConstantOnGroups (slice_index values.new.items) self.now.parents.items }
        ensures few { (most : ℕ) → ((x : ℕ) → slice_index values.old.items x ≤ most) → (x : ℕ)
            → slice_index values.new.items x ≤ most }
    {
        for x in 0..self.parents.len() {
            values[x] = values[self.parents[x] as usize];
        }
    }
}
