// The inclusions that wait to be satisfied, taken in sweeps up and down through groups of their
// numbers.

ghost use Rattle.std.specs.Prelude.{◌≡◌, ℕ, ◌<◌, ◌≤◌, ◌*◌, ◌^◌, [], length, IfSome, IfNone, IfOk, OnOk};
ghost use Rattle.points_to.specs.Held.{In};

use crate::groups::{full_groups, next_nonempty_group, put_number, take_lowest};
use std::alloc::{AllocError, Global};

/// The numbers of the inclusions that wait: a group for each 64 of them, with a bit for each that
/// waits. The least one of the group at hand is taken; where it has none, the next group in the
/// direction of the sweep that has some is at hand, and where there is none, the sweep turns round.
/// So facts that go from inclusion to inclusion in the order of the list, or from group to group
/// against it, are carried on within one sweep.
#[derive(Drop)]
pub struct Pending {
    groups: Vec<u64>,
    at: usize,
    upwards: bool,
    ghost small: { length groups.items ≤ 2 ^ 26 },
}

impl Pending {
    ghost use Rattle.points_to.specs.Waiting.{waiting, Waits, Takes};

    /// All numbers below a count, and the others of their groups.
    pub fn all(alloc: Global, count: u32) -> Result<Pending, AllocError>
        ensures { IfOk result (λ w. (n : ℕ) → n < count → In n (waiting w)) }
    {
        let groups = full_groups(alloc, count / 64 + 1)?;
        Ok(Pending {
            groups,
            at: 0,
            upwards: true,
        })
    }

    /// How many groups there are. So many times 64 can wait.
    pub fn groups(&self) -> usize
        ensures { length (waiting self.now) ≤ 64 * result }
    {
        self.groups.len()
    }

    /// Lets an inclusion wait.
    pub fn put(&mut self, n: u32) -> Result<(), AllocError>
        ensures { OnOk result (Waits (waiting self.old) (waiting self.new) n) }
    {
        put_number(&mut self.groups, n)
    }

    /// Lets several inclusions wait.
    pub fn put_all(&mut self, numbers: &[u32]) -> Result<(), AllocError>
        ensures kept { OnOk result ((n : ℕ) → In n (waiting self.old) → In n (waiting self.new)) }
        ensures put { OnOk result ((n : ℕ) → In n numbers.now → In n (waiting self.new)) }
    {
        for n in numbers {
            self.put(*n)?;
        }
        Ok(())
    }

    /// Takes the next one.
    pub fn take(&mut self) -> Option<u32>
        ensures some { IfSome result (λ n. Takes (waiting self.old) (waiting self.new) n) }
        ensures none { IfNone result (waiting self.old ≡ []) }
        ensures left { IfNone result (waiting self.new ≡ []) }
    {
        match next_nonempty_group(self.groups.as_slice(), self.at, self.upwards) {
            None => None,
            Some((k, upwards)) => {
                self.at = k;
                self.upwards = upwards;
                Some(take_lowest(&mut self.groups, k))
            }
        }
    }
}
