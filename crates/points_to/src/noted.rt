// Sets that were put together once, by number.

ghost use Rattle.std.specs.Prelude.{◌≡◌, ◌⊎◌, ℕ, None, Some, OnOk};
ghost use Rattle.std.specs.Option.{option_copied};
ghost use Rattle.points_to.specs.Noted.{noted_at};

use crate::bits::Bits;
use std::alloc::{AllocError, Global};

/// The sets of some numbers.
#[derive(Drop)]
pub struct NotedSets {
    by_number: Vec<Option<Bits>>,
}

impl NotedSets {
    /// No sets.
    pub fn new(alloc: Global) -> NotedSets
        ensures { (n : ℕ) → noted_at result n ≡ None }
    {
        NotedSets {
            by_number: Vec::new(alloc),
        }
    }

    /// The set of a number, where there is one.
    pub fn at(&self, n: u32) -> Option<&Bits>
        ensures { option_copied result ≡ noted_at self.now n }
    {
        match self.by_number.get(n as usize) {
            Some(Some(set)) => Some(set),
            Some(None) => None,
            None => None,
        }
    }

    /// Notes the set of a number.
    pub fn put(&mut self, n: u32, set: Bits) -> Result<(), AllocError>
        ensures { OnOk result ((m : ℕ) → (noted_at self.new m ≡ noted_at self.old m)
            ⊎ ((m ≡ n) × (noted_at self.new m ≡ Some set))) }
    {
        'growing: while self.by_number.len() <= n as usize {
            self.by_number.push(None)?;
        }
        self.by_number[n as usize] = Some(set);
        Ok(())
    }
}
