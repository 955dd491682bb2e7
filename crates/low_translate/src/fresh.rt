// Numbers for variables and sites of calls that no others have.

ghost use Rattle.std.specs.Prelude.{◌≡◌, ◌+◌, suc, IfOk, OnOk};
ghost use Rattle.seq.specs.Lists.{numbers_from};

use seq::Seq;
use std::alloc::{AllocError, Global};

/// A supply of numbers, in their order.
#[derive(Drop)]
pub(crate) struct Numbers {
    /// The next one.
    pub next: u64,
}

impl Numbers {
    /// The next number. Past those of 32 bits there is none, which counts as want of memory.
    pub(crate) fn one(&mut self) -> Result<u32, AllocError>
        ensures is { IfOk result (λ x. x ≡ self.old.next) }
        ensures next { OnOk result (self.new.next ≡ suc self.old.next) }
    {
        let Ok(number) = u32::try_from(self.next) else {
            return Err(AllocError);
        };
        self.next += 1;
        Ok(number)
    }

    /// So many numbers.
    pub(crate) fn many(&mut self, alloc: Global, count: usize) -> Result<Seq<u32>, AllocError>
        ensures are { IfOk result (λ xs. xs ≡ numbers_from self.old.next count) }
        ensures next { OnOk result (self.new.next ≡ self.old.next + count) }
    {
        let mut made = Seq::new(alloc);
        for _ in 0..count {
            made.push(self.one()?)?;
        }
        Ok(made)
    }
}
