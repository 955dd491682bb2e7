// Where the variables of a procedure are used, by positions in the order of its text.
#![tactic(auto)]

ghost use Rattle.std.specs.Prelude.{◌≡◌, ◌↔◌, ◌<◌, ◌≤◌, ◌^◌, ℕ, List, true, length, IfOk};
ghost use Rattle.variable_uses.specs.Uses.{AreUses, IsUsedWithin};

use std::alloc::{AllocError, Global};

/// A use of a variable. Uses are ordered by their variables, and those of one by their positions.
#[derive(Clone, Copy, Debug, PartialEq, Eq, PartialOrd, Ord)]
pub struct Use {
    pub variable: u32,
    pub at: u32,
}

/// The uses of a procedure's variables. They ascend.
#[derive(Drop)]
pub struct Uses {
    uses: Vec<Use>,
}

impl Uses {
    /// The uses of the variables of a list, of which each position has one.
    pub fn new(alloc: Global, used: &[u32]) -> Result<Uses, AllocError>
        requires { length used.now < 2 ^ 32 }
        ensures { IfOk result (AreUses used.now) }
    {
        let mut uses = Vec::with_capacity(alloc, used.len())?;
        for (at, variable) in used.iter().enumerate() {
            uses.push(Use {
                variable: *variable,
                at: at as u32,
            })?;
        }
        uses.sort_unstable();
        Ok(Uses { uses })
    }

    /// Whether a variable is used at a position from `from` on and before `to`.
    pub fn within(&self, variable: u32, from: u32, to: u32) -> bool
        ensures { (used : List ℕ) → AreUses used self.now → (result ≡ true)
            ↔ IsUsedWithin used variable from to }
    {
        let first = Use { variable, at: from };
        let end = Use { variable, at: to };
        let next = self.uses.partition_point(|used| *used < first);
        next < self.uses.len() && self.uses[next] < end
    }
}
