// How the vectors of a program are laid out.
#![tactic(auto)]

ghost use Rattle.std.specs.Prelude.{◌≡◌, IfOk};
ghost use Rattle.grin_syntax.specs.Tree.{program_of};
ghost use Rattle.vectorise.specs.Known.{layout_of, vector_start, room};

use grin_syntax::fresh::Fresh;
use grin_syntax::{Grin, VarId};
use node_sizes::{most_fields, most_value_fields};
use std::alloc::AllocError;

/// The first new variable, the fields of the longest node, and those of the longest node that is a
/// value.
#[derive(Clone, Copy, Debug)]
pub(crate) struct Layout {
    pub base: u32,
    pub most: u32,
    pub most_value: u32,
}

impl Layout {
    /// The layout for a program. Where new variables would be past the numbers of 32 bits there is
    /// none, which counts as want of memory.
    pub(crate) fn of(g: &Grin) -> Result<Layout, AllocError>
        ensures { IfOk result (λ l. l ≡ layout_of (program_of g.now)) }
    {
        let Ok(base) = u32::try_from(Fresh::past(g.procs.as_slice()).next) else {
            return Err(AllocError);
        };
        Ok(Layout {
            base,
            most: most_fields(g.tags.as_slice()),
            most_value: most_value_fields(g.tags.as_slice()),
        })
    }

    /// The number of the first variable of the vector of `x`.
    pub(crate) fn start(&self, x: VarId) -> u64
        ensures { result ≡ vector_start self.now x.0 }
    {
        u64::from(self.base) + u64::from(x.0) * (u64::from(self.most) + 1)
    }

    /// For how many fields there is room in a vector that a fetch fills, or another.
    pub(crate) fn room(&self, fetched: bool) -> u32
        ensures { result ≡ room self.now fetched }
    {
        if fetched { self.most } else { self.most_value }
    }
}
