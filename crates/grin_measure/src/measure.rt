// The sizes of a program, and what of another one is held against them.

ghost use Rattle.std.specs.Prelude.{◌≡◌, ◌≤◌, true, false};
ghost use Rattle.grin_syntax.specs.Tree.{procedure_of, program_of};
ghost use Rattle.grin_meaning.specs.Slim.{Slim};
ghost use Rattle.grin_measure.specs.Counts.{of_procedure};
ghost use Rattle.grin_measure.specs.Within.{HasSizes, Within};
ghost use Rattle.inline_theory.specs.Expanded.{saturated_at_64_bits};
ghost use Rattle.limits.specs.Limits.{largest_program};

use crate::counts::Counts;
use crate::walk::procedure;
use grin_syntax::Grin;

/// The size of a program, and that of its largest procedure.
#[derive(Clone, Copy, Debug, PartialEq, Eq)]
pub struct Sizes {
    pub program: u64,
    pub largest: u64,
}

/// The size of a program and that of its largest procedure; 2^64 - 1 where they are larger.
pub fn sizes_of(g: &Grin) -> Sizes
    ensures { HasSizes (program_of g.now) result }
{
    let mut all = Counts::none();
    let mut largest = 0;
    for proc in g.procs.as_slice() {
        let own = procedure(proc);
        all = all.and(own);
        largest = own.size.max(largest);
    }
    Sizes {
        program: all.size,
        largest,
    }
}

/// Whether the counts so far, the last procedure's among them, are within what is slim beside a
/// program of these sizes.
fn is_within(all: Counts, own: Counts, sizes: Sizes) -> bool
    requires program { sizes.program ≤ largest_program }
    requires largest { sizes.largest ≤ largest_program }
    ensures within { result ≡ true → Within all own sizes }
    ensures beyond { result ≡ false → Within all own sizes → ⊥ }
{
    all.weight <= 48 * sizes.program
        && all.calls <= sizes.program
        && own.words <= 20 * sizes.largest
}

/// Whether a program is slim beside one of these sizes. It counts no further than to the first
/// procedure with which it isn't.
pub fn is_slim(g: &Grin, sizes: Sizes) -> bool
    requires program { sizes.program ≤ largest_program }
    requires largest { sizes.largest ≤ largest_program }
    ensures slim { result ≡ true → Slim sizes.program sizes.largest (program_of g.now) }
    ensures large { result ≡ false → Slim sizes.program sizes.largest (program_of g.now) → ⊥ }
{
    let mut all = Counts::none();
    for proc in g.procs.as_slice() {
        let own = procedure(proc);
        all = all.and(own);
        if !is_within(all, own, sizes) {
            return false;
        }
    }
    true
}
