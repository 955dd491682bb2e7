// The pass.
#![tactic(auto)]

ghost use Rattle.std.specs.Prelude.{◌≡◌, ◌+◌, length, IfOk, OnOk};
ghost use Rattle.grin_syntax.specs.Tree.{code_of, procedure_of, program_of};
ghost use Rattle.grin_meaning.specs.Ready.{IsFetchedByWords};
ghost use Rattle.pass_ground.specs.Vectors.{IsVectorForm};
ghost use Rattle.raise_theory.specs.Raising.{new_code, raised_procedure, raised};
ghost use Rattle.raise_theory.specs.Raised.{Raised, MadeByLeastSolution};

use crate::blocks::Within;
use crate::decide::{Decisions, Planned, plan};
use crate::params::raised_params;
use grin_meaning::Pass;
use grin_syntax::fresh::Fresh;
use grin_syntax::{Grin, Proc};
use least_flow::least;
use raise_theory::Raising;
use seq::Seq;
use std::alloc::{AllocError, Global};

/// A parameter that is used as the cell of fetches alone, and whose cells have exactly one tag, one
/// of values, by the least solution of the program's own flow system, and are never updated, is
/// replaced by the fields of its cell. A caller fetches them before the call. Parameters are looked
/// at from the left; none is replaced where that would leave more than sixteen, and the start keeps
/// its parameters.
pub struct Raise;

impl Pass for Raise {
    ghost takes = { λ g. IsVectorForm (program_of g) × IsFetchedByWords (program_of g) };

    ghost gives = { λ g h. Raised (program_of g) (program_of h) };

    fn apply(&self, alloc: Global, g: Grin) -> Result<Grin, AllocError> {
        let h = with_raised_params(alloc, g)?;
        Ok(h)
    }
}

/// What the pass makes of any program, whatever its runs do.
pub fn with_raised_params(alloc: Global, g: Grin) -> Result<Grin, AllocError>
    ensures { IfOk result (λ h. MadeByLeastSolution (program_of g) (program_of h)) }
{
    let flow = least(alloc, &g)?;
    let plan = plan(alloc, &g, &flow)?;
    let h = with_fields(alloc, g, plan)?;
    Ok(h)
}

// A procedure with its parameters raised, where this is decided of those of all procedures, and of
// its own.
fn raised_proc(
    alloc: Global,
    fresh: &mut Fresh,
    all: &Seq<Decisions>,
    own: &[Option<Raising>],
    proc: Proc,
) -> Result<Proc, AllocError>
    ensures is { IfOk result (λ p. procedure_of p
        ≡ raised_procedure all.now fresh.old.next own.now (procedure_of proc)) }
    ensures next { OnOk result (fresh.new.next
        ≡ fresh.old.next + new_code all.now (code_of proc.body)) }
{
    let Proc { name, params, body } = proc;
    let old = params.as_slice();
    let within = Within {
        all,
        own,
        params: old,
    };
    let body = within.block(alloc, fresh, body)?;
    let params = raised_params(alloc, own, old)?;
    Ok(Proc { name, params, body })
}

// The program with the parameters raised of which that is decided.
fn with_fields(alloc: Global, g: Grin, plan: Planned) -> Result<Grin, AllocError>
    requires { length plan.procs ≡ length g.procs }
    ensures { IfOk result (λ h. program_of h ≡ raised plan.procs plan.fresh.next (program_of g)) }
{
    let Planned {
        procs: decisions,
        mut fresh,
    } = plan;
    let all = &decisions;
    let mut procs = Seq::new(alloc);
    let mut f = 0;
    for proc in g.procs.into_vec() {
        let own = all.as_slice()[f].as_slice();
        procs.push(raised_proc(alloc, &mut fresh, all, own, proc)?)?;
        f += 1;
    }
    Ok(Grin { procs, ..g })
}
