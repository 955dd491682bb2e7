// Copies are followed, with what is new alone: what a variable gets flows on, and nothing is asked
// twice.

ghost use Rattle.std.specs.Prelude.{◌≡◌, ℕ, List, Some, slice_get, IfOk, OnOk};
ghost use Rattle.flow_system.specs.Inclusions.{Inclusion as Inclusion'};
ghost use Rattle.flow_system.specs.Shown.{tables_of, inclusions_of, inclusion_of};
ghost use Rattle.flow_system.specs.Tables.{Tables};
ghost use Rattle.points_to.specs.Copies.{IsCopied, IsReached};
ghost use Rattle.points_to.specs.Kept.{IsSound};

use crate::copies::{Copies, one_fetch};
use crate::hints::Hints;
use crate::kept::Kept;
use crate::state::State;
use flow_system::inclusion::{FlowSystem, Inclusion};
use std::alloc::{AllocError, Global};

// Puts the fetch that an inclusion is into the copies.
fn note_fetch(
    alloc: Global,
    system: &FlowSystem,
    copies: &mut Copies,
    hints: &mut Hints,
    inclusion: &Inclusion,
) -> Result<(), AllocError>
    ensures { OnOk result ((p : Tables) → (cs : List Inclusion') → (i : ℕ)
        → slice_get cs i ≡ Some (inclusion_of inclusion.now)
        → IsCopied p cs copies.old → IsCopied p cs copies.new) }
{
    match one_fetch(inclusion) {
        None => Ok(()),
        Some((fetch, _)) => match hints.sources.noted(system, copies, fetch) {
            Some(g) => copies.add_target(g, inclusion),
            None => {
                let g = copies.add(alloc, fetch)?;
                hints.sources.note(alloc, system, fetch, g)?;
                copies.add_target(g, inclusion)
            }
        },
    }
}

fn note_all(
    alloc: Global,
    system: &FlowSystem,
    state: &mut State,
    hints: &mut Hints,
) -> Result<(), AllocError>
    ensures { OnOk result (IsReached (tables_of system.now) (inclusions_of system.now) state.old
        → IsReached (tables_of system.now) (inclusions_of system.now) state.new) }
{
    let mut n: u32 = 0;
    for inclusion in system.inclusions.as_slice() {
        note_fetch(alloc, system, &mut state.copies, hints, inclusion)?;
        hints.note(alloc, system, &state.kept.facts, n, inclusion)?;
        n = n.checked_add(1).ok_or(AllocError)?;
    }
    Ok(())
}

/// What is found by following copies: much of the solution, mostly all of it.
pub fn solve_by_copies(alloc: Global, system: &FlowSystem) -> Result<Kept, AllocError>
    ensures { IfOk result (IsSound (tables_of system.now) (inclusions_of system.now)) }
{
    let mut state = State::new(alloc);
    let mut hints = Hints::new(alloc, system)?;
    note_all(alloc, system, &mut state, &mut hints)?;
    'steps: for _ in 0..u64::MAX {
        match hints.next(alloc, system, &state)? {
            None => {
                return Ok(state.into_kept());
            }
            Some(step) => {
                if state.take(alloc, system, step)? {
                    hints.taken(alloc, system, &state, step)?;
                } else {
                    hints.in_vain(step)?;
                }
            }
        }
    }
    Err(AllocError)
}
