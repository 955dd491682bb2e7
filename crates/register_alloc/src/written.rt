// The registers that each procedure may change: its own, and those of the procedures that it calls.

ghost use Rattle.std.specs.Prelude.{◌≡◌, ◌<◌, true, false, length};
ghost use Rattle.std.proofs.Common.{set};
ghost use Rattle.register_alloc.specs.Reach.{AreLeastMasks};
ghost use Rattle.register_alloc.specs.Rounds.{mask_at, joined_masks, Grows, MasksAreClosed, room};

use crate::either::either;
use seq::Seq;

pub(crate) fn mask_at(masks: &[u32], proc: u32) -> u32
    ensures { result ≡ mask_at masks.now proc }
{
    match masks.get(proc as usize) {
        Some(mask) => *mask,
        None => 0,
    }
}

/// A mask with those of these procedures.
fn joined_masks(masks: &[u32], mask: u32, called: &[u32]) -> u32
    ensures { result ≡ joined_masks masks.now mask called.now }
{
    let mut all = mask;
    for proc in called {
        all |= mask_at(masks, *proc);
    }
    all
}

/// Adds the masks of the called procedures to a procedure's. Whether there was anything to add.
fn grow(masks: &mut Vec<u32>, proc: usize, called: &[u32]) -> bool
    requires { proc < length masks.old.items }
    ensures set { masks.new.items
        ≡ set masks.old.items proc
        (joined_masks masks.old.items (mask_at masks.old.items proc) called.now) }
    ensures closer { result ≡ true → room masks.new.items < room masks.old.items }
    ensures same { result ≡ false → joined_masks masks.old.items (mask_at masks.old.items proc) called.now
        ≡ mask_at masks.old.items proc }
{
    let old = masks[proc];
    let all = joined_masks(masks.as_slice(), old, called);
    masks[proc] = all;
    all != old
}

/// Adds to the mask of each procedure those of the procedures that it calls. Whether there was
/// anything to add.
fn round(masks: &mut Vec<u32>, calls: &[Seq<u32>]) -> bool
    requires { length masks.old.items ≡ length calls.now }
    ensures grows { Grows calls.now masks.old.items masks.new.items }
    ensures closer { result ≡ true → room masks.new.items < room masks.old.items }
    ensures whole { result ≡ false → MasksAreClosed calls.now masks.new.items (length calls.now) }
{
    let mut grew = false;
    for f in 0..calls.len() {
        let more = grow(masks, f, calls[f].as_slice());
        grew = either(grew, more);
    }
    grew
}

/// The least masks that have each procedure's own registers, and those of the procedures that it
/// calls.
pub(crate) fn least(own: Vec<u32>, calls: &[Seq<u32>]) -> Vec<u32>
    requires { length own.items ≡ length calls.now }
    ensures many { length result.items ≡ length own.items }
    ensures least { AreLeastMasks own.items calls.now result.items }
{
    let mut masks = own;
    while round(&mut masks, calls) {}
    masks
}
