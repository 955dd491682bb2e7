// Which inclusions of a system read which sets, and which tag of a procedure lacks how many
// arguments.

ghost use Rattle.std.specs.Prelude.{◌≡◌, ℕ, Some, slice_get, ◌↔◌, drop, IfOk};
ghost use Rattle.std.specs.Option.{option_map};
ghost use Rattle.grin_syntax.specs.Tags.{part_from};
ghost use Rattle.flow_system.specs.Shown.{inclusions_of};
ghost use Rattle.flow_system.specs.Readers.{sets, readers};

use crate::fact::Place;
use crate::inclusion::FlowSystem;
use crate::starts::partial_tag;
use grin_syntax::program::{ProcId, TagId};
use std::alloc::AllocError;

/// The numbers of the inclusions that read the set of this number, ascending; none where no set has
/// the number. A set is what a solution has at one site, variable or procedure's result. Sets are
/// numbered from 0 in the order in which the inclusions first name them, an inclusion's sources and
/// conditions before its target.
pub fn readers<'a>(s: &'a FlowSystem<'_>, set: u32) -> &'a [u32]
    ensures { result.now ≡ readers (inclusions_of s.now) set }
{
    match s.rows.get(set as usize) {
        Some(row) => row.as_slice(),
        None => &[],
    }
}

/// The number of the set at a place, or `None` where no inclusion names it.
pub fn set_number_at(s: &FlowSystem, place: Place) -> Option<u32>
    ensures { (n : ℕ) → (result ≡ Some n)
        ↔ (slice_get (sets (inclusions_of s.now)) n ≡ Some place) }
{
    s.sets.number(place)
}

/// The first tag of a procedure that lacks so many arguments, if there is one. Past the numbers of
/// 32 bits there is none, which counts as want of memory.
pub fn first_tag_lacking(
    s: &FlowSystem,
    f: ProcId,
    missing: u32,
) -> Result<Option<TagId>, AllocError>
    ensures { IfOk result (λ found. option_map (λ t. t.0) found
        ≡ part_from 0 s.now.tags.now f.0 missing) }
{
    partial_tag(s.tags.as_slice(), search_start(s, f), f, missing)
}

// A tag before which there is none of a procedure that lacks arguments.
fn search_start(s: &FlowSystem, f: ProcId) -> usize
    ensures { (r : ℕ) → part_from 0 s.now.tags.now f.0 r
        ≡ part_from result (drop result s.now.tags.now) f.0 r }
{
    match s.starts.get(f.0 as usize) {
        Some(start) => *start,
        None => 0,
    }
}
