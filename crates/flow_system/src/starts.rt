// Where the tags of functions that lack arguments stand.
#![tactic(auto)]

ghost use Rattle.std.specs.Prelude.{◌≡◌, ◌≢◌, ℕ, suc, ◌<◌, length, false, drop, Some, slice_get, IfOk, MatchOption};
ghost use Rattle.std.specs.Option.{option_map};
ghost use Rattle.grin_syntax.specs.declared.program.Tag.{Tag as Tag'};
ghost use Rattle.std.specs.Prelude.{List};
ghost use Rattle.grin_syntax.specs.Tags.{part_from, is_part, is_part_kind};
ghost use Rattle.flow_system.specs.Starts.{NoPartTagBeforeStart};

use grin_syntax::{ProcId, Tag, TagId, TagKind};
use std::alloc::{AllocError, Global};

/// For each of so many procedures where its tags begin that lack arguments.
pub fn partial_tag_starts(
    alloc: Global,
    tags: &[Tag],
    procs: usize,
) -> Result<Vec<usize>, AllocError>
    ensures { IfOk result (λ starts. NoPartTagBeforeStart tags.now starts.items 0) }
{
    let mut starts = vec![in alloc; tags.len(); procs]?;
    let mut at = tags.len();
    'back: while at > 0 {
        at -= 1;
        note(&mut starts, &tags[at], at);
    }
    Ok(starts)
}

// Notes a tag that stands before those that were noted.
fn note(starts: &mut Vec<usize>, tag: &Tag, at: usize)
    ensures { (tags : List Tag') → slice_get tags at ≡ Some tag.now
        → NoPartTagBeforeStart tags starts.old.items (suc at) → NoPartTagBeforeStart tags starts.new.items at }
{
    if let Some(f) = lacking(tag) {
        let f = f.0 as usize;
        if f < starts.len() {
            starts[f] = at;
        }
    }
}

// The procedure of a tag that lacks arguments.
fn lacking(tag: &Tag) -> Option<ProcId>
    ensures { MatchOption result ((f r : ℕ) → is_part f r tag.now ≡ false) (λ g. (f r : ℕ) → f ≢ g.0
        → is_part f r tag.now ≡ false) }
{
    if is_part(tag.kind) { tag.proc } else { None }
}

/// The first tag of a procedure that lacks so many arguments, where none stands before `start`.
/// Past the numbers of 32 bits there is none, which counts as want of memory.
pub fn partial_tag(
    tags: &[Tag],
    start: usize,
    f: ProcId,
    missing: u32,
) -> Result<Option<TagId>, AllocError>
    requires { part_from 0 tags.now f.0 missing
        ≡ part_from start (drop start tags.now) f.0 missing }
    ensures { IfOk result (λ found. option_map (λ t. t.0) found
        ≡ part_from 0 tags.now f.0 missing) }
{
    let mut place = start;
    'places: while place < tags.len() {
        if lacks(&tags[place], f, missing) {
            let number = u32::try_from(place).map_err(|_| AllocError)?;
            return Ok(Some(TagId(number)));
        }
        place += 1;
    }
    Ok(None)
}

// Whether a tag is that of a procedure that lacks so many arguments.
fn lacks(tag: &Tag, f: ProcId, missing: u32) -> bool
    ensures { result ≡ is_part f.0 missing tag.now }
{
    match tag.proc {
        Some(g) => is_part(tag.kind) && g.0 == f.0 && tag.missing == missing,
        None => false,
    }
}

/// Whether a tag of this kind is that of a function that lacks arguments.
pub fn is_part(kind: TagKind) -> bool
    ensures { result ≡ is_part_kind kind }
{
    match kind {
        TagKind::Part => true,
        TagKind::Con => false,
        TagKind::Fun => false,
    }
}
