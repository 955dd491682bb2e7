// What the tags of a program are.

ghost use Rattle.std.specs.Prelude.{◌≡◌, ◌+◌, IfOk};
ghost use Rattle.flow_system.specs.Tables.{fields_of};
ghost use Rattle.flow_system.specs.Shown.{tables_of};
ghost use Rattle.points_to.specs.Held.{is_done, delayed, called, longer, if_one_missing, when_more};

use flow_system::inclusion::FlowSystem;
use flow_system::reading::first_tag_lacking;
use grin_syntax::program::{ProcId, TagKind};
use std::alloc::AllocError;

/// The number of fields of a tag.
pub fn fields_of(system: &FlowSystem, t: u32) -> Option<u32>
    ensures { result ≡ fields_of (tables_of system.now) t }
{
    match system.tags.get(t as usize) {
        Some(tag) => Some(tag.fields),
        None => None,
    }
}

/// Whether the nodes of a tag are evaluated.
pub fn is_done(system: &FlowSystem, t: u32) -> bool
    ensures { result ≡ is_done (tables_of system.now) t }
{
    match system.tags.get(t as usize) {
        Some(tag) => match tag.kind {
            TagKind::Con => true,
            TagKind::Fun => false,
            TagKind::Part => true,
        },
        None => false,
    }
}

/// The procedure whose calls a tag delays.
pub fn delayed(system: &FlowSystem, t: u32) -> Option<u32>
    ensures { result ≡ delayed (tables_of system.now) t }
{
    match system.tags.get(t as usize) {
        Some(tag) => match tag.kind {
            TagKind::Con => None,
            TagKind::Fun => match tag.proc {
                Some(f) => Some(f.0),
                None => None,
            },
            TagKind::Part => None,
        },
        None => None,
    }
}

fn if_one_missing(f: u32, missing: u32) -> Option<u32>
    ensures { result ≡ if_one_missing f missing }
{
    if missing == 1 { Some(f) } else { None }
}

/// The procedure that the functions with this tag call when they are given one argument more.
pub fn called(system: &FlowSystem, t: u32) -> Option<u32>
    ensures { result ≡ called (tables_of system.now) t }
{
    match system.tags.get(t as usize) {
        Some(tag) => match tag.kind {
            TagKind::Con => None,
            TagKind::Fun => None,
            TagKind::Part => match tag.proc {
                Some(f) => if_one_missing(f.0, tag.missing),
                None => None,
            },
        },
        None => None,
    }
}

fn when_more(system: &FlowSystem, f: u32, missing: u32) -> Result<Option<u32>, AllocError>
    ensures { IfOk result (λ t. t ≡ when_more (tables_of system.now) f missing) }
{
    if missing < 2 {
        return Ok(None);
    }
    match first_tag_lacking(system, ProcId(f), missing - 1)? {
        Some(tag) => Ok(Some(tag.0)),
        None => Ok(None),
    }
}

/// The tag that a function with this tag becomes with one argument more, where it waits for at
/// least two. More tags than can be numbered are want of memory.
pub fn longer(system: &FlowSystem, t: u32) -> Result<Option<u32>, AllocError>
    ensures { IfOk result (λ r. r ≡ longer (tables_of system.now) t) }
{
    match system.tags.get(t as usize) {
        Some(tag) => match tag.kind {
            TagKind::Con => Ok(None),
            TagKind::Fun => Ok(None),
            TagKind::Part => match tag.proc {
                Some(f) => when_more(system, f.0, tag.missing),
                None => Ok(None),
            },
        },
        None => Ok(None),
    }
}
