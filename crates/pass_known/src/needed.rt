// The alternatives of a case that a run may take.
#![tactic(auto)]

ghost use Rattle.std.specs.Prelude.{◌≡◌, nat_eq, map, IfOk};
ghost use Rattle.std.specs.List.{list_any};
ghost use Rattle.pass_ground.specs.OpenUpdates.{tag_variable};
ghost use Rattle.points_to.specs.Found.{found};
ghost use Rattle.update_special.specs.Updates.{tags_of};
ghost use Rattle.pass_known.specs.Needed.{pattern_may_match, without, tags_left_by, arm_may_match, tags_left_after, if_nonempty, tags_at, numbers_left};
ghost use Rattle.pass_known.specs.Telling.{known_solution};

use crate::told::Told;
use grin_syntax::{Shape, TagId, Val, VarId};
use seq::Seq;
use std::alloc::{AllocError, Global};
use update_special::{Tags, tag_variable};

// The tags in the set of a variable, where there are some.
fn tags_of(alloc: Global, tags: &Tags, x: VarId) -> Result<Option<Seq<TagId>>, AllocError>
    ensures { IfOk result (λ left. numbers_left left ≡ if_nonempty (tags_of tags.now.count
        (found tags.now.flow.now) x.0)) }
{
    let left = tags.tags_of(alloc, x)?;
    if left.is_empty() {
        return Ok(None);
    }
    Ok(Some(left))
}

/// The tags of a value whose tag word is a variable, where this may be a tag.
pub(crate) fn tags_at(alloc: Global, told: &Told, v: &Val) -> Result<Option<Seq<TagId>>, AllocError>
    ensures { IfOk result (λ left. numbers_left left ≡ tags_at told.now.count (known_solution told.now)
        (tag_variable v.now)) }
{
    let Some(flow) = told.flow else {
        return Ok(None);
    };
    let tags = Tags {
        count: told.count,
        flow,
    };
    match tag_variable(v) {
        Some(x) => tags_of(alloc, &tags, x),
        None => Ok(None),
    }
}

/// Whether an alternative may be taken.
pub(crate) fn is_arm_needed(left: &Option<Seq<TagId>>, pattern: &Shape) -> bool
    ensures { result ≡ arm_may_match (numbers_left left.now) pattern.now }
{
    match left {
        Some(tags) => pattern_may_match(tags.as_slice(), pattern),
        None => true,
    }
}

/// The tags that are left to the alternatives behind it.
pub(crate) fn left_after(
    alloc: Global,
    left: &Option<Seq<TagId>>,
    pattern: &Shape,
) -> Result<Option<Seq<TagId>>, AllocError>
    ensures { IfOk result (λ l. numbers_left l ≡ tags_left_after (numbers_left left.now) pattern.now) }
{
    match left {
        Some(tags) => Ok(Some(tags_left_by(alloc, tags.as_slice(), pattern)?)),
        None => Ok(None),
    }
}

// Whether a pattern fits a value with one of these tags.
#[tactic(auto, using(crate::proofs::Loops::any_number))]
fn pattern_may_match(tags: &[TagId], pattern: &Shape) -> bool
    ensures { result ≡ pattern_may_match (map (λ t. t.0) tags.now) pattern.now }
{
    match pattern {
        Shape::Node(tag, _) => is_among(tags, *tag),
        Shape::Int(_) => is_among(tags, TagId(0)),
        Shape::Else => !tags.is_empty(),
    }
}

fn is_among(tags: &[TagId], tag: TagId) -> bool
    ensures { result ≡ list_any (λ t. nat_eq t.0 tag.0) tags.now }
{
    tags.iter().any(|other| other.0 == tag.0)
}

// The tags of the values that a pattern leaves to the alternatives behind it.
fn tags_left_by(alloc: Global, tags: &[TagId], pattern: &Shape) -> Result<Seq<TagId>, AllocError>
    ensures { IfOk result (λ ts. map (λ t. t.0) ts
        ≡ tags_left_by (map (λ t. t.0) tags.now) pattern.now) }
{
    match pattern {
        Shape::Node(tag, _) => without(alloc, tags, *tag),
        Shape::Int(_) => Seq::from_slice(alloc, tags),
        Shape::Else => Ok(Seq::new(alloc)),
    }
}

fn without(alloc: Global, tags: &[TagId], tag: TagId) -> Result<Seq<TagId>, AllocError>
    ensures { IfOk result (λ ts. map (λ t. t.0) ts ≡ without tag.0 (map (λ t. t.0) tags.now)) }
{
    let mut made = Seq::new(alloc);
    'tags: for other in tags {
        if other.0 != tag.0 {
            made.push(*other)?;
        }
    }
    Ok(made)
}
