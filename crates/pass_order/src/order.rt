// The order of the alternatives of a case.
#![tactic(auto)]

ghost use Rattle.std.specs.Prelude.{◌≡◌, map, IfOk};
ghost use Rattle.grin_syntax.specs.Tree.{arm_of, arms_of};
ghost use Rattle.pass_order.specs.Order.{delayed_tags, is_else, is_delayed_call, values_first};

use grin_syntax::{Alt, Shape, Tag, TagKind};
use seq::Seq;
use std::alloc::{AllocError, Global};

/// Which tags are those of delayed calls, by their numbers.
#[derive(Drop)]
pub(crate) struct Order {
    pub delayed: Seq<bool>,
}

/// The order for a program with these tags.
pub(crate) fn order_for(alloc: Global, tags: &[Tag]) -> Result<Order, AllocError>
    ensures { IfOk result (λ o. o.delayed ≡ delayed_tags tags.now) }
{
    let mut delayed = Seq::new(alloc);
    for tag in tags {
        delayed.push(tag.kind == TagKind::Fun)?;
    }
    Ok(Order { delayed })
}

fn is_else(pattern: &Shape) -> bool
    ensures { result ≡ is_else pattern.now }
{
    match pattern {
        Shape::Node(_, _) | Shape::Int(_) => false,
        Shape::Else => true,
    }
}

impl Order {
    // Whether a pattern fits delayed calls alone.
    fn is_delayed_call(&self, pattern: &Shape) -> bool
        ensures { result ≡ is_delayed_call self.now.delayed pattern.now }
    {
        match pattern {
            Shape::Node(tag, _) => match self.delayed.get(tag.0 as usize) {
                Some(delayed) => *delayed,
                None => false,
            },
            Shape::Int(_) | Shape::Else => false,
        }
    }

    /// The alternatives for delayed calls behind those for values, each group in its order.
    pub(crate) fn values_first(&self, alloc: Global, alts: Seq<Alt>) -> Result<Seq<Alt>, AllocError>
        ensures { IfOk result (λ made. arms_of (map arm_of made)
            ≡ values_first self.now.delayed (arms_of (map arm_of alts))) }
    {
        let mut made = Seq::new(alloc);
        let mut calls = Seq::new(alloc);
        for alt in alts.into_vec() {
            if self.is_delayed_call(&alt.pattern) {
                calls.push(alt)?;
                continue;
            }
            if is_else(&alt.pattern) {
                made.append(calls)?;
                calls = Seq::new(alloc);
            }
            made.push(alt)?;
        }
        made.append(calls)?;
        Ok(made)
    }
}
