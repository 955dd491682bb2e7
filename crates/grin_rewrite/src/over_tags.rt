// The alternatives of a case over tags.
#![tactic(auto)]

ghost use Rattle.std.specs.Prelude.{◌≡◌, ℕ, map, IfOk};
ghost use Rattle.grin_syntax.specs.declared.program.Shape.{Shape};
ghost use Rattle.grin_syntax.specs.Tree.{Code, arm_of};

use grin_syntax::{Alt, TagId};
use seq::Seq;
use std::alloc::{AllocError, Global};

/// An alternative for each tag.
pub trait Alternative {
    /// The alternative in which the tag is known.
    ghost at_tag: { Self → ℕ → Shape × Code };

    /// The alternative in which the tag is known.
    fn alternative(&self, alloc: Global, tag: TagId) -> Result<Alt, AllocError>
        ensures { IfOk result (λ a. arm_of a ≡ at_tag self.now tag.0) };
}

/// The alternatives for these tags.
pub fn alternatives<A: Alternative>(
    alloc: Global,
    of: &A,
    tags: &Seq<TagId>,
) -> Result<Seq<Alt>, AllocError>
    ensures { IfOk result (λ alts. map arm_of alts
        ≡ map (A.at_tag of.now) (map (λ t. t.0) tags.now)) }
{
    let mut alts = Seq::new(alloc);
    for tag in tags.as_slice() {
        alts.push(of.alternative(alloc, *tag)?)?;
    }
    Ok(alts)
}
