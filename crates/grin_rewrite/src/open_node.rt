// The alternatives of a case that opens a node.
#![tactic(auto, using(grin_syntax::proofs::TreeOf::tree_of))]

ghost use Rattle.std.specs.Prelude.{◌≡◌, ◌+◌, ℕ, Bool, true, false, List, map, Some, slice_get, IfOk, OnOk, MatchOption};
ghost use Rattle.std.specs.List.{filter};
ghost use Rattle.grin_syntax.specs.declared.program.Tag.{Tag};
ghost use Rattle.grin_syntax.specs.declared.program.Word.TheVariants.{Var};
ghost use Rattle.grin_syntax.specs.Tree.{Arms, arm, end, act_of, arm_of, arms_of, code_of};
ghost use Rattle.grin_syntax.specs.Fresh.{variables};
ghost use Rattle.grin_rewrite.specs.Opening.{Opening, opening_arm, opening_arms, opening_room};

use grin_syntax::fresh::Fresh;
use grin_syntax::{Alt, Block, Op, Shape, Tag, TagId, VarId, Word};
use seq::Seq;
use std::alloc::{AllocError, Global};

/// What opens a node by a case.
pub trait Opens {
    /// The program's tags, and whether the node may have one of them.
    ghost tags: { Self → List Tag };

    ghost meets: { Self → ℕ → Bool };

    ghost opening: { Self → Opening };

    /// What is known of a tag that the node may have.
    fn met(&self, tag: TagId) -> Option<&Tag>
        ensures { MatchOption result (meets self.now tag.0 ≡ false) (λ i.
            (meets self.now tag.0 ≡ true) × (slice_get (tags self.now) tag.0 ≡ Some i.now)) };

    /// What is done with a node of this tag whose fields are these variables.
    fn body(
        &self,
        alloc: Global,
        fresh: &mut Fresh,
        fields: &[VarId],
        tag: &Tag,
    ) -> Result<Block, AllocError>
        ensures is { IfOk result (λ b. (x : ℕ) → fields.now ≡ variables x tag.now.fields
            → fresh.old.next ≡ x + tag.now.fields
            → code_of b ≡ (opening self.now).body x tag.now) }
        ensures next { OnOk result (fresh.new.next
            ≡ (opening self.now).more + fresh.old.next) };

    /// What stands behind the alternatives for tags.
    fn last(&self, alloc: Global) -> Result<Seq<Alt>, AllocError>
        ensures { IfOk result (λ alts. arms_of (map arm_of alts) ≡ (opening self.now).last) };
}

/// An alternative for each of these tags that the node may have, and what stands behind them.
pub fn opening<O: Opens>(
    alloc: Global,
    fresh: &mut Fresh,
    of: &O,
    tags: &[TagId],
) -> Result<Seq<Alt>, AllocError>
    ensures is { IfOk result (λ alts. arms_of (map arm_of alts)
        ≡ opening_arms (O.tags of.now) (O.opening of.now) fresh.old.next
        (filter (O.meets of.now) (map (λ t. t.0) tags.now))) }
    ensures next { OnOk result (fresh.new.next ≡ fresh.old.next
        + opening_room (O.tags of.now) (O.opening of.now).more
        (filter (O.meets of.now) (map (λ t. t.0) tags.now))) }
{
    let mut alts = Seq::new(alloc);
    for t in tags {
        if let Some(tag) = of.met(*t) {
            alts.push(alternative(alloc, fresh, of, *t, tag)?)?;
        }
    }
    alts.append(of.last(alloc)?)?;
    Ok(alts)
}

fn alternative<O: Opens>(
    alloc: Global,
    fresh: &mut Fresh,
    of: &O,
    t: TagId,
    tag: &Tag,
) -> Result<Alt, AllocError>
    ensures is { IfOk result (λ alt. (rest : Arms) → arm alt.pattern (code_of alt.body) rest
        ≡ opening_arm (O.tags of.now) (O.opening of.now) fresh.old.next t.0 (Some tag.now) rest) }
    ensures next { OnOk result (fresh.new.next
        ≡ (O.opening of.now).more + (fresh.old.next + tag.now.fields)) }
{
    let fields = fresh.variables(alloc, tag.fields)?;
    let body = of.body(alloc, fresh, fields.as_slice(), tag)?;
    Ok(Alt {
        pattern: Shape::Node(t, fields),
        body,
    })
}

/// A block that is one operation.
pub fn block_of(alloc: Global, op: Op) -> Result<Block, AllocError>
    ensures { IfOk result (λ b. code_of b ≡ end (act_of op)) }
{
    Ok(Block {
        stmts: Seq::new(alloc),
        last: Box::new(alloc, op)?,
    })
}

/// Variables as words.
pub fn as_words(alloc: Global, vars: &[VarId]) -> Result<Seq<Word>, AllocError>
    ensures { IfOk result (λ words. words ≡ map Var vars.now) }
{
    let mut words = Seq::new(alloc);
    for var in vars {
        words.push(Word::Var(*var))?;
    }
    Ok(words)
}
