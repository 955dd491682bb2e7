// Which vectors may be without some of their words.
#![tactic(auto, using(grin_syntax::proofs::TreeOf::tree_of), unfolding(crate::specs::Narrow::act_fits))]

ghost use Rattle.std.specs.Prelude.{◌≡◌, map, drop, IfOk, true, Some, slice_get};
ghost use Rattle.grin_syntax.specs.Tree.{act_of, arm_of, arms_of, code_of};
ghost use Rattle.points_to.specs.Found.{found};
ghost use Rattle.pass_narrow.specs.Picked.{first_satisfies, is_no_tag, is_no_number_tag, may_go};
ghost use Rattle.pass_narrow.specs.Narrow.{val_fits, act_fits, arms_fit, code_fits, word_selection};

use crate::picked::{picked_words, stay};
use copy_prop::Uses;
use grin_syntax::{Alt, Block, Op, TagId, Target, Val, Word};
use pass_ground::truth::both;
use seq::Seq;
use std::alloc::{AllocError, Global};
use update_special::Tags;

// A word that stands for no tag.
fn is_no_tag(alloc: Global, tags: &Tags, word: Word) -> Result<bool, AllocError>
    ensures { IfOk result (λ b. b ≡ is_no_tag tags.now.count (found tags.now.flow.now) word) }
{
    match word {
        Word::Lit(_) => Ok(true),
        Word::Var(x) => {
            let its = tags.tags_of(alloc, x)?;
            Ok(its.is_empty())
        }
        Word::Global(_) => Ok(true),
        Word::TagWord(_) => Ok(false),
    }
}

// A word that doesn't stand for the tag of numbers.
fn is_no_number_tag(tags: &Tags, word: Word) -> bool
    ensures { result ≡ is_no_number_tag tags.now.count (found tags.now.flow.now) word }
{
    match word {
        Word::Lit(_) => true,
        Word::Var(x) => !tags.flow.holds_tag(x, TagId(0)),
        Word::Global(_) => true,
        Word::TagWord(t) => t.0 != 0,
    }
}

fn first_is_no_tag(alloc: Global, tags: &Tags, words: &[Word]) -> Result<bool, AllocError>
    ensures { IfOk result (λ b. b ≡ first_satisfies (is_no_tag tags.now.count (found tags.now.flow.now))
        words.now) }
{
    match words.first() {
        Some(word) => is_no_tag(alloc, tags, *word),
        None => Ok(true),
    }
}

fn first_is_no_number_tag(tags: &Tags, words: &[Word]) -> bool
    ensures { result ≡ first_satisfies (is_no_number_tag tags.now.count (found tags.now.flow.now))
        words.now }
{
    match words.first() {
        Some(word) => is_no_number_tag(tags, *word),
        None => true,
    }
}

// Whether the words that don't stay may go from these.
fn may_go(alloc: Global, tags: &Tags, stays: &[bool], words: &[Word]) -> Result<bool, AllocError>
    ensures { IfOk result (λ b. b ≡ may_go tags.now.count (found tags.now.flow.now) stays.now
        words.now) }
{
    match stays.first() {
        Some(first) => {
            if *first {
                Ok(may_go_after_first(tags, stays, words))
            } else {
                let kept = picked_words(alloc, stays, words)?;
                first_is_no_tag(alloc, tags, kept.as_slice())
            }
        }
        None => Ok(true),
    }
}

// The same where the first word stays.
fn may_go_after_first(tags: &Tags, stays: &[bool], words: &[Word]) -> bool
    requires { slice_get stays.now 0 ≡ Some true }
    ensures { result ≡ may_go tags.now.count (found tags.now.flow.now) stays.now words.now }
{
    match stays.get(1) {
        Some(second) => {
            if *second {
                true
            } else {
                first_is_no_number_tag(tags, words)
            }
        }
        None => first_is_no_number_tag(tags, words),
    }
}

fn val_fits(alloc: Global, tags: &Tags, stays: &[bool], v: &Val) -> Result<bool, AllocError>
    ensures { IfOk result (λ b. b ≡ val_fits tags.now.count (found tags.now.flow.now) stays.now
        v.now) }
{
    match v {
        Val::NodeVar(_) => Ok(false),
        Val::Node(_, _) => Ok(false),
        Val::Vector(words) => may_go(alloc, tags, stays, words.as_slice()),
        Val::One(_) => Ok(false),
    }
}

// Whether each end is a unit of a vector of which the other words may go, or fails.
#[cycle(fits)]
fn op_fits(alloc: Global, tags: &Tags, stays: &[bool], op: &Op) -> Result<bool, AllocError>
    ensures { IfOk result (λ b. b ≡ act_fits tags.now.count (found tags.now.flow.now) stays.now
        (act_of op.now)) }
{
    match op {
        Op::Unit(v) => val_fits(alloc, tags, stays, v),
        Op::Case(_, alts) => alts_fit(alloc, tags, stays, alts.as_slice()),
        Op::Nested(block) => block_fits(alloc, tags, stays, block),
        Op::Fail => Ok(true),
        Op::Fetch(_) => Ok(false),
        Op::FetchWord(_, _) => Ok(false),
        Op::Update(_, _) => Ok(false),
        Op::Eval(_) => Ok(false),
        Op::Apply(_, _) => Ok(false),
        Op::Call(_, _) => Ok(false),
        Op::Prim(_, _, _) => Ok(false),
        Op::Read => Ok(false),
        Op::Write(_) => Ok(false),
    }
}

#[cycle(fits)]
fn alts_fit(alloc: Global, tags: &Tags, stays: &[bool], alts: &[Alt]) -> Result<bool, AllocError>
    ensures { IfOk result (λ b. b ≡ arms_fit tags.now.count (found tags.now.flow.now) stays.now
        (arms_of (map arm_of alts.now))) }
{
    let mut fit = true;
    for alt in alts {
        fit = both(fit, block_fits(alloc, tags, stays, &alt.body)?);
    }
    Ok(fit)
}

#[cycle(fits)]
fn block_fits(alloc: Global, tags: &Tags, stays: &[bool], block: &Block) -> Result<bool, AllocError>
    ensures { IfOk result (λ b. b ≡ code_fits tags.now.count (found tags.now.flow.now) stays.now
        (code_of block.now)) }
{
    let fits = op_fits(alloc, tags, stays, &block.last)?;
    Ok(fits)
}

/// Which words stay of what an operation gives to a target, where its variables that were used
/// after the first so many uses are read; or `None` where all do.
pub(crate) fn word_selection(
    alloc: Global,
    tags: &Tags,
    uses: &Uses,
    from: u64,
    target: &Target,
    op: &Op,
) -> Result<Option<Seq<bool>>, AllocError>
    ensures { IfOk result (λ p. p ≡ word_selection tags.now.count (found tags.now.flow.now) target.now
        (act_of op.now) (drop from uses.now)) }
{
    match target {
        Target::Nothing => Ok(None),
        Target::Node(_) => Ok(None),
        Target::One(_) => Ok(None),
        Target::Vector(xs) => {
            let stays = stay(alloc, uses, from, xs.as_slice())?;
            if op_fits(alloc, tags, stays.as_slice(), op)? {
                Ok(Some(stays))
            } else {
                Ok(None)
            }
        }
    }
}
