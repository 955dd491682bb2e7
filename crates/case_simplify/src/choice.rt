// Which alternative a case takes.
#![tactic(auto, using(grin_syntax::proofs::TreeOf::tree_of))]

ghost use Rattle.std.specs.Prelude.{◌≡◌, ◌&&◌, map, cond, length, Some, None, MatchOption};
ghost use Rattle.grin_syntax.specs.Tree.{end, act_of, arm_of, arms_of, code_of};
ghost use Rattle.case_simplify.specs.Choice.{Takes, Passes, number_verdict, verdict, selected_block, selected_block_by_tag};
ghost use Rattle.grin_meaning.specs.Checks.{is_some_and};
ghost use Rattle.case_simplify.specs.Simple.{is_prefix_val, returned_value, returns_val, all_arms_return, returns_scrutinee};
ghost use Rattle.case_simplify.specs.Chosen.{chosen_body, IsInRange};

use crate::known::Known;
use crate::words::{is_prefix_val, same_val};
use grin_syntax::{Alt, Block, Op, Shape, TagId, Val};

/// What a pattern does with a value.
#[derive(Clone, Copy, Debug)]
pub(crate) enum Verdict {
    Takes,
    Passes,
    /// It hangs on a number that is not known.
    Open,
}

/// What a case does.
#[derive(Clone, Copy, Debug)]
pub(crate) enum Choice {
    /// It takes the alternative with this place.
    Takes(usize),
    /// It takes none, so it never runs.
    Nothing,
    /// It is not known what it does.
    Open,
}

fn number_verdict(k: i32, second: Option<Known>) -> Verdict
    ensures { result ≡ number_verdict k second }
{
    match second {
        Some(Known::Number(i)) => taken_if(k == i),
        Some(Known::Tag(_)) => Verdict::Open,
        None => Verdict::Open,
    }
}

fn taken_if(fits: bool) -> Verdict
    ensures { result ≡ cond fits Takes Passes }
{
    if fits {
        Verdict::Takes
    } else {
        Verdict::Passes
    }
}

fn verdict_of(tag: TagId, second: Option<Known>, pattern: &Shape) -> Verdict
    ensures { result ≡ verdict tag second pattern.now }
{
    match pattern {
        Shape::Node(own, _) => taken_if(tag.0 == own.0),
        Shape::Int(k) => {
            if tag.0 == 0 {
                number_verdict(*k, second)
            } else {
                Verdict::Passes
            }
        }
        Shape::Else => Verdict::Takes,
    }
}

#[tactic(auto, using(crate::proofs::Statements::taken_over))]
fn choose_for(tag: TagId, second: Option<Known>, alts: &[Alt]) -> Choice
    ensures within { IsInRange result (length alts.now) }
    ensures body { chosen_body result alts.now ≡ selected_block tag second (arms_of (map arm_of alts.now)) }
{
    let mut at = 0;
    'alts: for alt in alts {
        match verdict_of(tag, second, &alt.pattern) {
            Verdict::Takes => return Choice::Takes(at),
            Verdict::Passes => {}
            Verdict::Open => return Choice::Open,
        }
        at += 1;
    }
    Choice::Nothing
}

/// What a case does, by what is known of the first words of its value.
pub(crate) fn choose(first: Option<Known>, second: Option<Known>, alts: &[Alt]) -> Choice
    ensures within { IsInRange result (length alts.now) }
    ensures body { chosen_body result alts.now ≡ selected_block_by_tag first second (arms_of (map arm_of alts.now)) }
{
    match first {
        Some(Known::Tag(tag)) => choose_for(tag, second, alts),
        Some(Known::Number(_)) => Choice::Open,
        None => Choice::Open,
    }
}

// The value that a block only gives.
#[tactic(auto, using(grin_syntax::proofs::TreeOf::tree_of, crate::proofs::Statements::none_given))]
fn returned_value(block: &Block) -> Option<&Val>
    ensures { MatchOption result (returned_value (code_of block.now)
        ≡ None) (λ u. returned_value (code_of block.now) ≡ Some u.now) }
{
    if block.stmts.is_empty() {
        unit_of(&block.last)
    } else {
        None
    }
}

fn unit_of(op: &Op) -> Option<&Val>
    ensures { MatchOption result (returned_value (end (act_of op.now))
        ≡ None) (λ u. returned_value (end (act_of op.now)) ≡ Some u.now) }
{
    match op {
        Op::Unit(u) => Some(u),
        Op::Fetch(_) => None,
        Op::FetchWord(_, _) => None,
        Op::Update(_, _) => None,
        Op::Eval(_) => None,
        Op::Apply(_, _) => None,
        Op::Call(_, _) => None,
        Op::Prim(_, _, _) => None,
        Op::Read => None,
        Op::Write(_) => None,
        Op::Case(_, _) => None,
        Op::Nested(_) => None,
        Op::Fail => None,
    }
}

fn returns_val(u: &Val, block: &Block) -> bool
    ensures { result ≡ returns_val u.now (code_of block.now) }
{
    match returned_value(block) {
        Some(own) => same_val(u, own),
        None => false,
    }
}

#[tactic(auto, using(crate::proofs::Statements::returned_over))]
fn all_arms_return(u: &Val, alts: &[Alt]) -> bool
    ensures { result ≡ all_arms_return u.now (arms_of (map arm_of alts.now)) }
{
    'alts: for alt in alts {
        if !returns_val(u, &alt.body) {
            return false;
        }
    }
    true
}

// Whether this block gives back the value of a case, or its first words, and all alternatives the
// same.
fn all_like(v: &Val, block: &Block, alts: &[Alt]) -> bool
    ensures { result ≡ is_some_and (returned_value (code_of block.now)) (λ u.
        is_prefix_val u v.now && all_arms_return u (arms_of (map arm_of alts.now))) }
{
    match returned_value(block) {
        Some(u) => is_prefix_val(u, v) && all_arms_return(u, alts),
        None => false,
    }
}

/// Whether each alternative only gives back the value `v` of its case, or the same first words of
/// it.
pub(crate) fn returns_scrutinee(v: &Val, alts: &[Alt]) -> bool
    ensures { result ≡ returns_scrutinee v.now (arms_of (map arm_of alts.now)) }
{
    match alts.split_first() {
        Some((alt, _)) => all_like(v, &alt.body, alts),
        None => false,
    }
}
