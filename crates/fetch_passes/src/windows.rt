// The case on a node's tag that comes next after its fetch, other fetches aside.
#![tactic(auto, using(grin_syntax::proofs::TreeOf::tree_of), unfolding(crate::specs::Windows::owns, crate::specs::Windows::outside, pass_ground::specs::Uses::act_mentions))]

ghost use Rattle.std.specs.Prelude.{◌≡◌, ◌||◌, ◌&&◌, ℕ, Bool, true, false, cond, nat_eq, map, slice_get, Some, None, IfOk};
ghost use Rattle.grin_syntax.specs.declared.program.Val.TheVariants.{Vector};
ghost use Rattle.grin_syntax.specs.Tree.{Code, act_of, before_of, arms_of, arm_of, all_before, end};
ghost use Rattle.pass_ground.specs.Uses.{word_is};
ghost use Rattle.fetch_passes.specs.Windows.{begins_with, is_int, tests_number, vector_uses, is_case_on_tag, is_passed, decides, outside};
ghost use Rattle.fetch_passes.specs.Notes.{Trace};
ghost use Rattle.fetch_passes.specs.Asked.{SpanCoversBlock, is_var, IsWindow, FetchesSkipped, BeginsWithAct};

use crate::notes::{Notes, Span};
use grin_syntax::{Alt, Op, Shape, Stmt, Val, VarId, Word};
use pass_ground::truth::either;
use pass_ground::uses::word_is;
use std::alloc::AllocError;

fn word_at(words: &[Word], at: usize) -> Option<Word>
    ensures { result ≡ slice_get words.now at }
{
    match words.get(at) {
        Some(word) => Some(*word),
        None => None,
    }
}

#[tactic(auto, using(crate::proofs::Firsts::begins_some, crate::proofs::Firsts::begins_none))]
fn vector_begins(t: VarId, v: &Val, words: &[Word]) -> bool
    requires { v.now ≡ Vector words.now }
    ensures { result ≡ begins_with t.0 v.now }
{
    match word_at(words, 0) {
        Some(word) => word_is(t, word),
        None => false,
    }
}

// The value is a vector with this variable first.
fn begins_with(t: VarId, v: &Val) -> bool
    ensures { result ≡ begins_with t.0 v.now }
{
    match v {
        Val::Vector(words) => vector_begins(t, v, words.as_slice()),
        Val::NodeVar(_) => false,
        Val::Node(_, _) => false,
        Val::One(_) => false,
    }
}

fn is_int(pattern: &Shape) -> bool
    ensures { result ≡ is_int pattern.now }
{
    match pattern {
        Shape::Int(_) => true,
        Shape::Node(_, _) => false,
        Shape::Else => false,
    }
}

fn tests_number(alts: &[Alt]) -> bool
    ensures { result ≡ tests_number (arms_of (map arm_of alts.now)) }
{
    let mut tests = false;
    for alt in alts {
        tests = either(tests, is_int(&alt.pattern));
    }
    tests
}

fn is_same(x: VarId, y: VarId) -> bool
    ensures { result ≡ nat_eq x.0 y.0 }
{
    x.0 == y.0
}

fn is_tested(tested: Option<VarId>, x: VarId) -> bool
    ensures { result ≡ is_var x.0 tested }
{
    match tested {
        Some(y) => is_same(y, x),
        None => false,
    }
}

fn op_owns(t: VarId, op: &Op) -> bool
    ensures { result ≡ is_case_on_tag t.0 (act_of op.now) }
{
    match op {
        Op::Case(v, _) => begins_with(t, v),
        Op::Unit(_) => false,
        Op::Fetch(_) => false,
        Op::FetchWord(_, _) => false,
        Op::Update(_, _) => false,
        Op::Eval(_) => false,
        Op::Apply(_, _) => false,
        Op::Call(_, _) => false,
        Op::Prim(_, _, _) => false,
        Op::Read => false,
        Op::Write(_) => false,
        Op::Nested(_) => false,
        Op::Fail => false,
    }
}

fn is_passed(op: &Op) -> bool
    ensures { result ≡ is_passed (act_of op.now) }
{
    match op {
        Op::Fetch(_) => true,
        Op::FetchWord(_, _) => true,
        Op::Case(_, _) => false,
        Op::Unit(_) => false,
        Op::Update(_, _) => false, // the cell may have another node then
        Op::Eval(_) => false,
        Op::Apply(_, _) => false,
        Op::Call(_, _) => false,
        Op::Prim(_, _, _) => false,
        Op::Read => false,
        Op::Write(_) => false,
        Op::Nested(_) => false,
        Op::Fail => false,
    }
}

fn if_else(test: bool, yes: bool, no: bool) -> bool
    ensures { result ≡ cond test yes no }
{
    if test { yes } else { no }
}

// The word after the tag, where patterns test it and it is a variable.
fn tested_word(tests: bool, word: Word) -> Option<VarId>
    ensures { (x : ℕ) → is_var x result ≡ (tests && word_is x word) }
{
    if !tests {
        return None;
    }
    match word {
        Word::Var(y) => Some(y),
        Word::Lit(_) => None,
        Word::Global(_) => None,
        Word::TagWord(_) => None,
    }
}

// The variable that decides a case on a vector, beside the tag.
#[tactic(auto)]
fn tested_by(words: &[Word], tests: bool) -> Option<VarId>
    ensures { (t x : ℕ) → begins_with t (Vector words.now) ≡ true
        → vector_uses tests x (Vector words.now) ≡ (nat_eq t x || is_var x result) }
{
    match word_at(words, 1) {
        Some(word) => tested_word(tests, word),
        None => None,
    }
}

// The variable that decides which alternative of a case is taken, beside the tag.
fn tested(op: &Op) -> Option<VarId>
    ensures { (t x : ℕ) → is_case_on_tag t (act_of op.now) ≡ true
        → decides x (act_of op.now) ≡ (nat_eq t x || is_var x result) }
{
    match op {
        Op::Case(v, alts) => match v {
            Val::Vector(words) => tested_by(words.as_slice(), tests_number(alts.as_slice())),
            Val::NodeVar(_) => None,
            Val::Node(_, _) => None,
            Val::One(_) => None,
        },
        Op::Unit(_) => None,
        Op::Fetch(_) => None,
        Op::FetchWord(_, _) => None,
        Op::Update(_, _) => None,
        Op::Eval(_) => None,
        Op::Apply(_, _) => None,
        Op::Call(_, _) => None,
        Op::Prim(_, _, _) => None,
        Op::Read => None,
        Op::Write(_) => None,
        Op::Nested(_) => None,
        Op::Fail => None,
    }
}

/// Where a variable is used outside the alternatives of the case on a tag: where that case comes
/// next, up to it, as what decides there, and after it; and else anywhere in the block.
#[derive(Clone, Copy, Debug)]
pub(crate) struct Window {
    /// The case comes next.
    pub owned: bool,
    pub from: u32,
    pub case: u32,
    pub after: u32,
    pub end: u32,
    /// The variable that decides there beside the tag.
    pub tested: Option<VarId>,
}

// The window where the case does not come next.
fn unowned(span: Span) -> Window
    ensures { result ≡ record { owned = false; from = span.place.at; case = span.place.at; after = span.end; end = span.end; tested = None } }
{
    Window {
        owned: false,
        from: span.place.at,
        case: span.place.at,
        after: span.end,
        end: span.end,
        tested: None,
    }
}

// The window on the block that begins at `span`, where fetches were passed and this operation comes
// next.
fn window_at(
    notes: &Notes,
    tag: VarId,
    op: &Op,
    span: Span,
    now: Span,
) -> Result<Window, AllocError>
    ensures { IfOk result (λ w. (whole left : Code) (r : Trace)
        → FetchesSkipped notes.now tag.0 whole span now left → BeginsWithAct tag.0 (act_of op.now) left r
        → IsWindow notes.now tag.0 whole w) }
{
    if !op_owns(tag, op) {
        return Ok(unowned(span));
    }
    let after = notes.past(now.place)?;
    Ok(Window {
        owned: true,
        from: span.place.at,
        case: now.place.at,
        after: after.at,
        end: span.end,
        tested: tested(op),
    })
}

/// The window on these statements and the operation at their end, for the case on the vector of
/// `tag`.
pub(crate) fn open_window(
    notes: &Notes,
    tag: VarId,
    stmts: &[Stmt],
    last: &Op,
    span: Span,
) -> Result<Window, AllocError>
    requires { SpanCoversBlock notes.now span (all_before (map before_of stmts.now) (end (act_of last.now))) }
    ensures { IfOk result (λ w. IsWindow notes.now tag.0
        (all_before (map before_of stmts.now) (end (act_of last.now))) w) }
{
    let mut now = span;
    for stmt in stmts {
        match stmt {
            Stmt::Store(_) => return Ok(unowned(span)),
            Stmt::Bind(_, op) => {
                if !is_passed(op) {
                    let window = window_at(notes, tag, op, span, now)?;
                    return Ok(window);
                }
            }
        }
        now = notes.rest(now)?;
    }
    let window = window_at(notes, tag, last, span, now)?;
    Ok(window)
}

/// The variable `x` is used in the block outside the alternatives of the case on `tag`.
pub(crate) fn outside(notes: &Notes, tag: VarId, x: VarId, window: Window) -> bool
    ensures { (c : Code) → IsWindow notes.now tag.0 c window → result ≡ outside tag.0 x.0 c }
{
    let all = notes.within(x, window.from, window.end);
    let before = notes.within(x, window.from, window.case);
    let after = notes.within(x, window.after, window.end);
    let decides = either(is_same(tag, x), is_tested(window.tested, x));
    if_else(window.owned, either(before, either(decides, after)), all)
}
