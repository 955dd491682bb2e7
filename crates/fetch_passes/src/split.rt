// Blocks with their fetches split.
#![tactic(auto, using(grin_syntax::proofs::TreeOf::tree_of), unfolding(crate::specs::Split::split_act, crate::specs::Split::made_act))]

ghost use Rattle.std.specs.Prelude.{◌≡◌, ◌+◌, [], ◌∷◌, cond, length, map, IfOk, OnOk};
ghost use Rattle.grin_syntax.specs.Tree.{Code, end, bind, leaf, fetch, fetch_word, act_of, before_of, code_of, all_before};
ghost use Rattle.grin_syntax.specs.declared.program.Target.TheVariants.{Vector};
ghost use Rattle.fetch_passes.specs.Waits.{deferred_fields_after};
ghost use Rattle.fetch_passes.specs.Notes.{with_own_size, act_trace, code_trace, Here};
ghost use Rattle.fetch_passes.specs.Asked.{SpanCoversBlock};
ghost use Rattle.fetch_passes.specs.Split.{front, front_names, names_after, cell_from, bound, made_act, made_code, split_act, split_code};

use crate::ending::end_with;
use crate::names::{DeferredField, Replacement, as_cells, as_val, as_word, as_words};
use crate::nodes::{front, hide_deferred, words};
use crate::notes::{Notes, Place, Span};
use crate::windows::open_window;
use grin_syntax::copies::{copy_shape, copy_target};
use grin_syntax::fresh::Fresh;
use grin_syntax::{Alt, Block, Op, Stmt, Tag, Target, VarId, Word};
use seq::Seq;
use std::alloc::{AllocError, Global};

// What is known where a block goes on: the names, and the words of a cell that wait for the next
// case.
#[derive(Drop)]
struct Passing {
    names: Seq<Replacement>,
    cell: Word,
    waits: Seq<DeferredField>,
}

// An operation that may change the heap.
fn plain(
    alloc: Global,
    now: &mut Passing,
    target: &Target,
    op: Op,
    made: &mut Seq<Stmt>,
) -> Result<(), AllocError>
    ensures stmts { OnOk result ((c : Code) → all_before (map before_of made.new) c
        ≡ all_before (map before_of made.old) (bind target.now (act_of op) c)) }
    ensures names { OnOk result (now.new.names ≡ now.old.names) }
    ensures cell { OnOk result (now.new.cell ≡ now.old.cell) }
    ensures waits { OnOk result (now.new.waits ≡ []) }
{
    made.push(Stmt::Bind(copy_target(alloc, target)?, op))?;
    now.waits = Seq::new(alloc);
    Ok(())
}

// A fetch of one word.
fn fetch_word(
    alloc: Global,
    target: &Target,
    cell: Word,
    place: u32,
    made: &mut Seq<Stmt>,
) -> Result<(), AllocError>
    ensures { OnOk result ((c : Code) → all_before (map before_of made.new) c
        ≡ all_before (map before_of made.old) (bind target.now (leaf (fetch_word cell place)) c)) }
{
    made.push(Stmt::Bind(copy_target(alloc, target)?, Op::FetchWord(cell, place)))?;
    Ok(())
}

// What waits, for the case that comes next.
fn pass_on(now: &mut Passing, own: bool, cell: Word, waits: Seq<DeferredField>)
    ensures names { now.new.names ≡ now.old.names }
    ensures cell { now.new.cell ≡ cond own cell now.old.cell }
    ensures waits { now.new.waits ≡ cond own waits now.old.waits }
{
    if own {
        now.cell = cell;
        now.waits = waits;
    }
}

// A fetch of a node: of its tag, and of the words that are used outside the alternatives of the
// tag's case.
fn fetch_vector(
    alloc: Global,
    notes: &Notes,
    now: &mut Passing,
    tag: VarId,
    vars: &[VarId],
    cell: Word,
    rest: &[Stmt],
    last: &Op,
    span: Span,
    made: &mut Seq<Stmt>,
) -> Result<(), AllocError>
    requires { SpanCoversBlock notes.now span (all_before (map before_of rest.now) (end (act_of last.now))) }
    ensures stmts { OnOk result ((c : Code) → all_before (map before_of made.new) c
        ≡ all_before (map before_of made.old)
        (bound (leaf (fetch cell)) (Vector (tag ∷ vars.now))
        (all_before (map before_of rest.now) (end (act_of last.now))) c)) }
    ensures names { OnOk result (now.new.names
        ≡ names_after (leaf (fetch cell)) (Vector (tag ∷ vars.now))
        (all_before (map before_of rest.now) (end (act_of last.now))) now.old.names) }
    ensures cell { OnOk result (now.new.cell
        ≡ cell_from (leaf (fetch cell)) (Vector (tag ∷ vars.now))
        (all_before (map before_of rest.now) (end (act_of last.now))) now.old.cell) }
    ensures waits { OnOk result (now.new.waits
        ≡ deferred_fields_after (leaf (fetch cell)) (Vector (tag ∷ vars.now))
        (all_before (map before_of rest.now) (end (act_of last.now))) now.old.waits) }
{
    made.push(Stmt::Bind(Target::One(tag), Op::FetchWord(cell, 0)))?;
    let window = open_window(notes, tag, rest, last, span)?;
    let waits = words(alloc, notes, tag, cell, vars, window, made)?;
    hide_deferred(&mut now.names, waits.as_slice())?;
    pass_on(now, window.owned, cell, waits);
    Ok(())
}

// An operation that is split goes to its target.
fn bind(
    alloc: Global,
    notes: &Notes,
    now: &mut Passing,
    target: &Target,
    op: Op,
    rest: &[Stmt],
    last: &Op,
    span: Span,
    made: &mut Seq<Stmt>,
) -> Result<(), AllocError>
    requires { SpanCoversBlock notes.now span (all_before (map before_of rest.now) (end (act_of last.now))) }
    ensures stmts { OnOk result ((c : Code) → all_before (map before_of made.new) c
        ≡ all_before (map before_of made.old)
        (bound (act_of op) target.now (all_before (map before_of rest.now) (end (act_of last.now)))
        c)) }
    ensures names { OnOk result (now.new.names
        ≡ names_after (act_of op) target.now
        (all_before (map before_of rest.now) (end (act_of last.now))) now.old.names) }
    ensures cell { OnOk result (now.new.cell
        ≡ cell_from (act_of op) target.now
        (all_before (map before_of rest.now) (end (act_of last.now))) now.old.cell) }
    ensures waits { OnOk result (now.new.waits
        ≡ deferred_fields_after (act_of op) target.now
        (all_before (map before_of rest.now) (end (act_of last.now))) now.old.waits) }
{
    match op {
        Op::Fetch(cell) => match target {
            Target::Vector(vars) => match vars.as_slice().split_first() {
                Some((tag, fields)) => {
                    fetch_vector(
                        alloc, notes, now, *tag, fields, cell, rest, last, span, made,
                    )
                }
                None => fetch_word(alloc, target, cell, 0, made),
            },
            Target::Nothing | Target::One(_) | Target::Node(_) => {
                fetch_word(alloc, target, cell, 0, made)
            }
        },
        Op::FetchWord(cell, place) => fetch_word(alloc, target, cell, place, made),
        Op::Unit(v) => plain(alloc, now, target, Op::Unit(v), made),
        Op::Update(w, v) => plain(alloc, now, target, Op::Update(w, v), made),
        Op::Eval(w) => plain(alloc, now, target, Op::Eval(w), made),
        Op::Apply(v, w) => plain(alloc, now, target, Op::Apply(v, w), made),
        Op::Call(f, words) => plain(alloc, now, target, Op::Call(f, words), made),
        Op::Prim(p, a, b) => plain(alloc, now, target, Op::Prim(p, a, b), made),
        Op::Read => plain(alloc, now, target, Op::Read, made),
        Op::Write(w) => plain(alloc, now, target, Op::Write(w), made),
        Op::Case(v, alts) => plain(alloc, now, target, Op::Case(v, alts), made),
        Op::Nested(block) => plain(alloc, now, target, Op::Nested(block), made),
        Op::Fail => plain(alloc, now, target, Op::Fail, made),
    }
}

/// Splits the fetches of a procedure, of which this is noted, in a program with these tags.
#[derive(Drop)]
pub(crate) struct FetchSplitter<'a> {
    pub tags: &'a Seq<Tag>,
    pub notes: &'a Notes,
}

impl FetchSplitter<'_> {
    #[cycle(split)]
    fn op(
        &self,
        alloc: Global,
        fresh: &mut Fresh,
        names: &[Replacement],
        cell: Word,
        waits: &[DeferredField],
        op: &Op,
        here: Place,
    ) -> Result<Op, AllocError>
        requires { Here self.now.notes.now here (with_own_size (act_trace (act_of op.now))) }
        ensures is { IfOk result (λ o. act_of o
            ≡ split_act self.now.tags.now names.now cell waits.now fresh.old.next (act_of op.now)) }
        ensures next { OnOk result (fresh.new.next
            ≡ fresh.old.next + made_act self.now.tags.now waits.now (act_of op.now)) }
    {
        match op {
            Op::Unit(v) => Ok(Op::Unit(as_val(alloc, names, v)?)),
            Op::Fetch(w) => Ok(Op::Fetch(as_word(names, *w))),
            Op::FetchWord(w, i) => Ok(Op::FetchWord(as_word(names, *w), *i)),
            Op::Update(w, v) => Ok(Op::Update(as_word(names, *w), as_val(alloc, names, v)?)),
            Op::Eval(w) => Ok(Op::Eval(as_word(names, *w))),
            Op::Apply(v, w) => Ok(Op::Apply(as_val(alloc, names, v)?, as_word(names, *w))),
            Op::Call(f, words) => Ok(Op::Call(*f, as_words(alloc, names, words.as_slice())?)),
            Op::Prim(p, a, b) => Ok(Op::Prim(*p, as_word(names, *a), as_word(names, *b))),
            Op::Read => Ok(Op::Read),
            Op::Write(w) => Ok(Op::Write(as_word(names, *w))),
            Op::Case(v, alts) => {
                let v = as_val(alloc, names, v)?;
                let mut made = Seq::new(alloc);
                let mut place = self.notes.alts(here)?;
                for alt in alts.as_slice() {
                    made.push(self.alt(alloc, fresh, names, cell, waits, alt, place)?)?;
                    place = self.notes.past(place)?;
                }
                Ok(Op::Case(v, made))
            }
            Op::Nested(block) => {
                let names = Seq::from_slice(alloc, names)?;
                let inner = self.block(alloc, fresh, block, names, cell, Seq::new(alloc), here)?;
                Ok(Op::Nested(Box::new(alloc, inner)?))
            }
            Op::Fail => Ok(Op::Fail),
        }
    }

    // An alternative, with the words that wait and that it uses at its front.
    #[cycle(split)]
    fn alt(
        &self,
        alloc: Global,
        fresh: &mut Fresh,
        names: &[Replacement],
        cell: Word,
        waits: &[DeferredField],
        alt: &Alt,
        here: Place,
    ) -> Result<Alt, AllocError>
        requires { Here self.now.notes.now here (with_own_size (code_trace (code_of alt.now.body))) }
        ensures pattern { IfOk result (λ a. a.pattern ≡ alt.now.pattern) }
        ensures body { IfOk result (λ a. code_of a.body
            ≡ front cell fresh.old.next waits.now (code_of alt.now.body)
            (split_code self.now.tags.now
            (front_names fresh.old.next waits.now (code_of alt.now.body) names.now) cell []
            (fresh.old.next + length waits.now) (code_of alt.now.body))) }
        ensures next { OnOk result (fresh.new.next
            ≡ fresh.old.next + length waits.now + made_code self.now.tags.now []
            (code_of alt.now.body)) }
    {
        let pattern = copy_shape(alloc, &alt.pattern)?;
        let mut inner = Seq::from_slice(alloc, names)?;
        let made = front(
            alloc, self.notes, fresh, &mut inner, cell, waits, &alt.body, here,
        )?;
        let body = self.block(alloc, fresh, &alt.body, inner, cell, made, here)?;
        Ok(Alt { pattern, body })
    }

    // A statement, which goes to those that are made.
    #[cycle(split)]
    fn stmt(
        &self,
        alloc: Global,
        fresh: &mut Fresh,
        now: &mut Passing,
        stmt: &Stmt,
        rest: &[Stmt],
        last: &Op,
        span: Span,
        made: &mut Seq<Stmt>,
    ) -> Result<(), AllocError>
        requires { SpanCoversBlock self.now.notes.now span
            (before_of stmt.now (all_before (map before_of rest.now) (end (act_of last.now)))) }
        ensures is { OnOk result
            (all_before (map before_of made.new)
            (split_code self.now.tags.now now.new.names now.new.cell now.new.waits fresh.new.next
            (all_before (map before_of rest.now) (end (act_of last.now))))
            ≡ all_before (map before_of made.old)
            (split_code self.now.tags.now now.old.names now.old.cell now.old.waits fresh.old.next
            (before_of stmt.now (all_before (map before_of rest.now) (end (act_of last.now)))))) }
        ensures next { OnOk result
            (fresh.new.next + made_code self.now.tags.now now.new.waits
            (all_before (map before_of rest.now) (end (act_of last.now)))
            ≡ fresh.old.next + made_code self.now.tags.now now.old.waits
            (before_of stmt.now (all_before (map before_of rest.now) (end (act_of last.now))))) }
    {
        match stmt {
            Stmt::Store(cells) => {
                let cells = as_cells(alloc, now.names.as_slice(), cells.as_slice())?;
                made.push(Stmt::Store(cells))?;
                now.waits = Seq::new(alloc);
                Ok(())
            }
            Stmt::Bind(target, op) => {
                let names = now.names.as_slice();
                let waits = now.waits.as_slice();
                let op = self.op(alloc, fresh, names, now.cell, waits, op, span.place)?;
                let next = self.notes.rest(span)?;
                bind(alloc, self.notes, now, target, op, rest, last, next, made)?;
                Ok(())
            }
        }
    }

    /// A block, after these statements, with its fetches split; words of the cell may not wait.
    #[cycle(split)]
    pub(crate) fn block(
        &self,
        alloc: Global,
        fresh: &mut Fresh,
        block: &Block,
        names: Seq<Replacement>,
        cell: Word,
        before: Seq<Stmt>,
        here: Place,
    ) -> Result<Block, AllocError>
        requires { Here self.now.notes.now here (with_own_size (code_trace (code_of block.now))) }
        ensures is { IfOk result (λ b. code_of b
            ≡ all_before (map before_of before)
            (split_code self.now.tags.now names cell [] fresh.old.next (code_of block.now))) }
        ensures next { OnOk result (fresh.new.next
            ≡ fresh.old.next + made_code self.now.tags.now [] (code_of block.now)) }
    {
        let mut made = before;
        let mut now = Passing {
            names,
            cell,
            waits: Seq::new(alloc),
        };
        let stmts = block.stmts.as_slice();
        let mut span = self.notes.block(here)?;
        let mut at = 0;
        for stmt in stmts {
            at += 1;
            self.stmt(
                alloc,
                fresh,
                &mut now,
                stmt,
                &stmts[at..],
                &block.last,
                span,
                &mut made,
            )?;
            span = self.notes.rest(span)?;
        }
        let names = now.names.as_slice();
        let op = self.op(
            alloc,
            fresh,
            names,
            now.cell,
            now.waits.as_slice(),
            &block.last,
            span.place,
        )?;
        let last = end_with(alloc, self.tags.as_slice(), fresh, op, &mut made)?;
        Ok(Block {
            stmts: made,
            last: Box::new(alloc, last)?,
        })
    }
}
