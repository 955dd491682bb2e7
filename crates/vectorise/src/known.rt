// What is known of the variables of a program.
#![tactic(auto, using(grin_syntax::proofs::TreeOf::tree_of), unfolding(crate::specs::Known::noted_act))]

ghost use Rattle.std.specs.Prelude.{◌≡◌, slice_get, slice_set, replicate, map, length, IfOk, OnOk};
ghost use Rattle.grin_syntax.specs.Tree.{Code, act_of, before_of, arm_of, arms_of, code_of, procedure_of, program_of};
ghost use Rattle.grin_meaning.specs.Checks.{is_fetch};
ghost use Rattle.vectorise.specs.declared.known.Known.TheVariants.{Plain};
ghost use Rattle.vectorise.specs.Known.{layout_of, table_of, word_or_zero, noted_target, noted_fields, noted_shape, noted_act, noted_code, noted_arms, noted_procs};

use crate::layout::Layout;
use crate::words::field_words;
use grin_syntax::{Alt, Block, Grin, Op, Shape, Stmt, Target, VarId, Word};
use seq::Seq;
use std::alloc::{AllocError, Global};

/// What becomes of a variable: a node variable becomes its vector, a word variable stays or, where
/// a pattern binds it, is a word.
#[derive(Clone, Copy, Debug)]
pub(crate) enum Known {
    /// A word variable that stays, or a node variable that no fetch fills.
    Plain,
    /// A node variable that a fetch fills.
    Fetched,
    /// A field: the word that stands for it.
    Field(Word),
}

/// What is known of each variable, by its number.
pub(crate) fn table(alloc: Global, layout: &Layout, g: &Grin) -> Result<Seq<Known>, AllocError>
    requires { layout.now ≡ layout_of (program_of g.now) }
    ensures { IfOk result (λ k. k ≡ table_of (program_of g.now)) }
{
    let mut known = plain(alloc, layout.base)?;
    for proc in g.procs.as_slice() {
        note_block(alloc, layout, &mut known, &proc.body)?;
    }
    Ok(known)
}

#[tactic(auto, using(crate::proofs::Loops::replicate_push))]
fn plain(alloc: Global, count: u32) -> Result<Seq<Known>, AllocError>
    ensures { IfOk result (λ k. k ≡ replicate count Plain) }
{
    let mut known = Seq::new(alloc);
    for _ in 0..count {
        known.push(Known::Plain)?;
    }
    Ok(known)
}

#[tactic(auto, using(crate::proofs::Loops::set_past))]
fn put(known: &mut Seq<Known>, x: VarId, what: Known)
    ensures { known.new ≡ slice_set known.old x.0 what }
{
    let at = x.0 as usize;
    if at < known.len() {
        known.set(at, what);
    }
}

#[cycle(note)]
fn note_op(
    alloc: Global,
    layout: &Layout,
    known: &mut Seq<Known>,
    op: &Op,
) -> Result<(), AllocError>
    ensures { OnOk result (known.new ≡ noted_act layout.now (act_of op.now) known.old) }
{
    match op {
        Op::Case(v, alts) => {
            let fields = field_words(alloc, layout, known, v)?;
            note_alts(alloc, layout, known, fields.as_slice(), alts.as_slice())?;
            Ok(())
        }
        Op::Nested(block) => {
            note_block(alloc, layout, known, block)?;
            Ok(())
        }
        Op::Unit(_) | Op::Fetch(_) | Op::FetchWord(_, _) | Op::Update(_, _) => Ok(()),
        Op::Eval(_) | Op::Apply(_, _) | Op::Call(_, _) | Op::Prim(_, _, _) => Ok(()),
        Op::Read | Op::Write(_) | Op::Fail => Ok(()),
    }
}

#[cycle(note)]
fn note_alts(
    alloc: Global,
    layout: &Layout,
    known: &mut Seq<Known>,
    fields: &[Word],
    alts: &[Alt],
) -> Result<(), AllocError>
    ensures { OnOk result (known.new
        ≡ noted_arms layout.now fields.now (arms_of (map arm_of alts.now)) known.old) }
{
    for alt in alts {
        note_shape(known, fields, &alt.pattern);
        note_block(alloc, layout, known, &alt.body)?;
    }
    Ok(())
}

#[cycle(note)]
fn note_stmt(
    alloc: Global,
    layout: &Layout,
    known: &mut Seq<Known>,
    stmt: &Stmt,
) -> Result<(), AllocError>
    ensures { OnOk result ((c : Code) → noted_code layout.now c known.new
        ≡ noted_code layout.now (before_of stmt.now c) known.old) }
{
    match stmt {
        Stmt::Store(_) => Ok(()),
        Stmt::Bind(target, op) => {
            note_op(alloc, layout, known, op)?;
            note_target(known, target, fetches_whole_node(op));
            Ok(())
        }
    }
}

#[cycle(note)]
fn note_block(
    alloc: Global,
    layout: &Layout,
    known: &mut Seq<Known>,
    block: &Block,
) -> Result<(), AllocError>
    ensures { OnOk result (known.new ≡ noted_code layout.now (code_of block.now) known.old) }
{
    for stmt in block.stmts.as_slice() {
        note_stmt(alloc, layout, known, stmt)?;
    }
    note_op(alloc, layout, known, &block.last)?;
    Ok(())
}

/// Whether an operation fetches a whole node.
pub(crate) fn fetches_whole_node(op: &Op) -> bool
    ensures { result ≡ is_fetch (act_of op.now) }
{
    match op {
        Op::Fetch(_) => true,
        Op::Case(_, _) => false,
        Op::Nested(_) => false,
        Op::Unit(_) => false,
        Op::FetchWord(_, _) => false,
        Op::Update(_, _) => false,
        Op::Eval(_) => false,
        Op::Apply(_, _) => false,
        Op::Call(_, _) => false,
        Op::Prim(_, _, _) => false,
        Op::Read => false,
        Op::Write(_) => false,
        Op::Fail => false,
    }
}

fn note_target(known: &mut Seq<Known>, target: &Target, fetched: bool)
    ensures { known.new ≡ noted_target fetched target.now known.old }
{
    match target {
        Target::Node(x) => {
            if fetched {
                put(known, *x, Known::Fetched);
            }
        }
        Target::Nothing => {}
        Target::One(_) => {}
        Target::Vector(_) => {}
    }
}

fn note_shape(known: &mut Seq<Known>, fields: &[Word], pattern: &Shape)
    ensures { known.new ≡ noted_shape fields.now pattern.now known.old }
{
    match pattern {
        Shape::Node(_, vars) => note_fields(known, fields, vars.as_slice()),
        Shape::Int(_) => {}
        Shape::Else => {}
    }
}

// The word of a field; one that is never there is zero.
fn word_at(words: &[Word], at: usize) -> Word
    ensures { result ≡ word_or_zero (slice_get words.now at) }
{
    match words.get(at) {
        Some(word) => *word,
        None => Word::Lit(0),
    }
}

fn note_fields(known: &mut Seq<Known>, fields: &[Word], vars: &[VarId])
    ensures { known.new ≡ noted_fields fields.now vars.now known.old }
{
    let mut at = 0;
    'vars: for var in vars {
        put(known, *var, Known::Field(word_at(fields, at)));
        at += 1;
    }
}
