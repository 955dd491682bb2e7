// A fetch of a whole node that ends a block: its words, and a case that gives the node of each tag.
#![tactic(auto, using(grin_syntax::proofs::TreeOf::tree_of))]

ghost use Rattle.std.specs.Prelude.{◌≡◌, ◌+◌, [], suc, map, take, IfOk, OnOk};
ghost use Rattle.grin_syntax.specs.declared.program.Word.TheVariants.{Var};
ghost use Rattle.grin_syntax.specs.declared.program.Target.TheVariants.{One};
ghost use Rattle.grin_syntax.specs.declared.program.Val.TheVariants as val;
ghost use Rattle.grin_syntax.specs.declared.program.Shape.TheVariants as shape;
ghost use Rattle.grin_syntax.specs.Tags.{tag_id};
ghost use Rattle.grin_syntax.specs.Tree.{Code, end, bind, leaf, unit, fetch_word, act_of, before_of, arms_of, arm_of, all_before};
ghost use Rattle.grin_syntax.specs.Fresh.{variables};
ghost use Rattle.grin_meaning.specs.Ready.{most_fields};
ghost use Rattle.fetch_passes.specs.Split.{fetch_all_words, node_arms, whole_node, end_with, new_variables_of_end};

use grin_syntax::fresh::Fresh;
use grin_syntax::{Alt, Block, Op, Shape, Stmt, Tag, TagId, Target, Val, VarId, Word};
use node_sizes::most_fields;
use seq::Seq;
use std::alloc::{AllocError, Global};

fn as_words(alloc: Global, vars: &[VarId]) -> Result<Seq<Word>, AllocError>
    ensures { IfOk result (λ words. words ≡ map Var vars.now) }
{
    let mut words = Seq::new(alloc);
    for var in vars {
        words.push(Word::Var(*var))?;
    }
    Ok(words)
}

fn word_fetch(cell: Word, var: VarId, at: usize, made: &mut Seq<Stmt>) -> Result<(), AllocError>
    ensures { OnOk result ((c : Code) → all_before (map before_of made.new) c
        ≡ all_before (map before_of made.old) (bind (One var) (leaf (fetch_word cell at)) c)) }
{
    let Ok(place) = u32::try_from(at) else {
        return Err(AllocError);
    };
    made.push(Stmt::Bind(Target::One(var), Op::FetchWord(cell, place)))?;
    Ok(())
}

// A fetch of each word, the tag first.
fn fetch_all_words(cell: Word, vars: &[VarId], made: &mut Seq<Stmt>) -> Result<(), AllocError>
    ensures { OnOk result ((c : Code) → all_before (map before_of made.new) c
        ≡ all_before (map before_of made.old) (fetch_all_words cell 0 vars.now c)) }
{
    for at in 0..vars.len() {
        word_fetch(cell, vars[at], at, made)?;
    }
    Ok(())
}

fn first_vars(alloc: Global, vars: &[VarId], count: usize) -> Result<Seq<Word>, AllocError>
    ensures { IfOk result (λ words. words ≡ map Var (take count vars.now)) }
{
    let count = count.min(vars.len());
    as_words(alloc, &vars[..count])
}

// The node of a tag, with as many of these variables as it has fields.
fn node_alt(alloc: Global, at: usize, tag: &Tag, vars: &[VarId]) -> Result<Alt, AllocError>
    ensures { IfOk result (λ a. arm_of a
        ≡ (
          shape.Node (tag_id at) [],
          end
              (leaf (unit (val.Node (tag_id at) (map Var (take tag.now.fields vars.now))))),
        )) }
{
    let Ok(number) = u32::try_from(at) else {
        return Err(AllocError);
    };
    let words = first_vars(alloc, vars, tag.fields as usize)?;
    let pattern = Shape::Node(TagId(number), Seq::new(alloc));
    let given = Op::Unit(Val::Node(TagId(number), words));
    let body = Block {
        stmts: Seq::new(alloc),
        last: Box::new(alloc, given)?,
    };
    Ok(Alt { pattern, body })
}

fn node_alts(alloc: Global, tags: &[Tag], vars: &[VarId]) -> Result<Seq<Alt>, AllocError>
    ensures { IfOk result (λ alts. arms_of (map arm_of alts) ≡ node_arms vars.now 0 tags.now) }
{
    let mut alts = Seq::new(alloc);
    for at in 0..tags.len() {
        alts.push(node_alt(alloc, at, &tags[at], vars)?)?;
    }
    Ok(alts)
}

/// The words of the node in a cell, and the case that gives the node.
fn whole_node(
    alloc: Global,
    tags: &[Tag],
    fresh: &mut Fresh,
    cell: Word,
    made: &mut Seq<Stmt>,
) -> Result<Op, AllocError>
    ensures is { IfOk result (λ o. all_before (map before_of made.new) (end (act_of o))
        ≡ all_before (map before_of made.old) (whole_node tags.now fresh.old.next cell)) }
    ensures next { OnOk result (fresh.new.next ≡ fresh.old.next + suc (most_fields tags.now)) }
{
    let most = most_fields(tags);
    let tag = fresh.variable()?;
    let fields = fresh.variables(alloc, most)?;
    let alts = node_alts(alloc, tags, fields.as_slice())?;
    let mut vars = Seq::new(alloc);
    vars.push(tag)?;
    vars.append(fields)?;
    fetch_all_words(cell, vars.as_slice(), made)?;
    let words = as_words(alloc, vars.as_slice())?;
    Ok(Op::Case(Val::Vector(words), alts))
}

/// The operation at the end of a block, where a fetch of a whole node becomes a case.
pub(crate) fn end_with(
    alloc: Global,
    tags: &[Tag],
    fresh: &mut Fresh,
    op: Op,
    made: &mut Seq<Stmt>,
) -> Result<Op, AllocError>
    ensures is { IfOk result (λ o. all_before (map before_of made.new) (end (act_of o))
        ≡ all_before (map before_of made.old) (end_with tags.now fresh.old.next (act_of op))) }
    ensures next { OnOk result (fresh.new.next ≡ fresh.old.next + new_variables_of_end tags.now (act_of op)) }
{
    match op {
        Op::Fetch(cell) => whole_node(alloc, tags, fresh, cell, made),
        Op::Unit(v) => Ok(Op::Unit(v)),
        Op::FetchWord(w, i) => Ok(Op::FetchWord(w, i)),
        Op::Update(w, v) => Ok(Op::Update(w, v)),
        Op::Eval(w) => Ok(Op::Eval(w)),
        Op::Apply(v, w) => Ok(Op::Apply(v, w)),
        Op::Call(f, words) => Ok(Op::Call(f, words)),
        Op::Prim(p, a, b) => Ok(Op::Prim(p, a, b)),
        Op::Read => Ok(Op::Read),
        Op::Write(w) => Ok(Op::Write(w)),
        Op::Case(v, alts) => Ok(Op::Case(v, alts)),
        Op::Nested(block) => Ok(Op::Nested(block)),
        Op::Fail => Ok(Op::Fail),
    }
}
