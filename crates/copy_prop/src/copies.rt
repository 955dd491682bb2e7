// Which statements are copies, and of what.
#![tactic(auto, using(grin_syntax::proofs::TreeOf::tree_of))]

ghost use Rattle.std.specs.Prelude.{◌≡◌, [], ◌∷◌, length, Some, IfOk};
ghost use Rattle.grin_syntax.specs.Tree.{act_of};
ghost use Rattle.grin_syntax.specs.declared.program.Word.TheVariants.{TagWord};
ghost use Rattle.copy_prop.specs.Copies.{zipped_aliases, zeros_after, of_words, copies_of_node_or_words, copies_of_val, copies_of};

use grin_syntax::{Op, TagId, Target, Val, VarId, Word};
use seq::Seq;
use std::alloc::{AllocError, Global};

/// A variable, and the word that it is a copy of.
#[derive(Clone, Copy, Debug)]
pub(crate) struct Alias {
    pub var: VarId,
    pub word: Word,
}

/// What the variables of a copy are copies of, or none where this is no copy.
pub(crate) fn copies_of(
    alloc: Global,
    target: &Target,
    op: &Op,
) -> Result<Option<Seq<Alias>>, AllocError>
    ensures { IfOk result (λ made. made ≡ copies_of target.now (act_of op.now)) }
{
    match op {
        Op::Unit(v) => copies_of_val(alloc, target, v),
        Op::Fetch(_) => Ok(None),
        Op::FetchWord(_, _) => Ok(None),
        Op::Update(_, _) => Ok(None),
        Op::Eval(_) => Ok(None),
        Op::Apply(_, _) => Ok(None),
        Op::Call(_, _) => Ok(None),
        Op::Prim(_, _, _) => Ok(None),
        Op::Read => Ok(None),
        Op::Write(_) => Ok(None),
        Op::Case(_, _) => Ok(None),
        Op::Nested(_) => Ok(None),
        Op::Fail => Ok(None),
    }
}

fn copies_of_val(alloc: Global, target: &Target, v: &Val) -> Result<Option<Seq<Alias>>, AllocError>
    ensures { IfOk result (λ made. made ≡ copies_of_val target.now v.now) }
{
    match target {
        Target::One(x) => of_words(alloc, &[*x], v),
        Target::Vector(vars) => copies_of_node_or_words(alloc, vars.as_slice(), v),
        Target::Nothing => Ok(None),
        Target::Node(_) => Ok(None),
    }
}

// What the words of a value are given to.
fn of_words(alloc: Global, vars: &[VarId], v: &Val) -> Result<Option<Seq<Alias>>, AllocError>
    ensures { IfOk result (λ made. made ≡ of_words vars.now v.now) }
{
    match v {
        Val::One(word) => zipped_aliases(alloc, vars, &[*word]),
        Val::Vector(words) => zipped_aliases(alloc, vars, words.as_slice()),
        Val::Node(_, _) => Ok(None),
        Val::NodeVar(_) => Ok(None),
    }
}

// The same, where a node is given by its tag, its fields and then zeros.
fn copies_of_node_or_words(
    alloc: Global,
    vars: &[VarId],
    v: &Val,
) -> Result<Option<Seq<Alias>>, AllocError>
    ensures { IfOk result (λ made. made ≡ copies_of_node_or_words vars.now v.now) }
{
    match v {
        Val::Node(tag, fields) => {
            let words = node_words(alloc, vars.len(), *tag, fields.as_slice())?;
            zipped_aliases(alloc, vars, words.as_slice())
        }
        Val::One(_) => of_words(alloc, vars, v),
        Val::Vector(_) => of_words(alloc, vars, v),
        Val::NodeVar(_) => Ok(None),
    }
}

// The tag and the fields of a node, with zeros up to so many words.
fn node_words(
    alloc: Global,
    count: usize,
    tag: TagId,
    fields: &[Word],
) -> Result<Seq<Word>, AllocError>
    ensures { IfOk result (λ words. words ≡ zeros_after count (TagWord tag ∷ fields.now)) }
{
    let mut words = Seq::new(alloc);
    words.push(Word::TagWord(tag))?;
    words.append(Seq::from_slice(alloc, fields)?)?;
    for _ in words.len()..count {
        words.push(Word::Lit(0))?;
    }
    Ok(words)
}

// A word for each variable, where there are as many.
#[tactic(auto, using(crate::proofs::Taken::paired_next))]
fn zipped_aliases(
    alloc: Global,
    vars: &[VarId],
    words: &[Word],
) -> Result<Option<Seq<Alias>>, AllocError>
    ensures { IfOk result (λ made. made ≡ zipped_aliases vars.now words.now) }
{
    if vars.len() != words.len() {
        return Ok(None);
    }
    let mut made = Seq::new(alloc);
    for at in 0..vars.len() {
        made.push(Alias {
            var: vars[at],
            word: words[at],
        })?;
    }
    Ok(Some(made))
}
