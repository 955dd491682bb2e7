// Calls of procedures whose parameters are raised.
#![tactic(auto, using(grin_syntax::proofs::TreeOf::tree_of))]

ghost use Rattle.std.specs.Prelude.{◌≡◌, ◌++◌, [], ◌∷◌, ◌+◌, suc, map, IfOk, OnOk};
ghost use Rattle.grin_syntax.specs.declared.program.Word.TheVariants.{Var};
ghost use Rattle.grin_syntax.specs.declared.program.Target.TheVariants.{One};
ghost use Rattle.grin_syntax.specs.Tree.{Code, bind, leaf, fetch_word, before_of, all_before};
ghost use Rattle.grin_syntax.specs.Fresh.{variable, variables};
ghost use Rattle.raise_theory.specs.Raising.{field_fetches, argument_for, arguments_for, fetches_for, new_variables_of, new_variables_for};

use crate::params::decision_at;
use grin_syntax::fresh::Fresh;
use grin_syntax::{Op, Stmt, Target, Word};
use raise_theory::Raising;
use seq::Seq;
use std::alloc::{AllocError, Global};

// A field of a cell, fetched into a new variable, which is an argument.
fn put_field(
    fresh: &mut Fresh,
    cell: Word,
    at: u32,
    made: &mut Seq<Stmt>,
    args: &mut Seq<Word>,
) -> Result<(), AllocError>
    ensures stmts { OnOk result ((c : Code) → all_before (map before_of made.new) c
        ≡ all_before (map before_of made.old)
        (bind (One (variable fresh.old.next)) (leaf (fetch_word cell at)) c)) }
    ensures args { OnOk result (args.new ≡ args.old ++ Var (variable fresh.old.next) ∷ []) }
    ensures next { OnOk result (fresh.new.next ≡ suc fresh.old.next) }
{
    let var = fresh.variable()?;
    made.push(Stmt::Bind(Target::One(var), Op::FetchWord(cell, at)))?;
    args.push(Word::Var(var))?;
    Ok(())
}

// The first fields of a cell, so many.
fn put_fields(
    fresh: &mut Fresh,
    cell: Word,
    count: u32,
    made: &mut Seq<Stmt>,
    args: &mut Seq<Word>,
) -> Result<(), AllocError>
    ensures stmts { OnOk result ((c : Code) → all_before (map before_of made.new) c
        ≡ all_before (map before_of made.old) (field_fetches cell fresh.old.next 0 count c)) }
    ensures args { OnOk result (args.new ≡ args.old ++ map Var (variables fresh.old.next count)) }
    ensures next { OnOk result (fresh.new.next ≡ fresh.old.next + count) }
{
    for i in 0..count {
        put_field(fresh, cell, i + 1, made, args)?;
    }
    Ok(())
}

// An argument, or the fields of its cell.
fn put_argument(
    fresh: &mut Fresh,
    decision: Option<Raising>,
    word: Word,
    made: &mut Seq<Stmt>,
    args: &mut Seq<Word>,
) -> Result<(), AllocError>
    ensures stmts { OnOk result ((c : Code) → all_before (map before_of made.new) c
        ≡ all_before (map before_of made.old)
        (field_fetches word fresh.old.next 0 (new_variables_of decision) c)) }
    ensures args { OnOk result (args.new ≡ args.old ++ argument_for fresh.old.next decision word) }
    ensures next { OnOk result (fresh.new.next ≡ fresh.old.next + new_variables_of decision) }
{
    match decision {
        Some(raising) => put_fields(fresh, word, raising.fields, made, args)?,
        None => args.push(word)?,
    }
    Ok(())
}

/// The arguments of a call, by what is decided of the parameters; the fields of cells are fetched
/// before it.
pub(crate) fn arguments(
    alloc: Global,
    fresh: &mut Fresh,
    decisions: &[Option<Raising>],
    words: &[Word],
    made: &mut Seq<Stmt>,
) -> Result<Seq<Word>, AllocError>
    ensures stmts { OnOk result ((c : Code) → all_before (map before_of made.new) c
        ≡ all_before (map before_of made.old)
        (fetches_for fresh.old.next decisions.now words.now c)) }
    ensures args { IfOk result (λ ws. ws ≡ arguments_for fresh.old.next decisions.now words.now) }
    ensures next { OnOk result (fresh.new.next ≡ fresh.old.next + new_variables_for decisions.now words.now) }
{
    let mut args = Seq::new(alloc);
    for at in 0..words.len() {
        put_argument(
            fresh,
            decision_at(decisions, at),
            words[at],
            made,
            &mut args,
        )?;
    }
    Ok(args)
}
