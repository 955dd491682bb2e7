// The words of a node that is fetched: those that are fetched directly after its tag, and those
// that wait for the alternatives of its case.
#![tactic(auto, using(grin_syntax::proofs::TreeOf::tree_of))]

ghost use Rattle.std.specs.Prelude.{◌≡◌, ◌++◌, [], ◌∷◌, cond, ◌+◌, suc, length, map, IfOk, OnOk};
ghost use Rattle.grin_syntax.specs.declared.program.Word.TheVariants.{Lit};
ghost use Rattle.grin_syntax.specs.Tree.{Code, before_of, code_of, all_before};
ghost use Rattle.grin_syntax.specs.Fresh.{variable};
ghost use Rattle.pass_ground.specs.Uses.{code_uses};
ghost use Rattle.fetch_passes.specs.Notes.{Here, with_own_size, code_trace};
ghost use Rattle.fetch_passes.specs.Asked.{IsWindow};
ghost use Rattle.fetch_passes.specs.Names.{with_hidden, named_if};
ghost use Rattle.fetch_passes.specs.Waits.{deferred_fields_of};
ghost use Rattle.fetch_passes.specs.Split.{fetched_if, word_fetches, front, front_names};

use crate::names::{DeferredField, Replacement};
use crate::notes::{Notes, Place};
use crate::windows::{Window, outside};
use grin_syntax::fresh::Fresh;
use grin_syntax::{Block, Op, Stmt, Target, VarId, Word};
use seq::Seq;
use std::alloc::{AllocError, Global};

// A fetch of a word, where it is wanted.
fn fetched_if(
    wanted: bool,
    var: VarId,
    cell: Word,
    place: u32,
    made: &mut Seq<Stmt>,
) -> Result<(), AllocError>
    ensures { OnOk result ((c : Code) → all_before (map before_of made.new) c
        ≡ all_before (map before_of made.old) (fetched_if wanted var cell place c)) }
{
    if wanted {
        made.push(Stmt::Bind(Target::One(var), Op::FetchWord(cell, place)))?;
    }
    Ok(())
}

fn named_if(
    used: bool,
    var: VarId,
    by: VarId,
    names: &mut Seq<Replacement>,
) -> Result<(), AllocError>
    ensures { OnOk result (names.new ≡ named_if used var by.0 names.old) }
{
    if used {
        names.push(Replacement {
            var,
            word: Word::Var(by),
        })?;
    }
    Ok(())
}

fn wait_unless(
    kept: bool,
    var: VarId,
    place: u32,
    waits: &mut Seq<DeferredField>,
) -> Result<(), AllocError>
    ensures { OnOk result (waits.new ≡ waits.old
        ++ cond kept [] (record { var = var; place = place } ∷ [])) }
{
    if !kept {
        waits.push(DeferredField { var, place })?;
    }
    Ok(())
}

// A word at the front of an alternative, which begins here: it is fetched into a new variable where
// the alternative uses it.
fn front_word(
    notes: &Notes,
    fresh: &mut Fresh,
    names: &mut Seq<Replacement>,
    cell: Word,
    wait: DeferredField,
    body: &Block,
    here: Place,
    made: &mut Seq<Stmt>,
) -> Result<(), AllocError>
    requires { Here notes.now here (with_own_size (code_trace (code_of body.now))) }
    ensures stmts { OnOk result ((c : Code) → all_before (map before_of made.new) c
        ≡ all_before (map before_of made.old)
        (fetched_if (code_uses wait.var.0 (code_of body.now)) (variable fresh.old.next) cell
        wait.place c)) }
    ensures names { OnOk result (names.new
        ≡ named_if (code_uses wait.var.0 (code_of body.now)) wait.var fresh.old.next names.old) }
    ensures next { OnOk result (fresh.new.next ≡ suc fresh.old.next) }
{
    let var = fresh.variable()?;
    let used = notes.block_uses(wait.var, body, here)?;
    fetched_if(used, var, cell, wait.place, made)?;
    named_if(used, wait.var, var, names)?;
    Ok(())
}

/// The fetches at the front of an alternative, which begins here, of the words that wait and that
/// it uses.
pub(crate) fn front(
    alloc: Global,
    notes: &Notes,
    fresh: &mut Fresh,
    names: &mut Seq<Replacement>,
    cell: Word,
    waits: &[DeferredField],
    body: &Block,
    here: Place,
) -> Result<Seq<Stmt>, AllocError>
    requires { Here notes.now here (with_own_size (code_trace (code_of body.now))) }
    ensures stmts { IfOk result (λ ss. (c : Code) → all_before (map before_of ss) c
        ≡ front cell fresh.old.next waits.now (code_of body.now) c) }
    ensures names { OnOk result (names.new
        ≡ front_names fresh.old.next waits.now (code_of body.now) names.old) }
    ensures next { OnOk result (fresh.new.next ≡ fresh.old.next + length waits.now) }
{
    let mut made = Seq::new(alloc);
    for wait in waits {
        front_word(notes, fresh, names, cell, *wait, body, here, &mut made)?;
    }
    Ok(made)
}

// A word of a node: it is fetched directly after the tag where it is used outside the alternatives
// of the tag's case.
fn node_word(
    kept: bool,
    cell: Word,
    var: VarId,
    at: usize,
    made: &mut Seq<Stmt>,
    waits: &mut Seq<DeferredField>,
) -> Result<(), AllocError>
    ensures stmts { OnOk result ((c : Code) → all_before (map before_of made.new) c
        ≡ all_before (map before_of made.old) (fetched_if kept var cell at c)) }
    ensures waits { OnOk result (waits.new ≡ waits.old
        ++ cond kept [] (record { var = var; place = at } ∷ [])) }
{
    let Ok(place) = u32::try_from(at) else {
        return Err(AllocError);
    };
    fetched_if(kept, var, cell, place, made)?;
    wait_unless(kept, var, place, waits)?;
    Ok(())
}

/// The fetches directly after the tag `tag`, of the words that these variables stand for, by a
/// window on the block that follows; the words that wait are the answer.
pub(crate) fn words(
    alloc: Global,
    notes: &Notes,
    tag: VarId,
    cell: Word,
    vars: &[VarId],
    window: Window,
    made: &mut Seq<Stmt>,
) -> Result<Seq<DeferredField>, AllocError>
    ensures stmts { OnOk result ((b : Code) → IsWindow notes.now tag.0 b window → (c : Code)
        → all_before (map before_of made.new) c
        ≡ all_before (map before_of made.old) (word_fetches tag.0 b cell 1 vars.now c)) }
    ensures waits { IfOk result (λ ws. (b : Code) → IsWindow notes.now tag.0 b window
        → ws ≡ deferred_fields_of tag.0 b 1 vars.now) }
{
    let mut waits = Seq::new(alloc);
    for at in 0..vars.len() {
        let kept = outside(notes, tag, vars[at], window);
        node_word(kept, cell, vars[at], at + 1, made, &mut waits)?;
    }
    Ok(waits)
}

/// Hides what waits: 0 stands for it.
pub(crate) fn hide_deferred(
    names: &mut Seq<Replacement>,
    waits: &[DeferredField],
) -> Result<(), AllocError>
    ensures { OnOk result (names.new ≡ with_hidden waits.now names.old) }
{
    for wait in waits {
        names.push(Replacement {
            var: wait.var,
            word: Word::Lit(0),
        })?;
    }
    Ok(())
}
