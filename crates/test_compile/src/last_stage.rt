//! The code of a program is made of its last stage, and not of an earlier one.

ghost use Rattle.std.specs.Prelude.{◌≡◌, ◌≤◌, length, true, IfOk};
ghost use Rattle.arity_check.specs.Program.{program};
ghost use Rattle.arity_check.specs.Accepted.{IsValid};
ghost use Rattle.grin_syntax.specs.Tree.{program_of};
ghost use Rattle.grin_meaning.specs.Slim.{Slim};
ghost use Rattle.grin_compile.specs.Lowerable.{IsLowerable};

use crate::tests::{CELLS, STACK, built, checked, compiled};
use arity_check::normal::Checked;
use grin_compile::{Options, build, layers_below};
use grin_measure::{Sizes, is_slim, sizes_of};
use grin_opt::PassName;
use grin_stages::stage;
use grin_syntax::Grin;
use std::alloc::Global;
use std::test::Fail;
use vectorised_form::vectorise_takes_inlined;
use worked_texts::QUEENS;

/// Whether a program is slim beside one of these sizes, and not too large.
fn is_small(g: &Grin, sizes: Sizes) -> bool
    ensures program { result ≡ true → sizes.program ≤ 131072 }
    ensures largest { result ≡ true → sizes.largest ≤ sizes.program }
    ensures procs { result ≡ true → length (program_of g.now).procs ≤ sizes.program }
    ensures globals { result ≡ true → length (program_of g.now).globals ≤ 4096 }
    ensures slim { result ≡ true → Slim sizes.program sizes.largest (program_of g.now) }
{
    if sizes.program > 131_072 {
        return false;
    }
    if sizes.largest > sizes.program {
        return false;
    }
    if g.procs.len() as u64 > sizes.program {
        return false;
    }
    if g.globals.len() > 4096 {
        return false;
    }
    is_slim(g, sizes)
}

/// The last stage of a program that is small enough for code to be made of it.
fn last_stage(alloc: Global, p: &Checked) -> Result<Grin, Fail>
    requires { IsValid (program p.now) }
    ensures { IfOk result (λ g. IsLowerable (program_of g)) }
{
    // A law: vectorising takes what is inlined.
    vectorise_takes_inlined();
    let inlined = stage(alloc, p, PassName::Apply)?;
    let last = stage(alloc, p, PassName::Dead)?;
    let small = is_small(&last, sizes_of(&inlined));
    if !small {
        return Err("the last stage is too large".into());
    }
    Ok(last)
}

/// A program whose first function takes a list, which the last stage raises to its two fields.
const HEAD: &str =
    "data Nil 0; data Cons 2; hd c = case c of { Cons h t -> h }; main = case hd (Cons 65 Nil) of { x -> Cons x Nil };";

/// The words that are made of the last stage of a text.
fn code_of_last_stage(alloc: Global, text: &str) -> Result<Vec<u32>, Fail> {
    let p = checked(alloc, text)?;
    let last = last_stage(alloc, &p)?;
    let layers = layers_below(alloc, &last, CELLS, STACK)?;
    Ok(layers.code)
}

/// The words of the image that is built of a text.
fn built_code(alloc: Global, text: &str) -> Result<Vec<u32>, Fail> {
    let p = checked(alloc, text)?;
    let options = Options {
        cells: CELLS,
        stack: STACK,
    };
    match build(alloc, &p, options) {
        Ok(built) => Ok(built.code),
        Err(refusal) => Err(refusal.into()),
    }
}

#[test]
fn code_is_that_of_the_last_stage(rt: HostRuntime) -> Result<(), Fail> {
    let alloc = rt.alloc();
    let code = code_of_last_stage(alloc, HEAD)?;
    let built = built_code(alloc, HEAD)?;
    assert_eq!(rt; built.as_slice(), code.as_slice());
    let made = compiled(alloc, HEAD)?;
    assert_eq!(rt; made.code.as_slice(), code.as_slice());
    // The stage before has one parameter here.
    let first = made.low.procs.get(0).ok_or("no procedure")?;
    assert_eq!(rt; first.params.len(), 2);
    Ok(())
}

#[test]
fn code_of_the_queens_is_that_of_their_last_stage(rt: HostRuntime) -> Result<(), Fail> {
    let alloc = rt.alloc();
    let code = code_of_last_stage(alloc, QUEENS)?;
    let made = built(alloc, QUEENS)?;
    assert_eq!(rt; made.code.as_slice(), code.as_slice());
    Ok(())
}
