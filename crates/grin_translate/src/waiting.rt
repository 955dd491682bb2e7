//! Which delayed applications and operations a program has.
#![tactic(auto, using(crate::proofs::TermOf::term_of))]

ghost use Rattle.std.specs.Prelude.{◌≡◌, [], ◌∷◌, ◌++◌, map, filter, cond, IfOk};
ghost use Rattle.std.specs.List.{list_any};
ghost use Rattle.arity_check.specs.Program.{program, term, branch, branches_of};
ghost use Rattle.grin_translate.specs.declared.tags.Delay.TheVariants.{Calls, Reads};
ghost use Rattle.grin_translate.specs.Tags.{binds, delays_in, delays_in_branches, delays, is_delayed, takes_input};
ghost use Rattle.seq.specs.Lists.{numbers_from};

use crate::tags::Delay;
use crate::variables::as_u32;
use arity_check::normal::{Body, Bound, Branch, Checked, Flat, Fun, PrimOp};
use std::alloc::{AllocError, Global};

/// Whether a let group binds a form so that it waits.
fn waits(delay: Delay, flat: &Flat) -> bool
    ensures { result ≡ binds delay flat.now }
{
    match flat {
        Flat::Int(_) => false,
        Flat::Con(_, _) => false,
        Flat::Part(_, _) => false,
        Flat::Call(f, _) => match delay {
            Delay::Calls(g) => g == *f,
            Delay::Applies(_) => false,
            Delay::Operates(_) => false,
            Delay::Reads => false,
        },
        Flat::Apply(_, args) => match delay {
            Delay::Calls(_) => false,
            Delay::Applies(m) => m as usize == args.len(),
            Delay::Operates(_) => false,
            Delay::Reads => false,
        },
        Flat::Prim(op, _, _) => match delay {
            Delay::Calls(_) => false,
            Delay::Applies(_) => false,
            Delay::Operates(other) => other as u8 == *op as u8,
            Delay::Reads => false,
        },
    }
}

fn group_has(delay: Delay, group: &[Bound]) -> bool
    ensures { result ≡ list_any (λ b. binds delay b.flat) group.now }
{
    group.iter().any(|bound| waits(delay, &bound.flat))
}

/// Whether a let group of an expression binds such a form.
#[cycle(waiting)]
fn body_has(delay: Delay, body: &Body) -> bool
    ensures { result ≡ delays_in delay (term body.now) }
{
    match body {
        Body::App(_) => false,
        Body::Let(group, inner) => {
            if group_has(delay, group.as_slice()) {
                return true;
            }
            body_has(delay, inner)
        }
        Body::Case(tested, branches) => {
            if body_has(delay, tested) {
                return true;
            }
            branches_have(delay, branches.as_slice())
        }
    }
}

#[cycle(waiting)]
fn branches_have(delay: Delay, branches: &[Branch]) -> bool
    ensures { result ≡ delays_in_branches delay (branches_of (map branch branches.now)) }
{
    for each in branches {
        let inner = match each {
            Branch::Con(_, _, inner) => inner,
            Branch::Int(_, inner) => inner,
            Branch::Default(_, inner) => inner,
        };
        if body_has(delay, inner) {
            return true;
        }
    }
    false
}

fn functions_have(delay: Delay, functions: &[Fun]) -> bool
    ensures { result ≡ list_any (λ f. delays_in delay (term f.body)) functions.now }
{
    functions.iter().any(|f| body_has(delay, &f.body))
}

/// Whether a program delays such a form somewhere.
#[tactic(auto, using(crate::proofs::Delayed::delayed_in))]
fn is_delayed(p: &Checked, delay: Delay) -> bool
    ensures { result ≡ is_delayed (program p.now) delay }
{
    functions_have(delay, p.funs.as_slice())
}

/// Whether `main` has a parameter, the list of the input's bytes.
pub fn takes_input(p: &Checked) -> bool
    ensures { result ≡ takes_input (program p.now) }
{
    match p.funs.get(p.main as usize) {
        Some(main) => main.params != 0,
        None => false,
    }
}

/// The applications and operations that can be delayed, in the order of their tags.
const OTHERS: [Delay; 20] = [
    Delay::Applies(0),
    Delay::Applies(1),
    Delay::Applies(2),
    Delay::Applies(3),
    Delay::Applies(4),
    Delay::Applies(5),
    Delay::Applies(6),
    Delay::Applies(7),
    Delay::Applies(8),
    Delay::Applies(9),
    Delay::Applies(10),
    Delay::Applies(11),
    Delay::Applies(12),
    Delay::Operates(PrimOp::Add),
    Delay::Operates(PrimOp::Sub),
    Delay::Operates(PrimOp::Mul),
    Delay::Operates(PrimOp::Quot),
    Delay::Operates(PrimOp::Rem),
    Delay::Operates(PrimOp::Eq),
    Delay::Operates(PrimOp::Lt),
];

/// Those of some forms that a program has, after others.
fn delayed(p: &Checked, forms: &[Delay], found: Vec<Delay>) -> Result<Vec<Delay>, AllocError>
    ensures { IfOk result (λ ds. ds.items ≡ found.items
        ++ filter (is_delayed (program p.now)) forms.now) }
{
    let mut found = found;
    for delay in forms {
        if is_delayed(p, *delay) {
            found.push(*delay)?;
        }
    }
    Ok(found)
}

fn calls(alloc: Global, functions: u32) -> Result<Vec<Delay>, AllocError>
    ensures { IfOk result (λ ds. ds.items ≡ map Calls (numbers_from 0 functions)) }
{
    let mut found = Vec::new(alloc);
    for f in 0..functions {
        found.push(Delay::Calls(f))?;
    }
    Ok(found)
}

/// The rest of the input after others, where `main` takes it.
fn with_input(p: &Checked, found: Vec<Delay>) -> Result<Vec<Delay>, AllocError>
    ensures { IfOk result (λ ds. ds.items ≡ found.items
        ++ cond (takes_input (program p.now)) (Reads ∷ []) []) }
{
    let mut found = found;
    if takes_input(p) {
        found.push(Delay::Reads)?;
    }
    Ok(found)
}

/// What waits in a program: a call of each function, the delayed applications and operations that
/// it has, and the rest of the input where `main` takes it.
pub fn delays(alloc: Global, p: &Checked) -> Result<Vec<Delay>, AllocError>
    ensures { IfOk result (λ ds. ds.items ≡ delays (program p.now)) }
{
    let functions = as_u32(p.funs.len())?;
    let called = calls(alloc, functions)?;
    let waiting = delayed(p, &OTHERS, called)?;
    with_input(p, waiting)
}
