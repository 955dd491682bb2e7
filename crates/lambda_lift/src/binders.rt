//! The binders of a let group and of an alternative, and binders that hide what is outside.

ghost use Rattle.std.specs.Prelude.{◌≡◌, ◌++◌, IfOk, map};
ghost use Rattle.lambda_reader.specs.Tree.{NoBinds};
ghost use Rattle.lambda_reader.specs.Code.{group_of, member};
ghost use Rattle.lambda_lift.specs.Headers.{binders_of, bound_by};
ghost use Rattle.lambda_lift.specs.Gathered.{scope_of_binders, first_binder};

use arity_check::scope::Scope;
use core_reader::{Binder, Pattern};
use lambda_reader::Bind;
use seq::Seq;
use std::alloc::{AllocError, Global};

/// The binder of a member of a let group.
#[tactic(auto, using(crate::proofs::Members::first_binder_of))]
fn binder_of(bind: &Bind) -> Binder
    ensures { result ≡ first_binder (member bind.now NoBinds) }
{
    match bind {
        Bind::Value(binder, _) => *binder,
        Bind::Function(binder, _, _) => *binder,
    }
}

/// The binders of a let group.
pub fn binders_of(alloc: Global, group: &[Bind]) -> Result<Seq<Binder>, AllocError>
    ensures { IfOk result (λ made. made ≡ binders_of (group_of (map member group.now))) }
{
    let mut made = Seq::new(alloc);
    for bind in group {
        made.push(binder_of(bind))?;
    }
    Ok(made)
}

/// What a pattern binds.
pub fn bound_by(alloc: Global, pattern: &Pattern) -> Result<Seq<Binder>, AllocError>
    ensures { IfOk result (λ made. made ≡ bound_by pattern.now) }
{
    match pattern {
        Pattern::Con(_, fields) => fields.copied(alloc),
        Pattern::Int(_, _) => Ok(Seq::new(alloc)),
        Pattern::Default(binder) => {
            let mut made = Seq::new(alloc);
            made.push(*binder)?;
            Ok(made)
        }
    }
}

/// Names that are bound inside, with those of binders around them.
pub fn add_bound_names(inside: &mut Scope, binders: &[Binder]) -> Result<(), AllocError>
    ensures { IfOk result (λ _. inside.new ≡ scope_of_binders binders.now ++ inside.old) }
{
    for i in 0..binders.len() {
        let binder = binders[binders.len() - 1 - i];
        inside.bind(binder.name.0, binder.name.0)?;
    }
    Ok(())
}
