// Which words of a vector stay.
#![tactic(auto)]

ghost use Rattle.std.specs.Prelude.{◌≡◌, drop, false, get_or, IfOk};
ghost use Rattle.pass_narrow.specs.Picked.{picked, stay};
ghost use Rattle.pass_narrow.specs.Narrow.{picked_val, picked_target};

use copy_prop::Uses;
use grin_syntax::{Target, Val, VarId, Word};
use seq::Seq;
use std::alloc::{AllocError, Global};

/// The words that stay.
pub(crate) fn picked_words(
    alloc: Global,
    stays: &[bool],
    items: &[Word],
) -> Result<Seq<Word>, AllocError>
    ensures { IfOk result (λ made. made ≡ picked stays.now items.now) }
{
    let mut made = Seq::new(alloc);
    let mut at: usize = 0;
    'items: for item in items {
        let here = at;
        at += 1;
        if stays_at(stays, here) {
            made.push(*item)?;
        }
    }
    Ok(made)
}

/// The variables that stay.
pub(crate) fn picked_vars(
    alloc: Global,
    stays: &[bool],
    items: &[VarId],
) -> Result<Seq<VarId>, AllocError>
    ensures { IfOk result (λ made. made ≡ picked stays.now items.now) }
{
    let mut made = Seq::new(alloc);
    let mut at: usize = 0;
    'items: for item in items {
        let here = at;
        at += 1;
        if stays_at(stays, here) {
            made.push(*item)?;
        }
    }
    Ok(made)
}

fn stays_at(stays: &[bool], at: usize) -> bool
    ensures { result ≡ get_or stays.now at false }
{
    match stays.get(at) {
        Some(stays) => *stays,
        None => false,
    }
}

/// A value of which these words stay.
pub(crate) fn picked_val(
    alloc: Global,
    stays: &Option<Seq<bool>>,
    v: Val,
) -> Result<Val, AllocError>
    ensures { IfOk result (λ u. u ≡ picked_val stays.now v) }
{
    match stays {
        Some(stays) => match v {
            Val::NodeVar(x) => Ok(Val::NodeVar(x)),
            Val::Node(t, words) => Ok(Val::Node(t, words)),
            Val::Vector(words) => {
                Ok(Val::Vector(picked_words(alloc, stays.as_slice(), words.as_slice())?))
            }
            Val::One(word) => Ok(Val::One(word)),
        },
        None => Ok(v),
    }
}

/// A target of which these variables stay.
pub(crate) fn picked_target(
    alloc: Global,
    stays: &Option<Seq<bool>>,
    target: Target,
) -> Result<Target, AllocError>
    ensures { IfOk result (λ t. t ≡ picked_target stays.now target) }
{
    match stays {
        Some(stays) => match target {
            Target::Nothing => Ok(Target::Nothing),
            Target::Node(x) => Ok(Target::Node(x)),
            Target::One(x) => Ok(Target::One(x)),
            Target::Vector(xs) => {
                Ok(Target::Vector(picked_vars(alloc, stays.as_slice(), xs.as_slice())?))
            }
        },
        None => Ok(target),
    }
}

/// Which variables were used after the first so many uses.
pub(crate) fn stay(
    alloc: Global,
    uses: &Uses,
    from: u64,
    xs: &[VarId],
) -> Result<Seq<bool>, AllocError>
    ensures { IfOk result (λ bs. bs ≡ stay (drop from uses.now) xs.now) }
{
    let mut made = Seq::new(alloc);
    'xs: for x in xs {
        made.push(uses.used_after(from, *x))?;
    }
    Ok(made)
}
