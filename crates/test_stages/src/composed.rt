//! Two passes, one after the other, over the stage with vectors.

ghost use Rattle.arity_check.specs.Program.{program};
ghost use Rattle.arity_check.specs.Accepted.{IsValid};

use crate::tests::{LISTS, checked};
use arity_check::normal::Checked;
use case_simplify::Simplify;
use fetch_passes::Fetches;
use grin_meaning::compose;
use grin_opt::PassName;
use grin_stages::stage;
use grin_syntax::{Grin, list};
use std::alloc::Global;
use std::test::Fail;
use worked_texts::{TAKE_TWICE, TAKE_TWICE_BY_WORDS};

/// The stage with vectors of a program, after its cases were simplified and its fetches split.
fn composed(alloc: Global, p: &Checked) -> Result<Grin, Fail>
    requires { IsValid (program p.now) }
{
    let g = stage(alloc, p, PassName::Vectorise)?;
    let h = compose(alloc, &Simplify, &Fetches, g)?;
    Ok(h)
}

#[test]
fn fetches_are_split_after_cases_are_simplified(rt: HostRuntime) -> Result<(), Fail> {
    let text = format!(in rt.alloc(); "{LISTS}{TAKE_TWICE}")?;
    let p = checked(rt.alloc(), text.as_str())?;
    let g = composed(rt.alloc(), &p)?;
    assert_eq!(rt;
        list(rt.alloc(), &g)?.as_slice(),
        TAKE_TWICE_BY_WORDS.as_bytes()
    );
    Ok(())
}
