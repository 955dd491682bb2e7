//! Listings of stages, and sizes of programs once they are inlined.

ghost use Rattle.std.specs.Prelude.{IfOk};
ghost use Rattle.arity_check.specs.Program.{program};
ghost use Rattle.arity_check.specs.Accepted.{IsValid};

use apply_inline::expanded_size;
use arity_check::check::check;
use arity_check::normal::Checked;
use core_reader::read;
use core_reader::size::size;
use flow_system::system::system;
use grin_opt::PassName;
use grin_stages::{CompileRefusal, stage};
use grin_syntax::list;
use grin_translate::translate;
use points_to::solve;
use seq::Seq;
use std::alloc::{AllocError, Global};
use std::mem;
use std::test::Fail;
use worked_texts::many_delayed;

/// `Nil` and `Cons`, 25 bytes.
pub(crate) const LISTS: &str = "data Nil 0; data Cons 2; ";

/// The normal form of a text that breaks no rule.
pub(crate) fn checked(alloc: Global, text: &str) -> Result<Checked, Fail>
    ensures { IfOk result (λ p. IsValid (program p)) }
{
    let core = read(alloc, text.as_bytes())?;
    Ok(check(alloc, core)?)
}

/// The listing of a stage of a text.
pub(crate) fn listed(alloc: Global, text: &str, after: PassName) -> Result<Vec<u8>, Fail> {
    let p = checked(alloc, text)?;
    let g = stage(alloc, &p, after)?;
    Ok(list(alloc, &g)?)
}

/// The size of a text's program once it is inlined.
fn expanded(alloc: Global, text: &str) -> Result<u64, Fail> {
    let p = checked(alloc, text)?;
    let g = translate(alloc, &p)?;
    let flow = solve(alloc, &system(alloc, &g)?)?;
    Ok(expanded_size(&g, &flow))
}

/// The size of the largest procedure of a text's program once it is inlined: each is measured
/// alone, by the solution of all.
fn largest(alloc: Global, text: &str) -> Result<u64, Fail> {
    let p = checked(alloc, text)?;
    let mut g = translate(alloc, &p)?;
    let flow = solve(alloc, &system(alloc, &g)?)?;
    let procs = mem::replace(&mut g.procs, Seq::new(alloc));
    let mut largest = 0;
    for proc in procs.into_vec() {
        let mut alone = Seq::new(alloc);
        alone.push(proc)?;
        g.procs = alone;
        largest = expanded_size(&g, &flow).max(largest);
    }
    Ok(largest)
}

/// A program with applications, behind the prelude: `k` is given its arguments one at a time.
const APPLIED: &str = "k x y = x; ap f x y = f x y; main = ap k (Cons 65 Nil) Nil;";

/// Its stage in which evaluations and applications are inlined.
const APPLIED_STAGE: &str = "global main = (Fmain)

k v0 v1 =
  v2 <- fetch v0
  case v2 of
    (CCons v3 v4) ->
      unit v2

ap v0 v1 v2 =
  v3 <- fetch v0
  v4 <- case v3 of
    (P2k) ->
      unit v3
  v5 <- case v4 of
    (P2k) ->
      unit (P1k v1)
  case v5 of
    (P1k v6) ->
      call k v6 v2

main =
  store
    v0 = (P2k)
    v1 = (CInt 65)
    v2 = (CNil)
    v3 = (CCons v1 v2)
    v4 = (CNil)
  call ap v0 v3 v4

@print v0 =
  v1 <- fetch v0
  v2 <- case v1 of
    (CNil) ->
      unit v1
    (CCons v3 v4) ->
      unit v1
    (Fmain) ->
      v5 <- call main
      update v0 v5
      unit v5
  case v2 of
    (CNil) ->
      unit (CNil)
    (CCons v6 v7) ->
      v8 <- fetch v6
      v9 <- case v8 of
        (CInt v10) ->
          unit v8
      case v9 of
        (CInt v11) ->
          write v11
          call @print v7
        else ->
          fail
    else ->
      fail
";

#[test]
fn applications_are_cases_over_the_functions_that_they_meet(rt: HostRuntime) -> Result<(), Fail> {
    let alloc = rt.alloc();
    let text = format!(in alloc; "{LISTS}{APPLIED}")?;
    let listing = listed(alloc, text.as_str(), PassName::Apply)?;
    assert_eq!(rt; listing.as_slice(), APPLIED_STAGE.as_bytes());
    Ok(())
}

#[test]
fn texts_have_a_size(rt: HostRuntime) -> Result<(), Fail> {
    let alloc = rt.alloc();
    let text = format!(in alloc; "{LISTS}data T 12; main = Nil;")?;
    let core = read(alloc, text.as_bytes())?;
    assert_eq!(rt; size(&core), 8);
    let p = check(alloc, core)?;
    assert_eq!(rt; p.cons.as_slice().len(), 3);
    assert_eq!(rt; p.funs.as_slice().len(), 1);
    Ok(())
}

#[test]
fn programs_have_a_size_once_inlined(rt: HostRuntime) -> Result<(), Fail> {
    let alloc = rt.alloc();
    let text = format!(in alloc; "{LISTS}main = Nil;")?;
    assert_eq!(rt; expanded(alloc, text.as_str())?, 37);
    assert_eq!(rt; largest(alloc, text.as_str())?, 36);
    for (k, size) in [
        (1, 65),
        (2, 106),
        (3, 165),
        (20, 3922),
        (84, 64722),
        (119, 129157),
    ] {
        let text = many_delayed(alloc, k)?;
        assert_eq!(rt; expanded(alloc, text.as_str())?, size);
    }
    Ok(())
}

#[test]
fn a_large_program_has_its_applications_inlined(rt: HostRuntime) -> Result<(), Fail> {
    let alloc = rt.alloc();
    let text = many_delayed(alloc, 84)?;
    let p = checked(alloc, text.as_str())?;
    // Its 86 functions, and the procedure that prints.
    match stage(alloc, &p, PassName::Apply) {
        Ok(applied) => assert_eq!(rt; applied.procs.len(), 87),
        Err(CompileRefusal::Memory(error)) => return Err(Fail::from(error)),
        Err(CompileRefusal::ExpandedTooLarge(size)) => assert_eq!(rt; size, 64722),
    }
    Ok(())
}

#[test]
fn a_program_that_grows_too_large_has_no_later_stage(rt: HostRuntime) -> Result<(), Fail> {
    let alloc = rt.alloc();
    let text = many_delayed(alloc, 120)?;
    let p = checked(alloc, text.as_str())?;
    // Its 122 functions, and the procedure that prints.
    assert_eq!(rt; stage(alloc, &p, PassName::Translate)?.procs.len(), 123);
    assert!(rt;
        matches!(
            stage(alloc, &p, PassName::Eval),
            Err(CompileRefusal::ExpandedTooLarge(131322))
        )
    );
    Ok(())
}
