// Listings of programs, and of what becomes of them once their evaluations are inlined.

use crate::listings::listing_in;
use eval_inline::inline;
use flow_system::system::system;
use grin_syntax::list;
use grin_text::{ReadError, program};
use points_to::solve;
use std::alloc::{AllocError, Global};
use std::test::Fail;
use worked_texts::{TAKE_TWICE_INLINED, TAKE_TWICE_TRANSLATED};

// Evaluations of a global cell, at the end of a nested block and at the end of the procedure.
const SEVENS: &str = "\
tags CInt/1 Fseven/0
global seven = (Fseven)

seven =
  unit (CInt 7)

start =
  v0 <- do
    eval seven
  eval seven
";

const GLOBAL: &str = "\
global seven = (Fseven)

seven =
  unit (CInt 7)

start =
  v0 <- do
    v1 <- fetch seven
    case v1 of
      (CInt v2) ->
        unit v1
      (Fseven) ->
        v3 <- call seven
        update seven v3
        unit v3
  v4 <- fetch seven
  case v4 of
    (CInt v5) ->
      unit v4
    (Fseven) ->
      v6 <- call seven
      update seven v6
      unit v6
";

const WITHOUT_EVALUATIONS: &str = "\
tags CInt/1 Fseven/0
global seven = (Fseven)

seven =
  unit (CInt 7)

start =
  call seven
";

// The translation of the program that takes a list twice, with its tags.
pub(crate) fn take_twice(alloc: Global) -> Result<String, AllocError> {
    format!(in alloc; "tags CInt/1 CNil/0 CCons/2 Ftake/1 Fmain/0\n{TAKE_TWICE_TRANSLATED}")
}

// The listing of a text's program.
fn listed(alloc: Global, text: &str) -> Result<Vec<u8>, ReadError> {
    Ok(list(alloc, &program(alloc, text)?)?)
}

// The listing of a text's program once its evaluations are inlined.
fn inlined(alloc: Global, text: &str) -> Result<Vec<u8>, ReadError> {
    let g = program(alloc, text)?;
    let flow = solve(alloc, &system(alloc, &g)?)?;
    Ok(list(alloc, &inline(alloc, g, &flow)?)?)
}

#[test]
fn texts_are_read_as_they_are_listed(rt: HostRuntime) -> Result<(), Fail> {
    let takes = take_twice(rt.alloc())?;
    for text in [takes.as_str(), SEVENS, WITHOUT_EVALUATIONS] {
        let listing = listed(rt.alloc(), text)?;
        assert_eq!(rt; listing.as_slice(), listing_in(text), "{text}");
    }
    Ok(())
}

#[test]
fn evaluations_are_inlined(rt: HostRuntime) -> Result<(), Fail> {
    let takes = take_twice(rt.alloc())?;
    for (text, after) in [(takes.as_str(), TAKE_TWICE_INLINED), (SEVENS, GLOBAL)] {
        assert_eq!(rt; inlined(rt.alloc(), text)?.as_slice(), after.as_bytes());
    }
    Ok(())
}

#[test]
fn nothing_to_inline(rt: HostRuntime) -> Result<(), Fail> {
    let before = listed(rt.alloc(), WITHOUT_EVALUATIONS)?;
    let after = inlined(rt.alloc(), WITHOUT_EVALUATIONS)?;
    assert_eq!(rt; after.as_slice(), before.as_slice());
    Ok(())
}
