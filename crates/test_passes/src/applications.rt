// Listings of programs, what becomes of them once their evaluations and applications are inlined,
// and their sizes then.

use crate::evaluations::take_twice;
use crate::listings::listing_in;
use apply_inline::{expanded_size, inline};
use flow_system::system::system;
use grin_syntax::list;
use grin_text::{ReadError, program};
use points_to::solve;
use std::alloc::Global;
use std::test::Fail;
use worked_texts::EMPTY_TRANSLATED;

//     data Nil 0; data Cons 2;
//     k a b = a;
//     app f x = f x;
// where a start gives `k` to `app` twice, one argument at a time.
const GIVES: &str = "\
tags CInt/1 CNil/0 CCons/2 Fapp/2 P2k/0 P1k/1

k v0 v1 =
  eval v0

app v0 v1 =
  v2 <- eval v0
  apply v2 v1

start =
  store
    v0 = (CNil)
    v1 = (P2k)
    v2 = (Fapp v1 v0)
  call app v2 v0
";

const GIVEN: &str = "
k v0 v1 =
  v2 <- fetch v0
  case v2 of
    (CNil) ->
      unit v2

app v0 v1 =
  v2 <- fetch v0
  v3 <- case v2 of
    (CNil) ->
      unit v2
    (Fapp v4 v5) ->
      v6 <- call app v4 v5
      update v0 v6
      unit v6
    (P2k) ->
      unit v2
    (P1k v7) ->
      unit v2
  case v3 of
    (P2k) ->
      unit (P1k v1)
    (P1k v8) ->
      call k v8 v1
    else ->
      fail

start =
  store
    v0 = (CNil)
    v1 = (P2k)
    v2 = (Fapp v1 v0)
  call app v2 v0
";

// The listing of a text's program once its evaluations are inlined, and once its applications are
// inlined too.
fn inlined(alloc: Global, text: &str) -> Result<(Vec<u8>, Vec<u8>), ReadError> {
    let g = program(alloc, text)?;
    let flow = solve(alloc, &system(alloc, &g)?)?;
    let evaluated = eval_inline::inline(alloc, g, &flow)?;
    let before = list(alloc, &evaluated)?;
    let after = list(alloc, &inline(alloc, evaluated, &flow)?)?;
    Ok((before, after))
}

// The size of a text's program once it is inlined.
fn size(alloc: Global, text: &str) -> Result<u64, ReadError> {
    let g = program(alloc, text)?;
    let flow = solve(alloc, &system(alloc, &g)?)?;
    Ok(expanded_size(&g, &flow))
}

#[test]
fn functions_given_one_argument_at_a_time(rt: HostRuntime) -> Result<(), Fail> {
    let (_before, after) = inlined(rt.alloc(), GIVES)?;
    assert_eq!(rt; after.as_slice(), GIVEN.as_bytes());
    Ok(())
}

#[test]
fn nothing_is_applied(rt: HostRuntime) -> Result<(), Fail> {
    let takes = take_twice(rt.alloc())?;
    let (before, after) = inlined(rt.alloc(), takes.as_str())?;
    assert_eq!(rt; after.as_slice(), before.as_slice());
    Ok(())
}

// The texts are read as they are listed. The sizes were added up by hand.
#[test]
fn sizes_before_inlining(rt: HostRuntime) -> Result<(), Fail> {
    let empty = format!(in rt.alloc(); "tags CInt/1 CNil/0 CCons/2 Fmain/0\n{EMPTY_TRANSLATED}")?;
    let takes = take_twice(rt.alloc())?;
    for (text, wanted) in [(empty.as_str(), 37), (GIVES, 55), (takes.as_str(), 100)] {
        let listing = list(rt.alloc(), &program(rt.alloc(), text)?)?;
        assert_eq!(rt; listing.as_slice(), listing_in(text));
        assert_eq!(rt; size(rt.alloc(), text)?, wanted);
    }
    Ok(())
}
