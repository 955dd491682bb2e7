// Programs in which `number` gives its number, and `start` binds it.

use grin_syntax::list;
use grin_text::{ReadError, program};
use std::alloc::{AllocError, Global};
use std::test::Fail;
use unbox::with_unboxed_numbers;

const NUMBER: &str = "\
tags CInt/1 CA/0
words
global main = (CA)

number v0 =
  v1 <- fetch v0 0
  case [v1] of
    (CA) ->
      unit (CInt 5)
    else ->
      call again v0

again v0 =
";

const START: &str = "
start v0 =
  [v1 v2 v3] <- call number v0
  write v2
  unit [#CA]
";

const UNBOXED: &str = "\
global main = (CA)

number v0 =
  v1 <- fetch v0 0
  case [v1] of
    (CA) ->
      unit 5
    else ->
      call again v0

again v0 =
  call number v0

start v0 =
  v1 <- call number v0
  [v2 v3] <- unit [#CInt 0]
  write v1
  unit [#CA]
";

// The listing of the program whose `again` ends in this, and of what the pass makes of it.
fn listed(alloc: Global, again: &str) -> Result<(Vec<u8>, Vec<u8>), ReadError> {
    let text = format!(in alloc; "{NUMBER}  {again}\n{START}")?;
    let g = program(alloc, text.as_str())?;
    let before = list(alloc, &g)?;
    let after = list(alloc, &with_unboxed_numbers(alloc, g)?)?;
    Ok((before, after))
}

#[test]
fn numbers_are_given_without_their_tag(rt: HostRuntime) -> Result<(), Fail> {
    let (_before, after) = listed(rt.alloc(), "call number v0")?;
    assert_eq!(rt; after.as_slice(), UNBOXED.as_bytes());
    Ok(())
}

#[test]
fn a_caller_that_gives_more_keeps_all_as_they_are(rt: HostRuntime) -> Result<(), Fail> {
    let (before, after) = listed(rt.alloc(), "unit [#CA]")?;
    assert_eq!(rt; after.as_slice(), before.as_slice());
    Ok(())
}
