// Programs whose variables have numbers in no order, and their listings.

use grin_syntax::fresh::Fresh;
use grin_syntax::{VarId, copy, list};
use grin_text::program;
use std::test::Fail;
use worked_texts::EMPTY_TRANSLATED;

// What the translation makes of `data Nil 0; data Cons 2; main = Nil;`, with other numbers for its
// variables.
const PRINTING: &str = "\
tags CInt/1 CNil/0 CCons/2 Fmain/0
global main = (Fmain)

main =
  unit (CNil)

@print v9 =
  v7 <- eval v9
  case v7 of
    (CNil) ->
      unit (CNil)
    (CCons v2 v3) ->
      v20 <- eval v2
      case v20 of
        (CInt v8) ->
          write v8
          call @print v3
        else ->
          fail
    else ->
      fail
";

// Each operation, target, value and pattern.
const ALL: &str = "\
tags CInt/1 CPair/2 Ff/2 P1f/1
global g = (Ff)

f v30 v20 =
  store
    v5 = (CPair v4 g)
    v4 = (CInt -5)
  v6 <- fetch v5
  v7 <- fetch v5 1
  [v81 v80] <- unit [#CPair v7 7]
  update v5 v6
  v9 <- eval v30
  v10 <- apply v9 v4
  v11 <- call f v30 v20
  v50 <- read
  write v50
  v61 <- do
    v60 <- sub v7 v50
    mul v60 3
  v62 <- case v9 of
    (CPair v71 v70) ->
      unit (P1f v71)
    (CInt -7) ->
      fail
    else ->
      quot v61 v50
  unit v62

h =
  v3 <- add 1 2
  v2 <- rem v3 0
  v1 <- eq v2 v3
  lt v1 -2147483648
";

const ALL_LISTED: &str = "\
global g = (Ff)

f v0 v1 =
  store
    v2 = (CPair v3 g)
    v3 = (CInt -5)
  v4 <- fetch v2
  v5 <- fetch v2 1
  [v6 v7] <- unit [#CPair v5 7]
  update v2 v4
  v8 <- eval v0
  v9 <- apply v8 v3
  v10 <- call f v0 v1
  v11 <- read
  write v11
  v12 <- do
    v13 <- sub v5 v11
    mul v13 3
  v14 <- case v8 of
    (CPair v15 v16) ->
      unit (P1f v15)
    (CInt -7) ->
      fail
    else ->
      quot v12 v11
  unit v14

h =
  v0 <- add 1 2
  v1 <- rem v0 0
  v2 <- eq v1 v0
  lt v2 -2147483648
";

#[test]
fn listings_are_as_written(rt: HostRuntime) -> Result<(), Fail> {
    for (text, listing) in [(PRINTING, EMPTY_TRANSLATED), (ALL, ALL_LISTED)] {
        let g = program(rt.alloc(), text)?;
        assert_eq!(rt; list(rt.alloc(), &g)?.as_slice(), listing.as_bytes());
    }
    Ok(())
}

#[test]
fn a_copy_has_the_same_listing(rt: HostRuntime) -> Result<(), Fail> {
    let copied = copy(rt.alloc(), &program(rt.alloc(), ALL)?)?;
    assert_eq!(rt;
        list(rt.alloc(), &copied)?.as_slice(),
        ALL_LISTED.as_bytes()
    );
    Ok(())
}

// The first procedure binds no variable past number 81, so that those of the second one have the
// numbers 83 to 85.
#[test]
fn fresh_variables_follow_all_others(rt: HostRuntime) -> Result<(), Fail> {
    let mut procs = program(rt.alloc(), ALL)?.procs.into_vec();
    let mut fresh = Fresh::past(procs.as_slice());
    assert_eq!(rt; fresh.variable()?, VarId(86));
    procs.reverse();
    let mut fresh = Fresh::past(procs.as_slice());
    let more = fresh.variables(rt.alloc(), 2)?;
    assert_eq!(rt; more.as_slice(), [VarId(86), VarId(87)].as_slice());
    Ok(())
}
