//! The last stage of two programs, which were worked by hand: what the passes behind `raise` keep.

use crate::tests::{LISTS, listed};
use grin_opt::PassName;
use std::test::Fail;
use worked_texts::{QUEENS, TAKE_TWICE};

/// The last stage of the program that takes a list twice, in which these passes find nothing to do.
/// No block is nested. A cell of `take` may be `Nil`, `Cons` or a delayed call, a result `Nil` or
/// `Cons`, so no tag is known of either. The cell `v13` leaves in a node, those of `main` in one
/// another and in the argument of a call: none is known to be the procedure's own where it is
/// fetched. The words of a result are read under `Cons`.
const TAKES_LAST: &str = "global main = (Fmain)

take v0 =
  v1 <- fetch v0 0
  [v2 v3 v4] <- case [v1 0 0] of
    (CNil) ->
      v5 <- fetch v0 1
      v6 <- fetch v0 2
      unit [#CNil v5 v6]
    (CCons) ->
      v7 <- fetch v0 1
      v8 <- fetch v0 2
      unit [#CCons v7 v8]
    (Ftake) ->
      v9 <- fetch v0 1
      [v10 v11 v12] <- call take v9
      case [v10 v11 v12] of
        (CNil) ->
          update v0 [#CNil v11 v12]
        (CCons) ->
          update v0 [#CCons v11 v12]
      unit [v10 v11 v12]
  case [v2 v3 v4] of
    (CNil) ->
      unit (CNil)
    (CCons) ->
      store
        v13 = (Ftake v4)
      unit (CCons v3 v13)

main =
  store
    v0 = (CInt 65)
    v1 = (CNil)
    v2 = (CCons v0 v1)
    v3 = (Ftake v2)
  call take v3

@print v0 =
  v1 <- fetch v0 0
  [v2 v3 v4] <- case [v1 0 0] of
    (CNil) ->
      v5 <- fetch v0 1
      v6 <- fetch v0 2
      unit [#CNil v5 v6]
    (CCons) ->
      v7 <- fetch v0 1
      v8 <- fetch v0 2
      unit [#CCons v7 v8]
    (Ftake) ->
      v9 <- fetch v0 1
      [v10 v11 v12] <- call take v9
      case [v10 v11 v12] of
        (CNil) ->
          update v0 [#CNil v11 v12]
        (CCons) ->
          update v0 [#CCons v11 v12]
      unit [v10 v11 v12]
    (Fmain) ->
      [v13 v14 v15] <- call main
      case [v13 v14 v15] of
        (CNil) ->
          update v0 [#CNil v14 v15]
        (CCons) ->
          update v0 [#CCons v14 v15]
      unit [v13 v14 v15]
  case [v2 v3 v4] of
    (CNil) ->
      unit (CNil)
    (CCons) ->
      v16 <- fetch v3 0
      v17 <- fetch v3 1
      v18 <- fetch v3 2
      case [v16 v17 v18] of
        (CInt) ->
          write v17
          call @print v4
        else ->
          fail
";

/// The front of the last stage of the eight queens, up to the end of `safe`. What `raise` leaves of
/// it has 181 lines. In them each test is a nested block that gives `(CInt v)` and is looked at at
/// once; each of them is laid flat, so that `eq` is followed by the case over its number. A result
/// of `eight`, `@add` and `@sub` is a number, whose tag is `CInt`: the case over that tag around
/// each update goes, and the update writes the literal tag. What is evaluated is looked at for its
/// number alone, so of its three words one is given, and the fetch of the word past it goes. The
/// cells of `add q d` and `sub q d` are the procedure's own, and are stored, updated and fetched by
/// it alone: their tag is known where they are fetched, they are called at once, and no cell is
/// left to store. The cell of `add d one` leaves in the call of `safe`, and stays.
const SAFE_LAST: &str = "global one = (Fone)
global eight = (Feight)
global ten = (Ften)
global main = (Fmain)

one =
  unit 1

eight =
  unit 8

ten =
  unit 10

safe v0 v1 v2 =
  v3 <- fetch v2 0
  v4 <- fetch v2 1
  v5 <- fetch v2 2
  case [v3 v4 v5] of
    (CNil) ->
      unit 1
    (CCons) ->
      v6 <- fetch v4 0
      [v7] <- case [v6 0 0 0] of
        (CInt) ->
          v8 <- fetch v4 1
          unit [v8]
        (Feight) ->
          v9 <- call eight
          update v4 [#CInt v9 0]
          unit [v9]
        (F@sub) ->
          v10 <- fetch v4 1
          v11 <- fetch v4 2
          v12 <- call @sub v10 v11
          update v4 [#CInt v12 0]
          unit [v12]
      v13 <- fetch v0 0
      [v14] <- case [v13 0 0 0] of
        (CInt) ->
          v15 <- fetch v0 1
          unit [v15]
        (Feight) ->
          v16 <- call eight
          update v0 [#CInt v16 0]
          unit [v16]
        (F@sub) ->
          v17 <- fetch v0 1
          v18 <- fetch v0 2
          v19 <- call @sub v17 v18
          update v0 [#CInt v19 0]
          unit [v19]
      v20 <- eq v7 v14
      case [#CInt v20 0] of
        (CInt 1) ->
          unit 0
        else ->
          v21 <- fetch v4 0
          [v22] <- case [v21 0 0 0] of
            (CInt) ->
              v23 <- fetch v4 1
              unit [v23]
            (Feight) ->
              v24 <- call eight
              update v4 [#CInt v24 0]
              unit [v24]
            (F@sub) ->
              v25 <- fetch v4 1
              v26 <- fetch v4 2
              v27 <- call @sub v25 v26
              update v4 [#CInt v27 0]
              unit [v27]
          v28 <- call @add v0 v1
          v29 <- eq v22 v28
          case [#CInt v29 0] of
            (CInt 1) ->
              unit 0
            else ->
              v30 <- fetch v4 0
              [v31] <- case [v30 0 0 0] of
                (CInt) ->
                  v32 <- fetch v4 1
                  unit [v32]
                (Feight) ->
                  v33 <- call eight
                  update v4 [#CInt v33 0]
                  unit [v33]
                (F@sub) ->
                  v34 <- fetch v4 1
                  v35 <- fetch v4 2
                  v36 <- call @sub v34 v35
                  update v4 [#CInt v36 0]
                  unit [v36]
              v37 <- call @sub v0 v1
              v38 <- eq v31 v37
              case [#CInt v38 0] of
                (CInt 1) ->
                  unit 0
                else ->
                  store
                    v39 = (F@add v1 one)
                  call safe v0 v39 v5
    else ->
      fail
";

/// The function that `ap` is given stands in a cell with a delayed call of `id`, or with `cons` and
/// an argument, a value. The tag of `id` is the first one of both.
const APPLIED_LATER: &str =
    "cons x y = Cons x y; id x = x; ap f x = f x; main = ap (id (cons 65)) Nil;";

/// The front of its last stage, up to the end of `ap`. The first case of `ap` tests for the value
/// before it tests for the delayed call. A solution doesn't tell whose field word 1 of the cell is,
/// so `id` may be given the number, and then its result has two tags.
const AP_LAST: &str = "global main = (Fmain)

cons v0 v1 =
  unit (CCons v0 v1)

id v0 =
  v1 <- fetch v0 0
  v2 <- fetch v0 1
  v3 <- fetch v0 2
  unit [v1 v2 v3]

ap v0 v1 =
  v2 <- fetch v0 0
  [v3 v4 v5] <- case [v2 0 0] of
    (P1cons) ->
      v6 <- fetch v0 1
      v7 <- fetch v0 2
      unit [#P1cons v6 v7]
    (Fid) ->
      v8 <- fetch v0 1
      [v9 v10 v11] <- call id v8
      case [v9 v10 v11] of
        (CInt) ->
          update v0 [#CInt v10 v11]
        (P1cons) ->
          update v0 [#P1cons v10 v11]
      unit [v9 v10 v11]
  case [v3 v4 v5] of
    (P1cons) ->
      call cons v4 v1
";

#[test]
fn takes_keeps_what_leaves(rt: HostRuntime) -> Result<(), Fail> {
    let alloc = rt.alloc();
    let text = format!(in alloc; "{LISTS}{TAKE_TWICE}")?;
    let listing = listed(alloc, text.as_str(), PassName::Dead)?;
    assert_eq!(rt; listing.as_slice(), TAKES_LAST.as_bytes());
    Ok(())
}

#[test]
fn safe_keeps_one_cell(rt: HostRuntime) -> Result<(), Fail> {
    let listing = listed(rt.alloc(), QUEENS, PassName::Dead)?;
    assert!(rt; listing.as_slice().starts_with(SAFE_LAST.as_bytes()));
    Ok(())
}

#[test]
fn values_are_tested_for_first(rt: HostRuntime) -> Result<(), Fail> {
    let alloc = rt.alloc();
    let text = format!(in alloc; "{LISTS}{APPLIED_LATER}")?;
    let listing = listed(alloc, text.as_str(), PassName::Dead)?;
    assert!(rt; listing.as_slice().starts_with(AP_LAST.as_bytes()));
    Ok(())
}
