//! A stage with vectors in place of node variables, which was worked by hand.

use crate::tests::{LISTS, listed};
use grin_opt::PassName;
use std::test::Fail;

/// A program in which a delayed call has three fields, and a value two at most, behind the prelude.
const DELAYED: &str = "first a b c = a; main = Cons 65 (first Nil Nil Nil);";

/// Its stage: a fetch fills a vector of four words, and all else vectors of three.
const DELAYED_STAGE: &str = "global main = (Fmain)

first v0 v1 v2 =
  [v3 v4 v5 v6] <- fetch v0
  case [v3 v4 v5 v6] of
    (CNil) ->
      unit [v3 v4 v5]

main =
  store
    v0 = (CInt 65)
    v1 = (CNil)
    v2 = (CNil)
    v3 = (CNil)
    v4 = (Ffirst v1 v2 v3)
  unit (CCons v0 v4)

@print v0 =
  [v1 v2 v3 v4] <- fetch v0
  [v5 v6 v7] <- case [v1 v2 v3 v4] of
    (CNil) ->
      unit [v1 v2 v3]
    (CCons) ->
      unit [v1 v2 v3]
    (Ffirst) ->
      [v8 v9 v10] <- call first v2 v3 v4
      update v0 [v8 v9 v10]
      unit [v8 v9 v10]
    (Fmain) ->
      [v11 v12 v13] <- call main
      update v0 [v11 v12 v13]
      unit [v11 v12 v13]
  case [v5 v6 v7] of
    (CNil) ->
      unit (CNil)
    (CCons) ->
      [v14 v15 v16 v17] <- fetch v6
      [v18 v19 v20] <- case [v14 v15 v16 v17] of
        (CInt) ->
          unit [v14 v15 v16]
      case [v18 v19 v20] of
        (CInt) ->
          write v19
          call @print v7
        else ->
          fail
    else ->
      fail
";

#[test]
fn fetches_fill_longer_vectors(rt: HostRuntime) -> Result<(), Fail> {
    let alloc = rt.alloc();
    let text = format!(in alloc; "{LISTS}{DELAYED}")?;
    let listing = listed(alloc, text.as_str(), PassName::Vectorise)?;
    assert_eq!(rt; listing.as_slice(), DELAYED_STAGE.as_bytes());
    Ok(())
}
