// A program with copies and idle statements.

use crate::listings::listing_in;
use copy_prop::{with_copies_unused, without_idle};
use grin_syntax::list;
use grin_text::program;
use std::test::Fail;

// v1, v2 and v3 are copies, v3 in a nested block of v2. The fetch of v4 serves the idle sum v5
// alone, so that both go; the fetch of v6 is written in the nested block. The second write stays,
// though nobody uses what it gives.
const BEFORE: &str = "\
tags CInt/1 CNil/0
words
global main = (CNil)

take v0 =
  v1 <- unit v0
  v2 <- unit v1
  v3 <- fetch v2 1
  v4 <- add v3 7
  v5 <- fetch v1 2
  do
    v6 <- unit v2
    v7 <- fetch v6 3
    v8 <- unit v5
    write v8
  write 65
  case [v5] of
    (CNil) ->
      v9 <- unit v5
      unit v9
    else ->
      fail
";

const AFTER: &str = "\
global main = (CNil)

take v0 =
  v1 <- fetch v0 2
  do
    write v1
  write 65
  case [v1] of
    (CNil) ->
      unit v1
    else ->
      fail
";

// Copies of any length, on either side: v2 of a vector of one word, v3 of one word alone, v4 and v5
// word by word, and v6, v7 and v8 of a node and a zero. v9 is given two words by mistake, so that a
// run of it is missing: it stays, with the words that it is given.
const VECTORS: &str = "\
tags CInt/1 CNil/0
words
global main = (CNil)

f v0 v1 =
  v2 <- unit [v0]
  [v3] <- unit v1
  [v4 v5] <- unit [v3 v2]
  [v6 v7 v8] <- unit (CInt v4)
  write v5
  case [v6 v7 v8] of
    (CInt) ->
      [v9] <- unit [v7 v8]
      [v10 v11] <- unit [v4 v5]
      unit [v10 v9 v11]
    else ->
      unit [v6 v7 v8]
";

const VECTORS_AFTER: &str = "\
global main = (CNil)

f v0 v1 =
  write v0
  case [#CInt v1 0] of
    (CInt) ->
      [v2] <- unit [v1 0]
      unit [v1 v2 v0]
    else ->
      unit [#CInt v1 0]
";

#[test]
fn copies_and_idle_statements_go(rt: HostRuntime) -> Result<(), Fail> {
    for (text, after) in [(BEFORE, AFTER), (VECTORS, VECTORS_AFTER)] {
        let g = program(rt.alloc(), text)?;
        let listing = list(rt.alloc(), &g)?;
        assert_eq!(rt; listing.as_slice(), listing_in(text));
        let h = without_idle(rt.alloc(), with_copies_unused(rt.alloc(), g)?)?;
        assert_eq!(rt; list(rt.alloc(), &h)?.as_slice(), after.as_bytes());
    }
    Ok(())
}
