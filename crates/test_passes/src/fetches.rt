// A program whose fetches are of whole nodes.

use crate::listings::listing_in;
use fetch_passes::with_word_fetches;
use grin_syntax::list;
use grin_text::program;
use std::test::Fail;

const NODES: &str = "\
tags CInt/1 CNil/0 CCons/2 Ffoo/3
start take
words
global main = (CNil)

take v0 =
  [v1 v2 v3 v4] <- fetch v0
  [v5 v6 v7] <- case [v1 v2 v3 v4] of
    (CNil) ->
      unit [v1 v2 v3]
    (CCons) ->
      unit [v1 v2 v3]
    (Ffoo) ->
      [v8 v9 v10] <- call take v2
      update v0 [v8 v9 v10]
      unit [v8 v9 v10]
  unit [v5 v6 v7]

head v0 =
  [v1 v2 v3] <- fetch v0
  unit v2
";

// The fields are fetched where an alternative uses them, and the last one, which nobody uses, is
// not fetched. A word that is used outside the case is fetched after the tag.
const WORDS: &str = "\
global main = (CNil)

take v0 =
  v1 <- fetch v0 0
  [v2 v3 v4] <- case [v1 0 0 0] of
    (CNil) ->
      v5 <- fetch v0 1
      v6 <- fetch v0 2
      unit [v1 v5 v6]
    (CCons) ->
      v7 <- fetch v0 1
      v8 <- fetch v0 2
      unit [v1 v7 v8]
    (Ffoo) ->
      v9 <- fetch v0 1
      [v10 v11 v12] <- call take v9
      update v0 [v10 v11 v12]
      unit [v10 v11 v12]
  unit [v2 v3 v4]

head v0 =
  v1 <- fetch v0 0
  v2 <- fetch v0 1
  unit v2
";

#[test]
fn words_are_fetched_where_they_are_used(rt: HostRuntime) -> Result<(), Fail> {
    let g = program(rt.alloc(), NODES)?;
    let listing = list(rt.alloc(), &g)?;
    assert_eq!(rt; listing.as_slice(), listing_in(NODES));
    let split = with_word_fetches(rt.alloc(), g)?;
    assert_eq!(rt; list(rt.alloc(), &split)?.as_slice(), WORDS.as_bytes());
    Ok(())
}
