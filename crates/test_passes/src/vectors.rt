// A program with variables that stand for nodes.

use crate::listings::listing_in;
use grin_syntax::list;
use grin_text::program;
use std::test::Fail;
use vectorise::with_vectors;

const NODES: &str = "\
tags CInt/1 CNil/0 CCons/2 Ffoo/3
global main = (CNil)

take v0 =
  v1 <- fetch v0
  v2 <- case v1 of
    (CNil) ->
      unit v1
    (CCons v3 v4) ->
      store
        v5 = (Ffoo v3 v4 v3)
      unit (CCons v3 v5)
    (Ffoo v6 v7 v8) ->
      v9 <- call take v6
      update v0 v9
      unit v9
  unit v2
";

// A fetch fills a vector with room for the three fields of (Ffoo); what is given and what a call
// gives has room for two.
const VECTORS: &str = "\
global main = (CNil)

take v0 =
  [v1 v2 v3 v4] <- fetch v0
  [v5 v6 v7] <- case [v1 v2 v3 v4] of
    (CNil) ->
      unit [v1 v2 v3]
    (CCons) ->
      store
        v8 = (Ffoo v2 v3 v2)
      unit (CCons v2 v8)
    (Ffoo) ->
      [v9 v10 v11] <- call take v2
      update v0 [v9 v10 v11]
      unit [v9 v10 v11]
  unit [v5 v6 v7]
";

#[test]
fn node_variables_are_vectors(rt: HostRuntime) -> Result<(), Fail> {
    let g = program(rt.alloc(), NODES)?;
    let listing = list(rt.alloc(), &g)?;
    assert_eq!(rt; listing.as_slice(), listing_in(NODES));
    let widened = with_vectors(rt.alloc(), g)?;
    assert_eq!(rt; list(rt.alloc(), &widened)?.as_slice(), VECTORS.as_bytes());
    Ok(())
}
