// The texts of solutions, worked out by hand.

use crate::solutions::{partial, takes};
use flow_listing::listing_text;
use flow_system::system::system;
use grin_syntax::program::Grin;
use points_to::{solve, solve_by_rounds};
use std::alloc::{AllocError, Global};
use std::test::Fail;
use worked_texts::TAKE_TWICE_POINTS;

// The second parameter of `k` stands for nothing but what `app` applies to; the tag with one
// argument missing comes to the delayed call by its update alone.
const PARTIAL_LISTED: &str = "
k: (CNil)
  v0: &start.v0
  v1: &start.v0

app: (CNil) (P1k {&start.v0})
  v0: &start.v1 &start.v2
  v1: &start.v0
  v2: (CNil) (P2k) (P1k {&start.v0})

start: (CNil) (P1k {&start.v0})
  v0 = (CNil)
  v1 = (P2k)
  v2 = (CNil) (Fapp {&start.v1} {&start.v0}) (P1k {&start.v0})
";

fn text(alloc: Global, g: &Grin) -> Result<Vec<u8>, AllocError> {
    let flow = solve(alloc, &system(alloc, g)?)?;
    listing_text(alloc, g, &flow)
}

#[test]
fn worked_solutions_are_listed(rt: HostRuntime) -> Result<(), Fail> {
    let alloc = rt.alloc();
    let twice = text(alloc, &takes(alloc)?)?;
    assert_eq!(rt; twice.as_slice(), TAKE_TWICE_POINTS.as_bytes());
    let partly = text(alloc, &partial(alloc)?)?;
    assert_eq!(rt; partly.as_slice(), PARTIAL_LISTED.as_bytes());
    Ok(())
}

#[test]
fn the_text_is_that_of_the_solution_by_rounds(rt: HostRuntime) -> Result<(), Fail> {
    let alloc = rt.alloc();
    let g = takes(alloc)?;
    let rounds = solve_by_rounds(alloc, &system(alloc, &g)?)?;
    let plain = listing_text(alloc, &g, &rounds)?;
    let waiting = text(alloc, &g)?;
    assert_eq!(rt; plain.as_slice(), waiting.as_slice());
    Ok(())
}
