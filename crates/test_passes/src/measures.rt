// The sizes of programs, and beside which sizes they are slim, added up by hand.

use grin_measure::{Sizes, is_slim, sizes_of};
use grin_syntax::Grin;
use grin_text::program;
use std::test::Fail;

// In `f`: size 2 + 6 + 4 + 3 + 4 + 4 + 4 + 2 + 2 + 10, weight 2 + 62 + 19 + 18 + 19 + 31 + 19 + 25
// + 25 + 79, two calls, and 2 + 2 + 16 + 1 + 1 + 15 + 1 + 17 words. In `g`: size 6, weight 51, 3
// words.
const ALL: &str = "\
tags CInt/1 CNil/0 CCons/2
words

f v0 v1 =
  store
    v2 = (CCons v0 v1)
    v3 = (CNil)
  [v4 v5] <- fetch v2
  v6 <- fetch v2 1
  v7 <- add v6 1
  update v2 (CCons v7 v3)
  v8 <- call f v2 v3
  write v7
  v9 <- read
  case [v4 v5] of
    (CCons) ->
      unit [v4 v5]
    (CInt 7) ->
      fail
    else ->
      call f v9 v8

g =
  v0 <- do
    unit 3
  unit v0
";

// Two calls of the weight 16 each, with 14 words in each procedure.
const CALLS: &str = "\
tags CInt/1
words

f =
  call f

g =
  call f
";

// Whether a program is slim beside one of these sizes.
fn is_slim_beside(g: &Grin, program_size: u8, largest: u8) -> bool {
    let sizes = Sizes {
        program: u64::from(program_size),
        largest: u64::from(largest),
    };
    is_slim(g, sizes)
}

#[test]
fn programs_have_sizes(rt: HostRuntime) -> Result<(), Fail> {
    for (text, program_size, largest) in [(ALL, 47, 41), (CALLS, 2, 1)] {
        let sizes = sizes_of(&program(rt.alloc(), text)?);
        assert_eq!(rt; (sizes.program, sizes.largest), (program_size, largest));
    }
    Ok(())
}

#[test]
fn programs_are_slim_or_not(rt: HostRuntime) -> Result<(), Fail> {
    let rows: [(&str, u8, u8, bool); 7] = [
        // 48 times 8 is no less than the weight 350, and 20 times 3 no less than 55 words.
        (ALL, 8, 3, true),
        (ALL, 7, 3, false),
        (ALL, 8, 2, false),
        (ALL, 47, 41, true),
        // The weight 32 is less than 48, but there are two calls.
        (CALLS, 1, 1, false),
        (CALLS, 2, 1, true),
        (CALLS, 2, 0, false),
    ];
    for (text, program_size, largest, slim) in rows {
        let g = program(rt.alloc(), text)?;
        let is_slim = is_slim_beside(&g, program_size, largest);
        assert_eq!(rt; is_slim, slim, "{program_size} {largest}");
    }
    Ok(())
}
