//! Low code that was worked by hand.

ghost use Rattle.std.specs.Prelude.{IfOk};
ghost use Rattle.arity_check.specs.Program.{program};
ghost use Rattle.arity_check.specs.Accepted.{IsValid};

use crate::listing::listed;
use arity_check::check::check;
use arity_check::normal::Checked;
use core_reader::read;
use grin_compile::{Built, Compiled, Options, build, compile};
use low_code::Low;
use std::alloc::Global;
use std::test::Fail;
use worked_texts::TAKE_TWICE;

/// `Nil` and `Cons`, 25 bytes.
const LISTS: &str = "data Nil 0; data Cons 2; ";

// The last stage of the program that takes a list twice, of which its code is made:
//
//     global main = (Fmain)
//
//     take v0 =
//       v1 <- fetch v0 0
//       [v2 v3 v4] <- case [v1 0 0] of
//         (CNil) ->
//           v5 <- fetch v0 1
//           v6 <- fetch v0 2
//           unit [#CNil v5 v6]
//         (CCons) ->
//           v7 <- fetch v0 1
//           v8 <- fetch v0 2
//           unit [#CCons v7 v8]
//         (Ftake) ->
//           v9 <- fetch v0 1
//           [v10 v11 v12] <- call take v9
//           case [v10 v11 v12] of
//             (CNil) ->
//               update v0 [#CNil v11 v12]
//             (CCons) ->
//               update v0 [#CCons v11 v12]
//           unit [v10 v11 v12]
//       case [v2 v3 v4] of
//         (CNil) ->
//           unit (CNil)
//         (CCons) ->
//           store
//             v13 = (Ftake v4)
//           unit (CCons v3 v13)
//
//     main =
//       store
//         v0 = (CInt 65)
//         v1 = (CNil)
//         v2 = (CCons v0 v1)
//         v3 = (Ftake v2)
//       call take v3
//
//     @print v0 =
//       v1 <- fetch v0 0
//       [v2 v3 v4] <- case [v1 0 0] of
//         (CNil) ->
//           v5 <- fetch v0 1
//           v6 <- fetch v0 2
//           unit [#CNil v5 v6]
//         (CCons) ->
//           v7 <- fetch v0 1
//           v8 <- fetch v0 2
//           unit [#CCons v7 v8]
//         (Ftake) ->
//           v9 <- fetch v0 1
//           [v10 v11 v12] <- call take v9
//           case [v10 v11 v12] of
//             (CNil) ->
//               update v0 [#CNil v11 v12]
//             (CCons) ->
//               update v0 [#CCons v11 v12]
//           unit [v10 v11 v12]
//         (Fmain) ->
//           [v13 v14 v15] <- call main
//           case [v13 v14 v15] of
//             (CNil) ->
//               update v0 [#CNil v14 v15]
//             (CCons) ->
//               update v0 [#CCons v14 v15]
//           unit [v13 v14 v15]
//       case [v2 v3 v4] of
//         (CNil) ->
//           unit (CNil)
//         (CCons) ->
//           v16 <- fetch v3 0
//           v17 <- fetch v3 1
//           v18 <- fetch v3 2
//           case [v16 v17 v18] of
//             (CInt) ->
//               write v17
//               call @print v4
//             else ->
//               fail
//
// Its tags are Int, Nil, Cons, the delayed calls of take and of main, and take without its
// argument, from 0 on. The last alternative of each case is not tested. All three procedures give
// the three words of a node.
const TAKES_IN_WORDS: &str = "\
proc v0 gives 3
load v1 v0 0
join v2 v3 v4
when v1 = 1
load v5 v0 1
load v6 v0 2
give 1 v5 v6
when v1 = 2
load v7 v0 1
load v8 v0 2
give 2 v7 v8
else
load v9 v0 1
call 0 at s0 with v9 to v10 v11 v12
join
when v10 = 1
save v0 0 1
save v0 1 v11
save v0 2 v12
give
else
save v0 0 2
save v0 1 v11
save v0 2 v12
give
joined
give v10 v11 v12
joined
when v2 = 1
give 1 0 0
else
take v13
save v13 0 3
save v13 1 v4
give 2 v3 v13
proc gives 3
take v0 v1 v2 v3
save v0 1 65
save v1 0 1
save v2 0 2
save v2 1 v0
save v2 2 v1
save v3 0 3
save v3 1 v2
tail 0 at s1 with v3
proc v0 gives 3
load v1 v0 0
join v2 v3 v4
when v1 = 1
load v5 v0 1
load v6 v0 2
give 1 v5 v6
when v1 = 2
load v7 v0 1
load v8 v0 2
give 2 v7 v8
when v1 = 3
load v9 v0 1
call 0 at s2 with v9 to v10 v11 v12
join
when v10 = 1
save v0 0 1
save v0 1 v11
save v0 2 v12
give
else
save v0 0 2
save v0 1 v11
save v0 2 v12
give
joined
give v10 v11 v12
else
call 1 at s3 with to v13 v14 v15
join
when v13 = 1
save v0 0 1
save v0 1 v14
save v0 2 v15
give
else
save v0 0 2
save v0 1 v14
save v0 2 v15
give
joined
give v13 v14 v15
joined
when v2 = 1
give 1 0 0
else
load v16 v3 0
load v17 v3 1
load v18 v3 2
when v16 = 0
put v17
tail 2 at s4 with v4
else
fail
";

/// The normal form of a text that breaks no rule.
pub(crate) fn checked(alloc: Global, text: &str) -> Result<Checked, Fail>
    ensures { IfOk result (λ p. IsValid (program p)) }
{
    let core = read(alloc, text.as_bytes())?;
    Ok(check(alloc, core)?)
}

/// The cells of the heap that the rows compile for.
pub(crate) const CELLS: u32 = 1000;

/// The bytes of the stack that they compile for.
pub(crate) const STACK: u32 = 4096;

/// What the rows look at of a compiled program.
#[derive(Drop)]
pub(crate) struct Made {
    /// The low code of its last stage.
    pub(crate) low: Low,
    /// The words of its code.
    pub(crate) code: Vec<u32>,
}

/// Keeps the low code and the words of a compiled program. All its stages are dropped here and
/// nowhere else, since a proof goes over each of them at each end of a function that drops them.
fn kept(compiled: Compiled) -> Made {
    Made {
        low: compiled.low,
        code: compiled.code,
    }
}

/// The image of a text, as the program makes it.
pub(crate) fn built(alloc: Global, text: &str) -> Result<Built, Fail> {
    let p = checked(alloc, text)?;
    let options = Options {
        cells: CELLS,
        stack: STACK,
    };
    match build(alloc, &p, options) {
        Ok(built) => Ok(built),
        Err(refusal) => Err(refusal.into()),
    }
}

/// What is made of a text.
pub(crate) fn compiled(alloc: Global, text: &str) -> Result<Made, Fail> {
    let p = checked(alloc, text)?;
    let options = Options {
        cells: CELLS,
        stack: STACK,
    };
    match compile(alloc, &p, options) {
        Ok(compiled) => Ok(kept(compiled)),
        Err(refusal) => Err(refusal.into()),
    }
}

#[test]
fn cells_are_as_wide_as_the_largest_node(rt: HostRuntime) -> Result<(), Fail> {
    let alloc = rt.alloc();
    let text = format!(in alloc; "{LISTS}main = Nil;")?;
    let made = compiled(alloc, text.as_str())?;
    assert_eq!(rt; (made.low.width, made.low.globals.len()), (3, 1));
    Ok(())
}

#[test]
fn low_code_by_hand(rt: HostRuntime) -> Result<(), Fail> {
    let alloc = rt.alloc();
    let text = format!(in alloc; "{LISTS}{TAKE_TWICE}")?;
    let made = compiled(alloc, text.as_str())?;
    let low = &made.low;
    let listing = listed(alloc, low)?;
    assert_eq!(rt; listing.as_str(), TAKES_IN_WORDS);
    assert_eq!(rt; low.globals.as_slice(), [4].as_slice());
    assert_eq!(rt; (low.start, low.argument, low.width), (2, Some(0), 3));
    Ok(())
}
