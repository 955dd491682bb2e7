// Programs whose cases are partly known.

use crate::listings::listing_in;
use case_simplify::with_fewer_cases;
use grin_syntax::list;
use grin_text::program;
use std::test::Fail;

const NESTED: &str = "\
tags CInt/1 CNil/0
words
global main = (CNil)

f v0 v1 =
  case [v0 v1] of
    (CInt 5) ->
      case [v0] of
        (CNil) ->
          fail
        else ->
          case [v0 v1] of
            (CInt 5) ->
              unit 2
            else ->
              unit 3
    (CInt) ->
      case [v0 v1] of
        (CInt 5) ->
          unit 3
        else ->
          unit 4
";

// In an alternative for a number the tag is known, in one for a certain number the number too.
const KNOWN: &str = "\
global main = (CNil)

f v0 v1 =
  case [v0 v1] of
    (CInt 5) ->
      unit 2
    (CInt) ->
      case [v0 v1] of
        (CInt 5) ->
          unit 3
        else ->
          unit 4
";

const BACK: &str = "\
tags CInt/1 CNil/0
words
global main = (CNil)

f v0 v1 =
  v2 <- case [v0 v1] of
    (CInt) ->
      unit [v0]
    else ->
      unit [v0]
  [] <- write v1
  case [#CNil] of
    (CInt 1) ->
      unit [v0]
    (CInt) ->
      unit [v0]
";

// The bound case gives back the first word of its vector; the last one has a literal tag, and none
// of its patterns fits.
const GIVEN: &str = "\
global main = (CNil)

f v0 v1 =
  v2 <- unit [v0]
  [] <- write v1
  fail
";

// The tag of v2 is that of v0, which the alternative around has looked at; v5 holds a tag that is
// written, and v6 the number of the pattern, also by the vector that is copied again. v9 holds a
// number and no tag.
const COPIED: &str = "\
tags CInt/1 CNil/0
words
global main = (CNil)

f v0 v1 =
  case [v0 v1] of
    (CInt 5) ->
      [v2 v3] <- unit [v0 v1]
      v4 <- case [v2 v3] of
        (CNil) ->
          unit 1
        (CInt) ->
          unit 2
      [v5 v6] <- unit (CInt v3)
      [v7 v8] <- unit [v5 v6]
      case [v7 v8] of
        (CInt 4) ->
          unit v4
        (CInt 5) ->
          [v9] <- unit v4
          case [v9 v8] of
            (CNil) ->
              unit 3
            else ->
              unit 4
        else ->
          unit 5
    else ->
      case [v0 v1] of
        (CInt) ->
          unit 6
        else ->
          unit 7
";

const COPIED_KNOWN: &str = "\
global main = (CNil)

f v0 v1 =
  case [v0 v1] of
    (CInt 5) ->
      [v2 v3] <- unit [v0 v1]
      v4 <- unit 2
      [v5 v6] <- unit (CInt v3)
      [v7 v8] <- unit [v5 v6]
      do
        [v9] <- unit v4
        case [v9 v8] of
          (CNil) ->
            unit 3
          else ->
            unit 4
    else ->
      case [v0 v1] of
        (CInt) ->
          unit 6
        else ->
          unit 7
";

#[test]
fn a_case_is_a_known_alternative_or_a_unit(rt: HostRuntime) -> Result<(), Fail> {
    for (text, simple) in [(NESTED, KNOWN), (BACK, GIVEN), (COPIED, COPIED_KNOWN)] {
        let g = program(rt.alloc(), text)?;
        let listing = list(rt.alloc(), &g)?;
        assert_eq!(rt; listing.as_slice(), listing_in(text));
        let h = with_fewer_cases(rt.alloc(), g)?;
        assert_eq!(rt; list(rt.alloc(), &h)?.as_slice(), simple.as_bytes());
    }
    Ok(())
}
