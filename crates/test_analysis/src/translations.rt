// Texts of programs, and the listings of their translations.

use arity_check::check::check;
use core_reader::read;
use grin_syntax::{Grin, list};
use grin_translate::translate;
use std::alloc::Global;
use std::test::Fail;

// `Nil` and `Cons`, which stand before each text.
pub(crate) const LISTS: &str = "data Nil 0; data Cons 2; ";

const PRINT: &str = "
@print v0 =
  v1 <- eval v0
  case v1 of
    (CNil) ->
      unit (CNil)
    (CCons v2 v3) ->
      v4 <- eval v2
      case v4 of
        (CInt v5) ->
          write v5
          call @print v3
        else ->
          fail
    else ->
      fail
";

const EMPTY: &str = "main = Nil;";

const EMPTY_LISTED: &str = "\
global main = (Fmain)

main =
  unit (CNil)
";

pub(crate) const ECHO: &str = "main xs = xs;";

const ECHO_LISTED: &str = "
main v0 =
  eval v0

@input =
  v0 <- read
  v1 <- unit (CInt v0)
  case v1 of
    (CInt -1) ->
      unit (CNil)
    else ->
      store
        v2 = (CInt v0)
        v3 = (F@input)
      unit (CCons v2 v3)
";

// What stands behind the printing loop.
const START: &str = "
@start =
  store
    v0 = (F@input)
    v1 = (Fmain v0)
  call @print v1
";

pub(crate) const FORMS: &str = "\
take xs = case xs of { Nil -> Nil; Cons h t -> Cons h (take t) };
id x = x;
main = Cons (id id 66) (take (Cons (add 32 33) Nil));
";

const FORMS_LISTED: &str = "\
global main = (Fmain)

take v0 =
  v1 <- eval v0
  case v1 of
    (CNil) ->
      unit (CNil)
    (CCons v2 v3) ->
      store
        v4 = (Ftake v3)
      unit (CCons v2 v4)
    else ->
      fail

id v0 =
  eval v0

main =
  store
    v0 = (P1id)
    v1 = (Fid v0)
    v2 = (CInt 66)
    v3 = (F@1 v1 v2)
    v4 = (CInt 32)
    v5 = (CInt 33)
    v6 = (F@add v4 v5)
    v7 = (CNil)
    v8 = (CCons v6 v7)
    v9 = (Ftake v8)
  unit (CCons v3 v9)

@1 v0 v1 =
  v2 <- eval v0
  apply v2 v1

@add v0 v1 =
  v2 <- eval v0
  case v2 of
    (CInt v3) ->
      v4 <- eval v1
      case v4 of
        (CInt v5) ->
          v6 <- add v3 v5
          unit (CInt v6)
        else ->
          fail
    else ->
      fail
";

pub(crate) const BRANCHES: &str = "\
f x = case case x of { 0 -> 1; n -> n } of { 7 -> x; _ -> add x x };
one = 1;
h x = x x x;
both x y = Cons x y;
half = both one;
main = Cons (f one) Nil;
";

const BRANCHES_LISTED: &str = "\
global one = (Fone)
global half = (Fhalf)
global main = (Fmain)

f v0 =
  v1 <- do
    v2 <- eval v0
    case v2 of
      (CInt 0) ->
        unit (CInt 1)
      else ->
        store
          v3 = v2
        eval v3
  case v1 of
    (CInt 7) ->
      eval v0
    else ->
      v4 <- eval v0
      case v4 of
        (CInt v5) ->
          v6 <- eval v0
          case v6 of
            (CInt v7) ->
              v8 <- add v5 v7
              unit (CInt v8)
            else ->
              fail
        else ->
          fail

one =
  unit (CInt 1)

h v0 =
  v1 <- eval v0
  v2 <- apply v1 v0
  apply v2 v0

both v0 v1 =
  unit (CCons v0 v1)

half =
  unit (P1both one)

main =
  store
    v0 = (Ff one)
    v1 = (CNil)
  unit (CCons v0 v1)
";

// The translation of a whole text.
pub(crate) fn whole(alloc: Global, text: &str) -> Result<Grin, Fail> {
    let core = read(alloc, text.as_bytes())?;
    Ok(translate(alloc, &check(alloc, core)?)?)
}

// The translation of a text after `LISTS`.
pub(crate) fn translated(alloc: Global, text: &str) -> Result<Grin, Fail> {
    let text = format!(in alloc; "{LISTS}{text}")?;
    whole(alloc, &text)
}

#[test]
fn translations_are_listed(rt: HostRuntime) -> Result<(), Fail> {
    let alloc = rt.alloc();
    for (text, front, back) in [
        (EMPTY, EMPTY_LISTED, ""),
        (ECHO, ECHO_LISTED, START),
        (FORMS, FORMS_LISTED, ""),
        (BRANCHES, BRANCHES_LISTED, ""),
    ] {
        let listing = list(alloc, &translated(alloc, text)?)?;
        let expected = format!(in alloc; "{front}{PRINT}{back}")?;
        assert_eq!(rt; listing.as_slice(), expected.as_bytes(), "{text}");
    }
    Ok(())
}
