//! Texts that are listed: their canonical text, their stages, and the refusals of the others.

use crate::outside::{Ended, LISTS, Object, Outside, program_answers};
use std::alloc::{AllocError, Global};
use std::fmt::Write;
use std::test::Fail;
use worked_texts::{
    EMPTY_TRANSLATED, TAKE_TWICE, TAKE_TWICE_BY_WORDS, TAKE_TWICE_INLINED, many_delayed,
};

/// What `list` of a text behind `LISTS` after a pass answers.
fn listed(alloc: Global, text: &str, after: &str) -> Result<Ended, AllocError> {
    let text = format!(in alloc; "{LISTS}{text}")?;
    Outside::of(text.as_bytes()).run(alloc, &["grinc", "list", "a", "--after", after])
}

/// Whether `list` of a text behind `LISTS` after a pass puts out this text.
fn lists(alloc: Global, text: &str, after: &str, out: &str) -> Result<bool, AllocError> {
    let ended = listed(alloc, text, after)?;
    Ok(ended.is(0, out, ""))
}

/// Whether the listing of a text behind `LISTS` after a pass has the first of these lines, and not
/// the second one.
fn has_line_alone(
    alloc: Global,
    text: &str,
    after: &str,
    line: &str,
    no_line: &str,
) -> Result<bool, AllocError> {
    let ended = listed(alloc, text, after)?;
    Ok(ended.is_done() && ended.has_line(line) && !ended.has_line(no_line))
}

/// The program that takes a list twice, with vectors in place of its node variables: each has a tag
/// and two fields, as the longest nodes have.
const TAKES_IN_VECTORS: &str = "global main = (Fmain)

take v0 =
  [v1 v2 v3] <- fetch v0
  [v4 v5 v6] <- case [v1 v2 v3] of
    (CNil) ->
      unit [v1 v2 v3]
    (CCons) ->
      unit [v1 v2 v3]
    (Ftake) ->
      [v7 v8 v9] <- call take v2
      update v0 [v7 v8 v9]
      unit [v7 v8 v9]
  case [v4 v5 v6] of
    (CNil) ->
      unit (CNil)
    (CCons) ->
      store
        v10 = (Ftake v6)
      unit (CCons v5 v10)
    else ->
      fail

main =
  store
    v0 = (CInt 65)
    v1 = (CNil)
    v2 = (CCons v0 v1)
    v3 = (Ftake v2)
  call take v3

@print v0 =
  [v1 v2 v3] <- fetch v0
  [v4 v5 v6] <- case [v1 v2 v3] of
    (CNil) ->
      unit [v1 v2 v3]
    (CCons) ->
      unit [v1 v2 v3]
    (Ftake) ->
      [v7 v8 v9] <- call take v2
      update v0 [v7 v8 v9]
      unit [v7 v8 v9]
    (Fmain) ->
      [v10 v11 v12] <- call main
      update v0 [v10 v11 v12]
      unit [v10 v11 v12]
  case [v4 v5 v6] of
    (CNil) ->
      unit (CNil)
    (CCons) ->
      [v13 v14 v15] <- fetch v5
      [v16 v17 v18] <- case [v13 v14 v15] of
        (CInt) ->
          unit [v13 v14 v15]
      case [v16 v17 v18] of
        (CInt) ->
          write v17
          call @print v6
        else ->
          fail
    else ->
      fail
";

// The copy of a vector is gone.
const TAKES_WITHOUT_COPIES: &str = "global main = (Fmain)

take v0 =
  v1 <- fetch v0 0
  [v2 v3 v4] <- case [v1 0 0] of
    (CNil) ->
      v5 <- fetch v0 1
      v6 <- fetch v0 2
      unit [v1 v5 v6]
    (CCons) ->
      v7 <- fetch v0 1
      v8 <- fetch v0 2
      unit [v1 v7 v8]
    (Ftake) ->
      v9 <- fetch v0 1
      [v10 v11 v12] <- call take v9
      update v0 [v10 v11 v12]
      unit [v10 v11 v12]
  case [v2 v3 v4] of
    (CNil) ->
      unit (CNil)
    (CCons) ->
      store
        v13 = (Ftake v4)
      unit (CCons v3 v13)
    else ->
      fail

main =
  store
    v0 = (CInt 65)
    v1 = (CNil)
    v2 = (CCons v0 v1)
    v3 = (Ftake v2)
  call take v3

@print v0 =
  v1 <- fetch v0 0
  [v2 v3 v4] <- case [v1 0 0] of
    (CNil) ->
      v5 <- fetch v0 1
      v6 <- fetch v0 2
      unit [v1 v5 v6]
    (CCons) ->
      v7 <- fetch v0 1
      v8 <- fetch v0 2
      unit [v1 v7 v8]
    (Ftake) ->
      v9 <- fetch v0 1
      [v10 v11 v12] <- call take v9
      update v0 [v10 v11 v12]
      unit [v10 v11 v12]
    (Fmain) ->
      [v13 v14 v15] <- call main
      update v0 [v13 v14 v15]
      unit [v13 v14 v15]
  case [v2 v3 v4] of
    (CNil) ->
      unit (CNil)
    (CCons) ->
      v16 <- fetch v3 0
      v17 <- fetch v3 1
      v18 <- fetch v3 2
      case [v16 v17 v18] of
        (CInt) ->
          write v17
          call @print v4
        else ->
          fail
    else ->
      fail
";

// The first word of each vector that an update takes is a tag.
const TAKES_WITH_TAGS: &str = "global main = (Fmain)

take v0 =
  v1 <- fetch v0 0
  [v2 v3 v4] <- case [v1 0 0] of
    (CNil) ->
      v5 <- fetch v0 1
      v6 <- fetch v0 2
      unit [v1 v5 v6]
    (CCons) ->
      v7 <- fetch v0 1
      v8 <- fetch v0 2
      unit [v1 v7 v8]
    (Ftake) ->
      v9 <- fetch v0 1
      [v10 v11 v12] <- call take v9
      case [v10 v11 v12] of
        (CNil) ->
          update v0 [#CNil v11 v12]
        (CCons) ->
          update v0 [#CCons v11 v12]
      unit [v10 v11 v12]
  case [v2 v3 v4] of
    (CNil) ->
      unit (CNil)
    (CCons) ->
      store
        v13 = (Ftake v4)
      unit (CCons v3 v13)
    else ->
      fail

main =
  store
    v0 = (CInt 65)
    v1 = (CNil)
    v2 = (CCons v0 v1)
    v3 = (Ftake v2)
  call take v3

@print v0 =
  v1 <- fetch v0 0
  [v2 v3 v4] <- case [v1 0 0] of
    (CNil) ->
      v5 <- fetch v0 1
      v6 <- fetch v0 2
      unit [v1 v5 v6]
    (CCons) ->
      v7 <- fetch v0 1
      v8 <- fetch v0 2
      unit [v1 v7 v8]
    (Ftake) ->
      v9 <- fetch v0 1
      [v10 v11 v12] <- call take v9
      case [v10 v11 v12] of
        (CNil) ->
          update v0 [#CNil v11 v12]
        (CCons) ->
          update v0 [#CCons v11 v12]
      unit [v10 v11 v12]
    (Fmain) ->
      [v13 v14 v15] <- call main
      case [v13 v14 v15] of
        (CNil) ->
          update v0 [#CNil v14 v15]
        (CCons) ->
          update v0 [#CCons v14 v15]
      unit [v13 v14 v15]
  case [v2 v3 v4] of
    (CNil) ->
      unit (CNil)
    (CCons) ->
      v16 <- fetch v3 0
      v17 <- fetch v3 1
      v18 <- fetch v3 2
      case [v16 v17 v18] of
        (CInt) ->
          write v17
          call @print v4
        else ->
          fail
    else ->
      fail
";

/// What prints a list of one element after the cases were simplified: the case over a number, whose
/// one alternative gives back what it is over, is a unit.
const ONE_SIMPLER: &str = "global main = (Fmain)

main =
  store
    v0 = (CInt 65)
    v1 = (CNil)
  unit (CCons v0 v1)

@print v0 =
  [v1 v2 v3] <- fetch v0
  [v4 v5 v6] <- case [v1 v2 v3] of
    (CNil) ->
      unit [v1 v2 v3]
    (CCons) ->
      unit [v1 v2 v3]
    (Fmain) ->
      [v7 v8 v9] <- call main
      update v0 [v7 v8 v9]
      unit [v7 v8 v9]
  case [v4 v5 v6] of
    (CNil) ->
      unit (CNil)
    (CCons) ->
      [v10 v11 v12] <- fetch v5
      [v13 v14 v15] <- unit [v10 v11 v12]
      case [v13 v14 v15] of
        (CInt) ->
          write v14
          call @print v6
        else ->
          fail
    else ->
      fail
";

#[test]
fn listings(rt: HostRuntime) -> Result<(), Fail> {
    let rows = [
        (
            "main = Cons 72 (Cons 105 Nil);",
            "read",
            "data Nil 0;\ndata Cons 2;\nmain = Cons 72 (Cons 105 Nil);\n",
        ),
        (
            "main = foo;",
            "read",
            "data Nil 0;\ndata Cons 2;\nmain = foo;\n",
        ),
        ("main = Nil;", "translate", EMPTY_TRANSLATED),
        ("main = Cons 65 Nil;", "simplify", ONE_SIMPLER),
        (TAKE_TWICE, "eval", TAKE_TWICE_INLINED),
        (TAKE_TWICE, "apply", TAKE_TWICE_INLINED),
        (TAKE_TWICE, "vectorise", TAKES_IN_VECTORS),
        (TAKE_TWICE, "fetch", TAKE_TWICE_BY_WORDS),
        (TAKE_TWICE, "copy", TAKES_WITHOUT_COPIES),
        (TAKE_TWICE, "update", TAKES_WITH_TAGS),
        // No procedure gives numbers alone, and each parameter's cell is updated.
        (TAKE_TWICE, "unbox", TAKES_WITH_TAGS),
        (TAKE_TWICE, "raise", TAKES_WITH_TAGS),
        // It has no nested block.
        (TAKE_TWICE, "flat", TAKES_WITH_TAGS),
    ];
    for (text, after, out) in rows {
        assert!(rt; lists(rt.alloc(), text, after, out)?, "{text} {after}");
    }
    Ok(())
}

/// A function of a list with one element, whose cell nothing overwrites.
const HEAD_TEXT: &str =
    "hd c = case c of { Cons h t -> h }; main = case hd (Cons 65 Nil) of { x -> Cons x Nil };";

/// A line that a stage of `HEAD_TEXT` has, and one that it doesn't have. The parameter of `hd`
/// gives place to its two fields. Then its call is in a nested block with the cell of which they
/// are fetched; the number that it gives gets its tag; the fields are the two cells stored before;
/// and nobody fetches from the cell.
#[test]
fn lines_of_each_stage(rt: HostRuntime) -> Result<(), Fail> {
    let rows = [
        ("update", "hd v0 =", "hd v0 v1 ="),
        ("unbox", "hd v0 =", "hd v0 v1 ="),
        ("raise", "hd v0 v1 =", "hd v0 ="),
        ("raise", "  v0 <- do", "  v5 <- call hd v3 v4"),
        ("flat", "  v5 <- call hd v3 v4", "  v0 <- do"),
        (
            "flat",
            "  [v6 v7] <- unit [#CInt 0]",
            "    v6 = [#CInt v5 0]",
        ),
        (
            "known",
            "    v6 = [#CInt v5 0]",
            "  [v6 v7] <- unit [#CInt 0]",
        ),
        ("known", "  v3 <- fetch v2 1", "  v3 <- call hd v0 v1"),
        ("cells", "  v3 <- call hd v0 v1", "  v3 <- fetch v2 1"),
        ("cells", "    v2 = (CCons v0 v1)", "  v1 <- call hd v0 0"),
        ("dead", "  v1 <- call hd v0 0", "    v2 = (CCons v0 v1)"),
    ];
    for (after, line, no_line) in rows {
        let is_so = has_line_alone(rt.alloc(), HEAD_TEXT, after, line, no_line)?;
        assert!(rt; is_so, "{after}: {line} and not {no_line}");
    }
    Ok(())
}

/// A program that stores two cells which nothing reads.
const UNREAD_TEXT: &str = "main = let a = 65; b = Cons a a in Nil;";

/// Whether the listing of `UNREAD_TEXT` after a pass gives the empty list, and has all the lines of
/// its two cells or none of them.
fn stores(alloc: Global, after: &str, is_stored: bool) -> Result<bool, AllocError> {
    let ended = listed(alloc, UNREAD_TEXT, after)?;
    let mut is_so = ended.is_done() && ended.has_line("  unit (CNil)");
    for line in ["  store", "    v0 = (CInt 65)", "    v1 = (CCons v0 v0)"] {
        is_so = is_so && ended.has_line(line) == is_stored;
    }
    Ok(is_so)
}

#[test]
fn cells_that_nothing_reads_are_not_stored(rt: HostRuntime) -> Result<(), Fail> {
    for (after, is_stored) in [("raise", true), ("dead", false)] {
        assert!(rt; stores(rt.alloc(), after, is_stored)?, "{after}");
    }
    Ok(())
}

#[test]
fn refused_listings(rt: HostRuntime) -> Result<(), Fail> {
    let rows = [
        ("main = foo;", "translate", "grinc: refused 14 at 32\n"),
        ("main = foo;", "eval", "grinc: refused 14 at 32\n"),
        ("main = - 1;", "read", "grinc: refused 1 at 32\n"),
    ];
    for (text, after, err) in rows {
        let words = ["grinc", "list", "a", "--after", after];
        let is_refused = program_answers(rt.alloc(), text, &words, 1, "", err)?;
        assert!(rt; is_refused, "{after}");
    }
    let large = many_delayed(rt.alloc(), 120)?;
    let words = ["grinc", "list", "a", "--after", "eval"];
    let err = "grinc: refused 36 at 131322\n";
    let outside = Outside::of(large.as_bytes());
    assert!(rt; outside.answers(rt.alloc(), &words, 1, "", err)?);
    Ok(())
}

/// A text with a thousand functions, and its listing as it was read.
fn thousand(alloc: Global) -> Result<(String, String), AllocError> {
    let mut text = String::from_str(alloc, LISTS)?;
    let mut lines = String::from_str(alloc, "data Nil 0;\ndata Cons 2;\n")?;
    for i in 0..1000 {
        write!(text, "f{i} = 1; ")?;
        writeln!(lines, "f{i} = 1;")?;
    }
    Ok((text, lines))
}

#[test]
fn pieces_up_to_a_failure(rt: HostRuntime) -> Result<(), Fail> {
    let (text, lines) = thousand(rt.alloc())?;
    let piece = lines.as_bytes().get(..4096).ok_or("a short listing")?;
    let words = ["grinc", "list", "--after=read", "a"];
    let mut outside = Outside::of(text.as_bytes());
    assert!(rt; outside.answers(rt.alloc(), &words, 0, lines.as_str(), "")?);
    outside.failing = Some((Object::Out, 1));
    assert!(rt; outside.answers_bytes(rt.alloc(), &words, 10, piece, "grinc: write fault\n")?);
    Ok(())
}
