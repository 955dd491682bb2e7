//! The procedures that images enter, worked by hand from the stage of which their code is made.

use crate::outside::{LISTS, Object, Outside};
use std::test::Fail;

/// The words that ask for a trace, and for one of five entries.
const TRACE: [&str; 3] = ["grinc", "trace", "a"];

const TRACE_FIVE: [&str; 5] = ["grinc", "trace", "a", "--units", "5"];

/// The program's list is printed by `@print`, which evaluates `main` and jumps to its own start for
/// each rest.
const GREETS: &str = "main = Cons 72 (Cons 105 Nil);";

const GREETS_TRACE: &str = "\
@print
  main
@print
@print
";

/// `main` jumps to `g`, which waits for `f`.
const WAITS: &str = "\
f x = case x of { 0 -> Nil; _ -> Cons x Nil };
g x = case f x of { Nil -> Nil; Cons h t -> Cons h Nil };
main = g 65;";

const WAITS_TRACE: &str = "\
@print
  main
  g
    f
@print
";

/// A list without an end.
const ENDLESS: &str = "loop x = Cons x (loop x); main = loop 65;";

const ENDLESS_TRACE: &str = "\
@print
  main
  loop
@print
  loop
";

#[test]
fn what_images_enter(rt: HostRuntime) -> Result<(), Fail> {
    let rows: [(&str, &[&str], &str); 4] = [
        (GREETS, &TRACE, GREETS_TRACE),
        (WAITS, &TRACE, WAITS_TRACE),
        (
            GREETS,
            &["grinc", "trace", "--units=1", "--", "a"],
            "@print\n",
        ),
        (ENDLESS, &TRACE_FIVE, ENDLESS_TRACE),
    ];
    for (text, words, trace) in rows {
        let text = format!(in rt.alloc(); "{LISTS}{text}")?;
        let is_so = Outside::of(text.as_bytes()).answers(rt.alloc(), words, 0, trace, "")?;
        assert!(rt; is_so, "{trace}");
    }
    Ok(())
}

#[test]
fn refused_texts_have_no_trace(rt: HostRuntime) -> Result<(), Fail> {
    let rows: [(&str, &[&str], u8, &str); 4] = [
        ("", &TRACE, 1, "grinc: refused 19 at 0\n"),
        ("main = 1;", &TRACE, 1, "grinc: refused 21 at 0\n"),
        ("", &["grinc", "trace"], 2, "grinc: usage\n"),
        (
            "",
            &["grinc", "trace", "a", "--units", "0"],
            2,
            "grinc: usage\n",
        ),
    ];
    for (text, words, code, err) in rows {
        let is_so = Outside::of(text.as_bytes()).answers(rt.alloc(), words, code, "", err)?;
        assert!(rt; is_so, "{err}");
    }
    Ok(())
}

#[test]
fn traces_that_are_not_taken(rt: HostRuntime) -> Result<(), Fail> {
    let text = format!(in rt.alloc(); "{LISTS}{GREETS}")?;
    let outside = Outside {
        file: text.as_bytes(),
        input: b"",
        failing: Some((Object::Out, 0)),
    };
    let is_so = outside.answers(rt.alloc(), &TRACE, 10, "", "grinc: write fault\n")?;
    assert!(rt; is_so);
    Ok(())
}
