//! Programs that read their input.

use crate::outside::{LISTS, Object, Outside, RUN, program_answers};
use std::test::Fail;
use worked_texts::SORT;

/// Prints its input.
const ECHO: &str = "main xs = xs;";

#[test]
fn programs_of_their_input(rt: HostRuntime) -> Result<(), Fail> {
    let rows: [(&str, &str, u8, &str, &str); 5] = [
        (ECHO, "", 0, "", ""),
        (ECHO, "abc", 0, "abc", ""),
        // The bytes behind the first one are not asked for.
        (
            "main xs = case xs of { Nil -> Nil; Cons h t -> Cons h (Cons h Nil) };",
            "abc",
            0,
            "aa",
            "",
        ),
        // Each byte is taken once, also where the list is used twice.
        (
            "both xs ys = case xs of { Nil -> ys; Cons h t -> Cons h (both t ys) }; main xs = both xs xs;",
            "abc",
            0,
            "abcabc",
            "",
        ),
        (
            "main xs = case xs of { Nil -> Nil };",
            "abc",
            3,
            "",
            "grinc: no alternative\n",
        ),
    ];
    for (text, input, code, out, err) in rows {
        let text = format!(in rt.alloc(); "{LISTS}{text}")?;
        let outside = Outside::with_input(text.as_bytes(), input.as_bytes());
        let is_so = outside.answers(rt.alloc(), &RUN, code, out, err)?;
        assert!(rt; is_so, "{text}");
    }
    Ok(())
}

#[test]
fn an_input_that_fails(rt: HostRuntime) -> Result<(), Fail> {
    let text = format!(in rt.alloc(); "{LISTS}{ECHO}")?;
    let rows = [(0, ""), (1, "a"), (2, "ab"), (3, "abc")];
    for (call, out) in rows {
        let outside = Outside {
            file: text.as_bytes(),
            input: b"abc",
            failing: Some((Object::Input, call)),
        };
        let is_so = outside.answers(rt.alloc(), &RUN, 9, out, "grinc: read fault\n")?;
        assert!(rt; is_so, "{out}");
    }
    Ok(())
}

#[test]
fn a_main_of_two_parameters(rt: HostRuntime) -> Result<(), Fail> {
    let words = ["grinc", "check", "a"];
    let err = "grinc: refused 20 at 25\n";
    assert!(rt; program_answers(rt.alloc(), "main a b = a;", &words, 1, "", err)?);
    Ok(())
}

#[test]
fn an_input_that_is_sorted(rt: HostRuntime) -> Result<(), Fail> {
    for (input, out) in [("", ""), ("hello", "ehllo"), ("zyxw", "wxyz")] {
        let outside = Outside::with_input(SORT.as_bytes(), input.as_bytes());
        assert!(rt; outside.answers(rt.alloc(), &RUN, 0, out, "")?);
    }
    Ok(())
}
