//! Texts that are checked: the line of those that are accepted, and the refusals of the others.

use crate::outside::{LISTS, Outside, nested, program_answers};
use std::test::Fail;

/// The words that check the file.
const CHECK: [&str; 3] = ["grinc", "check", "a"];

#[test]
fn refused_texts(rt: HostRuntime) -> Result<(), Fail> {
    let spaces = vec![in rt.alloc(); b' '; 1_048_577]?;
    let rows: [(&[u8], &str); 14] = [
        (&[0xFF], "grinc: refused 1 at 0\n"),
        (b"data Nil 0; data Cons 2", "grinc: refused 2 at 23\n"),
        (
            b"data Nil 0; data Cons 2; main = case",
            "grinc: refused 2 at 36\n",
        ),
        (
            b"data Nil 0; data Cons 2; main = - 1;",
            "grinc: refused 1 at 32\n",
        ),
        (
            b"data Nil 0; data Cons 2; data T 2147483648;",
            "grinc: refused 3 at 32\n",
        ),
        (
            b"data Nil 0; data Cons 2; data T 13;",
            "grinc: refused 34 at 30\n",
        ),
        (b"data Nil 0; data Nil 0;", "grinc: refused 11 at 17\n"),
        (
            b"data Nil 0; data Cons 2; main = Cons 1 Nil; main = Nil;",
            "grinc: refused 12 at 44\n",
        ),
        (
            b"data Nil 0; data Cons 2; main = foo;",
            "grinc: refused 14 at 32\n",
        ),
        (
            b"data Nil 0; data Cons 2; main = Cons 1;",
            "grinc: refused 15 at 32\n",
        ),
        (
            b"data Nil 0; data Cons 2; main = Cons 2147483648 Nil;",
            "grinc: refused 3 at 37\n",
        ),
        (
            b"data Nil 0; data Cons 2; main = case Nil of { Nil -> Nil",
            "grinc: refused 2 at 56\n",
        ),
        (b"", "grinc: refused 19 at 0\n"),
        (&spaces, "grinc: refused 5 at 1048576\n"),
    ];
    for (text, err) in rows {
        let is_refused = Outside::of(text).answers(rt.alloc(), &CHECK, 1, "", err)?;
        assert!(rt; is_refused, "{err}");
    }
    Ok(())
}

#[test]
fn deepest_texts(rt: HostRuntime) -> Result<(), Fail> {
    let binding = "let a = 1 in ";
    let rows = [
        (
            200,
            "(",
            "Nil",
            ")",
            0,
            "ok functions 1 constructors 2 size 6\n",
            "",
        ),
        (201, "(", "Nil", ")", 1, "", "grinc: refused 4 at 232\n"),
        (
            200,
            binding,
            "a",
            "",
            0,
            "ok functions 1 constructors 2 size 406\n",
            "",
        ),
        (201, binding, "a", "", 1, "", "grinc: refused 4 at 2632\n"),
    ];
    for (times, open, body, close, code, out, err) in rows {
        let text = nested(rt.alloc(), LISTS, times, open, body, close)?;
        let outside = Outside::of(text.as_bytes());
        let is_so = outside.answers(rt.alloc(), &CHECK, code, out, err)?;
        assert!(rt; is_so, "{times} {open}");
    }
    Ok(())
}

#[test]
fn accepted_texts(rt: HostRuntime) -> Result<(), Fail> {
    // A constructor counts twice; a function's name, its parameters and the tokens of its body
    // count once each.
    let rows = [
        ("main = Nil;", "ok functions 1 constructors 2 size 6\n"),
        (
            "id x = x; main = Nil;",
            "ok functions 2 constructors 2 size 9\n",
        ),
        (
            "main = Cons (add Nil 1) Nil;",
            "ok functions 1 constructors 2 size 10\n",
        ),
        (
            "data T 12; main = Nil;",
            "ok functions 1 constructors 3 size 8\n",
        ),
    ];
    for (text, out) in rows {
        let is_accepted = program_answers(rt.alloc(), text, &CHECK, 0, out, "")?;
        assert!(rt; is_accepted, "{text}");
    }
    Ok(())
}
