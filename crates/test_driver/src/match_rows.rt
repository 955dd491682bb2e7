//! Texts of pattern equations: the text of Core that is written, what a run of it puts out, and the
//! refusals of the others.

use crate::outside::{LISTS, Object, Outside, program_answers, written_answers};
use std::test::Fail;

/// The words that make a text of Core of the equations in the file.
const MATCH: [&str; 3] = ["grinc", "match", "a"];

/// Two lists, added place by place.
const ZIP: &str =
    "zip Nil ys = Nil; zip (Cons x xs) Nil = Nil; zip (Cons x xs) (Cons y ys) = Cons (add x y) (zip xs ys); main = zip (Cons 60 Nil) (Cons 5 (Cons 1 Nil));";

/// What `match` writes of it.
const ZIPPED: &str =
    "data Nil 0;\ndata Cons 2;\nzip match'p0 match'p1 = case match'p0 of { Nil -> Nil; Cons x xs -> case match'p1 of { Nil -> Nil; Cons y ys -> Cons (add x y) (zip xs ys) } };\nmain = zip (Cons 60 Nil) (Cons 5 (Cons 1 Nil));\n";

#[test]
fn simple_functions_are_one_case(rt: HostRuntime) -> Result<(), Fail> {
    let is_one_case = program_answers(rt.alloc(), ZIP, &MATCH, 0, ZIPPED, "")?;
    assert!(rt; is_one_case, "the text of zip");
    Ok(())
}

#[test]
fn runs_of_equations(rt: HostRuntime) -> Result<(), Fail> {
    let unaccepted = "grinc: no alternative\n";
    let rows = [
        (ZIP, "", 0, "A", ""),
        ("f 1 = Nil; data T 0; f 2 = Nil; main = f 2;", "", 0, "", ""),
        ("f = Nil; f = Cons 65 f; main = f;", "", 0, "", ""),
        ("main Nil = Cons 78 Nil; main xs = xs;", "ab", 0, "ab", ""),
        ("main Nil = Cons 78 Nil; main xs = xs;", "", 0, "N", ""),
        (
            "f 0 = 65; f Nil = 66; f x = 67; main = Cons (f 0) (Cons (f Nil) (Cons (f f) Nil));",
            "",
            0,
            "ABC",
            "",
        ),
        (
            "bad = case 1 of { 2 -> Nil }; f Nil 1 = Nil; f x y = Cons 66 Nil; main = f (Cons 1 Nil) bad;",
            "",
            0,
            "B",
            "",
        ),
        (
            "bad = case 1 of { 2 -> Nil }; f Nil 1 = Nil; f x y = Cons 66 Nil; main = f Nil bad;",
            "",
            3,
            "",
            unaccepted,
        ),
        ("f 1 = Nil; main = f 2;", "", 3, "", unaccepted),
    ];
    for (text, input, code, output, err) in rows {
        let whole = format!(in rt.alloc(); "{LISTS}{text}")?;
        let file = whole.as_str();
        let runs = written_answers(rt.alloc(), "match", file, input, code, output, err)?;
        assert!(rt; runs, "{text}");
    }
    Ok(())
}

#[test]
fn refused_equations(rt: HostRuntime) -> Result<(), Fail> {
    let rows = [
        ("f ? = 1;", "1 at 27"),
        ("f (x) = 1;", "2 at 28"),
        ("f 2147483648 = 1;", "3 at 27"),
        ("f 1 = Nil; g = Nil; f 2 = Nil;", "12 at 45"),
        ("f x (Cons y x) = y;", "13 at 37"),
        ("f Foo = 1;", "14 at 27"),
        ("f 1 = Nil; f 1 2 = Nil;", "71 at 36"),
        ("f Cons = 1;", "73 at 27"),
        ("main = let match'x = 1 in Nil;", "74 at 36"),
    ];
    for (text, rule) in rows {
        let err = format!(in rt.alloc(); "grinc: refused {rule}\n")?;
        let is_refused = program_answers(rt.alloc(), text, &MATCH, 1, "", err.as_str())?;
        assert!(rt; is_refused, "{rule}");
    }
    Ok(())
}

#[test]
fn failures_while_matching(rt: HostRuntime) -> Result<(), Fail> {
    let rows = [
        (Object::Shelf, 0, 9, "grinc: read fault\n"),
        (Object::Shelf, 1, 9, "grinc: read fault\n"),
        (Object::Out, 0, 10, "grinc: write fault\n"),
    ];
    for (object, call, code, err) in rows {
        let outside = Outside {
            file: b"main 1 = 2;",
            input: b"",
            failing: Some((object, call)),
        };
        let is_so = outside.answers(rt.alloc(), &MATCH, code, "", err)?;
        assert!(rt; is_so, "{call}");
    }
    Ok(())
}
