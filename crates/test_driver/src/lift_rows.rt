//! Texts with lambdas and local functions that are lifted: the text of Core, what a run of it puts
//! out, and the refusals of the others.

use crate::outside::{LISTS, Object, Outside, nested, program_answers, written_answers};
use std::test::Fail;

/// The words that lift the file.
const LIFT: [&str; 3] = ["grinc", "lift", "a"];

/// The constructors of lists as `lift` writes them.
const WRITTEN: &str = "data Nil 0;\ndata Cons 2;\n";

#[test]
fn lifted_texts(rt: HostRuntime) -> Result<(), Fail> {
    let rows = [
        (
            "f x = (\\x -> Cons x Nil) x; main = f 65;",
            "f x = (lift'0) x;\nmain = f 65;\nlift'0 x = Cons x Nil;\n",
            "A",
        ),
        (
            "main = let x = 1; y = 64 in (\\a -> Cons (add y x) (Cons y a)) Nil;",
            "main = let x = 1; y = 64 in (lift'0 y x) Nil;\nlift'0 y x a = Cons (add y x) (Cons y a);\n",
            "A@",
        ),
        (
            "main = (\\x -> (\\y -> Cons x (Cons y Nil))) 65 66;",
            "main = (lift'0) 65 66;\nlift'0 x = (lift'1 x);\nlift'1 x y = Cons x (Cons y Nil);\n",
            "AB",
        ),
        (
            "main = let ev n = case n of { 0 -> Cons 69 Nil; _ -> od (sub n 1) }; od n = case n of { 0 -> Cons 79 Nil; _ -> ev (sub n 1) } in ev 5;",
            "main = let ev = lift'0 od; od = lift'1 ev in ev 5;\nlift'0 od n = case n of { 0 -> Cons 69 Nil; _ -> od (sub n 1) };\nlift'1 ev n = case n of { 0 -> Cons 79 Nil; _ -> ev (sub n 1) };\n",
            "O",
        ),
        (
            "main = let f f = f in f (Cons 65 Nil);",
            "main = let f = lift'0 in f (Cons 65 Nil);\nlift'0 f = f;\n",
            "A",
        ),
        (
            "id x = x; main = let id = 66; g y = Cons id y in g Nil;",
            "id x = x;\nmain = let id = 66; g = lift'0 id in g Nil;\nlift'0 id y = Cons id y;\n",
            "B",
        ),
        (
            "main = let z = Nil in ((\\x -> Cons x z)) 65;",
            "main = let z = Nil in ((lift'0 z)) 65;\nlift'0 z x = Cons x z;\n",
            "A",
        ),
        ("main = Cons 67 Nil;", "main = Cons 67 Nil;\n", "C"),
    ];
    for (text, wanted, output) in rows {
        let whole = format!(in rt.alloc(); "{LISTS}{text}")?;
        let lifted = format!(in rt.alloc(); "{WRITTEN}{wanted}")?;
        let outside = Outside::of(whole.as_bytes());
        let is_so = outside.answers(rt.alloc(), &LIFT, 0, lifted.as_str(), "")?;
        assert!(rt; is_so, "{text}");
        let runs = written_answers(rt.alloc(), "lift", whole.as_str(), "", 0, output, "")?;
        assert!(rt; runs, "{text}");
    }
    Ok(())
}

#[test]
fn refused_lambdas(rt: HostRuntime) -> Result<(), Fail> {
    let rows = [
        ("main = - 1;", "1 at 32"),
        ("main = \\x -> x;", "2 at 32"),
        ("main = (\\ -> 1);", "2 at 35"),
        ("main = let f x y in f;", "2 at 42"),
        ("main = (\\x -> 2147483648);", "3 at 39"),
        (
            "f a b c d e g h i j k l = (\\x _ -> Cons x (a b c d e g h i j k l)); main = Nil;",
            "61 at 52",
        ),
        ("main = (\\lift' -> 1) Nil;", "62 at 34"),
    ];
    for (text, rule) in rows {
        let err = format!(in rt.alloc(); "grinc: refused {rule}\n")?;
        let is_so = program_answers(rt.alloc(), text, &LIFT, 1, "", err.as_str())?;
        assert!(rt; is_so, "{rule}");
    }
    Ok(())
}

#[test]
fn lambdas_nest_two_hundred_deep(rt: HostRuntime) -> Result<(), Fail> {
    for (count, code, err) in [(200, 0, ""), (201, 1, "grinc: refused 4 at 1432\n")] {
        let text = nested(rt.alloc(), LISTS, count, "(\\x -> ", "x", ")")?;
        let outside = Outside::of(text.as_bytes());
        assert!(rt; outside.ends(rt.alloc(), &LIFT, code, err)?, "{count}");
    }
    Ok(())
}

#[test]
fn failures_while_lifting(rt: HostRuntime) -> Result<(), Fail> {
    let rows = [
        (Object::Shelf, 0, 9, "grinc: read fault\n"),
        (Object::Shelf, 1, 9, "grinc: read fault\n"),
        (Object::Out, 0, 10, "grinc: write fault\n"),
    ];
    for (object, call, code, err) in rows {
        let outside = Outside {
            file: b"main = (\\x -> x);",
            input: b"",
            failing: Some((object, call)),
        };
        let is_so = outside.answers(rt.alloc(), &LIFT, code, "", err)?;
        assert!(rt; is_so, "{call}");
    }
    Ok(())
}
