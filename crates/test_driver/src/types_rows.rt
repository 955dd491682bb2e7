//! Texts with types: the text of Core that is written, what a run of it puts out, the refusals of
//! the others, and the two sides where types do not fit.

use crate::outside::{Object, Outside, written_answers};
use std::alloc::{AllocError, Global};
use std::test::Fail;

/// The words that make a text of Core of the text with types in the file.
const TYPES: [&str; 3] = ["grinc", "types", "a"];

/// The words that write the two sides of the types that do not fit.
const SIDES: [&str; 3] = ["grinc", "sides", "a"];

/// The type of lists, 37 bytes.
const LIST: &str = "type List a = Nil | Cons a (List a); ";

#[test]
fn written_texts(rt: HostRuntime) -> Result<(), Fail> {
    let rows = [
        ("main = Cons 72 Nil;", "main = Cons 72 Nil;\n", "H"),
        (
            "sig id : a -> a; id x = x; main = Cons (id 65) (id Nil);",
            "id x = x;\nmain = Cons (id 65) (id Nil);\n",
            "A",
        ),
        (
            "type Tree = Leaf | Node Tree Int Tree; sig flat : Tree -> (List Int) -> (List Int); flat t xs = case t of { Leaf -> xs; Node l n r -> flat l (Cons n (flat r xs)) }; main = flat (Node (Node Leaf 65 Leaf) 66 Leaf) Nil;",
            "data Leaf 0;\ndata Node 3;\nflat t xs = case t of { Leaf -> xs; Node l n r -> flat l (Cons n (flat r xs)) };\nmain = flat (Node (Node Leaf 65 Leaf) 66 Leaf) Nil;\n",
            "AB",
        ),
    ];
    for (text, wanted, output) in rows {
        let whole = format!(in rt.alloc(); "{LIST}{text}")?;
        let written = format!(in rt.alloc(); "data Nil 0;\ndata Cons 2;\n{wanted}")?;
        let outside = Outside::of(whole.as_bytes());
        let is_so = outside.answers(rt.alloc(), &TYPES, 0, written.as_str(), "")?;
        assert!(rt; is_so, "{text}");
        let runs = written_answers(rt.alloc(), "types", whole.as_str(), "", 0, output, "")?;
        assert!(rt; runs, "{text}");
    }
    Ok(())
}

#[test]
fn refused_types(rt: HostRuntime) -> Result<(), Fail> {
    let rows = [
        ("data T 0; main = Nil;", "2 at 37"),
        ("type T = C Int -> Int; main = Nil;", "2 at 52"),
        ("main = foo;", "14 at 44"),
        ("type T a a = T a; main = Nil;", "81 at 46"),
        ("sig f : List -> Int; f x = 1; main = Nil;", "82 at 45"),
        ("id x = x; main = Cons (id 65) (id Nil);", "83 at 68"),
        ("main = Cons Nil Nil;", "83 at 44"),
        ("f x = x x; main = Nil;", "83 at 43"),
        ("sig f : a -> b; f x = x; main = Nil;", "83 at 59"),
        ("main = Cons (Cons 1 Nil) Nil;", "83 at 50"),
        ("sig main : a; main = Nil;", "83 at 51"),
        (
            "hd xs = case xs of { Cons h t -> h }; main = Nil;",
            "84 at 58",
        ),
        ("main = case Nil of { Nil -> Nil };", "84 at 58"),
        ("sig foo : Int; main = Nil;", "85 at 41"),
    ];
    for (text, rule) in rows {
        let whole = format!(in rt.alloc(); "{LIST}{text}")?;
        let err = format!(in rt.alloc(); "grinc: refused {rule}\n")?;
        let outside = Outside::of(whole.as_bytes());
        let is_refused = outside.answers(rt.alloc(), &TYPES, 1, "", err.as_str())?;
        assert!(rt; is_refused, "{rule}");
    }
    Ok(())
}

#[test]
fn other_lists(rt: HostRuntime) -> Result<(), Fail> {
    let text = b"type List a = Nil | Cons a (List a) | Foo; main = Nil;";
    let err = "grinc: refused 86 at 0\n";
    let is_refused = Outside::of(text).answers(rt.alloc(), &TYPES, 1, "", err)?;
    assert!(rt; is_refused, "a third constructor");
    Ok(())
}

#[test]
fn failures_while_typing(rt: HostRuntime) -> Result<(), Fail> {
    let rows = [
        (Object::Shelf, 0, 9, "grinc: read fault\n"),
        (Object::Shelf, 1, 9, "grinc: read fault\n"),
        (Object::Out, 0, 10, "grinc: write fault\n"),
    ];
    for (object, call, code, err) in rows {
        let outside = Outside {
            file: b"type List a = Nil | Cons a (List a); main = Nil;",
            input: b"",
            failing: Some((object, call)),
        };
        let is_so = outside.answers(rt.alloc(), &TYPES, code, "", err)?;
        assert!(rt; is_so, "{call}");
    }
    Ok(())
}

#[test]
fn two_sides(rt: HostRuntime) -> Result<(), Fail> {
    let rows = [
        ("main = Cons 72 Nil;", ""),
        (
            "id x = x; main = Cons (id 65) (id Nil);",
            "Int -> Int and List v0 -> List Int\n",
        ),
        ("f x = x x; main = Nil;", "v0 and v0 -> v1\n"),
        ("sig f : a -> b; f x = x; main = Nil;", "v0 and v1\n"),
        (
            "main = Cons (Cons 1 Nil) Nil;",
            "v0 -> List v0 -> List v0 and Int -> List v1 -> Int\n",
        ),
        ("sig main : a; main = Nil;", "v0 and List Int\n"),
        (
            "sig f : (Int -> Int) -> Int; f g = 1; main = Cons (f Nil) Nil;",
            "(Int -> Int) -> Int and List v0 -> Int\n",
        ),
        (
            "sig f : (List (List Int)) -> Int; f x = x; main = Nil;",
            "List (List Int) and Int\n",
        ),
    ];
    for (text, wanted) in rows {
        let whole = format!(in rt.alloc(); "{LIST}{text}")?;
        let outside = Outside::of(whole.as_bytes());
        let is_shown = outside.answers(rt.alloc(), &SIDES, 0, wanted, "")?;
        assert!(rt; is_shown, "{text}");
    }
    Ok(())
}

#[test]
fn sides_under_another_rule(rt: HostRuntime) -> Result<(), Fail> {
    let rows = [
        ("data T 0; main = Nil;", "2 at 37"),
        ("main = foo;", "14 at 44"),
        ("type T a a = T a; main = Nil;", "81 at 46"),
        ("main = case Nil of { Nil -> Nil };", "84 at 58"),
    ];
    for (text, rule) in rows {
        let whole = format!(in rt.alloc(); "{LIST}{text}")?;
        let err = format!(in rt.alloc(); "grinc: refused {rule}\n")?;
        let outside = Outside::of(whole.as_bytes());
        let is_refused = outside.answers(rt.alloc(), &SIDES, 1, "", err.as_str())?;
        assert!(rt; is_refused, "{rule}");
    }
    Ok(())
}

/// Pairs of which each holds the one before it twice, before what `main` gives: the type of the
/// last one, `x60`, is written with 2^60 names.
fn pairs(alloc: Global) -> Result<String, AllocError> {
    let mut text = format!(in alloc; "{LIST}type Pair a b = Pair a b; main = let x0 = 1")?;
    for k in 0..60u32 {
        let next = k + 1;
        write!(text, "; x{next} = Pair x{k} x{k}")?;
    }
    text.push_str(" in ")?;
    Ok(text)
}

#[test]
fn large_sides(rt: HostRuntime) -> Result<(), Fail> {
    let mut text = pairs(rt.alloc())?;
    let place = text.len();
    text.push_str("x60;")?;
    let outside = Outside::of(text.as_bytes());
    let err = format!(in rt.alloc(); "grinc: refused 83 at {place}\n")?;
    let is_refused = outside.answers(rt.alloc(), &TYPES, 1, "", err.as_str())?;
    assert!(rt; is_refused, "the place");
    let is_wanting = outside.answers(rt.alloc(), &SIDES, 8, "", "grinc: out of memory\n")?;
    assert!(rt; is_wanting, "the sides");
    Ok(())
}

/// A side that is nested so deep: each of the members of a group is in 64 more lists.
fn nested(alloc: Global, members: u32) -> Result<String, AllocError> {
    let mut text = format!(in alloc; "{LIST}sig f : a -> ")?;
    for _ in 0..64 {
        text.push_str("(List ")?;
    }
    text.push_str("a")?;
    for _ in 0..64 {
        text.push_str(")")?;
    }
    text.push_str("; f x = f x; main = let x0 = 1")?;
    for k in 0..members {
        let next = k + 1;
        write!(text, "; x{next} = f x{k}")?;
    }
    write!(text, " in Cons x{members} Nil;")?;
    Ok(text)
}

#[test]
fn deep_sides(rt: HostRuntime) -> Result<(), Fail> {
    let rows = [(63, 0, ""), (64, 8, "grinc: out of memory\n")];
    for (members, code, err) in rows {
        let text = nested(rt.alloc(), members)?;
        let is_so = Outside::of(text.as_bytes()).ends(rt.alloc(), &SIDES, code, err)?;
        assert!(rt; is_so, "{members}");
    }
    Ok(())
}
