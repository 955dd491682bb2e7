//! Texts of equations with the programs that they become.

use core_print::print;
use core_reader::{Core, Expr};
use match_compile::{MatchRefusal, compile_matches};
use std::alloc::Global;
use std::fmt::Write;
use std::test::Fail;

/// `Nil` and `Cons`, 25 bytes.
const LISTS: &str = "data Nil 0; data Cons 2; ";

/// The canonical text of `LISTS`.
const LISTED: &str = "data Nil 0;\ndata Cons 2;\n";

/// The program that a text becomes behind the declarations of lists, or the rule that the text
/// breaks first and its place. Want of memory is no answer.
fn compiled(alloc: Global, text: &str) -> Result<Result<Core, (u8, u32)>, Fail> {
    let text = format!(in alloc; "{LISTS}{text}")?;
    match compile_matches(alloc, text.as_bytes()) {
        Ok(core) => Ok(Ok(core)),
        Err(MatchRefusal::Memory(error)) => Err(Fail::from(error)),
        Err(refusal) => Ok(Err((refusal.rule(), refusal.place()))),
    }
}

/// Texts behind the declarations of lists, each with what it becomes behind these.
const COMPILED: [(&str, &str); 19] = [
    ("", ""),
    // Tests of one place are one case.
    (
        "f 1 = Nil; data T 0; f 2 = Nil; main = f 2;",
        "data T 0;\nf match'p0 = case match'p0 of { 1 -> Nil; 2 -> Nil };\nmain = f 2;\n",
    ),
    // What follows an equation of names alone is never tried.
    ("f = Nil; f = Cons 65 f; main = f;", "f = Nil;\nmain = f;\n"),
    (
        "main Nil = Cons 78 Nil; main xs = xs;",
        "main match'p0 = case match'p0 of { Nil -> Cons 78 Nil; _ -> match'p0 };\n",
    ),
    // An integer and a constructor have cases of their own.
    (
        "f 0 = 65; f Nil = 66; f x = 67; main = Cons (f 0) (Cons (f Nil) (Cons (f f) Nil));",
        "f match'p0 = case match'p0 of { 0 -> 65; _ -> case match'p0 of { Nil -> 66; _ -> 67 } };\nmain = Cons (f 0) (Cons (f Nil) (Cons (f f) Nil));\n",
    ),
    // Nothing is tested twice.
    (
        "zip Nil ys = Nil; zip (Cons x xs) Nil = Nil; zip (Cons x xs) (Cons y ys) = Cons (add x y) (zip xs ys);",
        "zip match'p0 match'p1 = case match'p0 of { Nil -> Nil; Cons x xs -> case match'p1 of { Nil -> Nil; Cons y ys -> Cons (add x y) (zip xs ys) } };\n",
    ),
    // An equation that no tree takes is a function, which the equations before it go on with.
    (
        "f Nil 1 = Nil; f x y = x;",
        "f match'p0 match'p1 = case match'p0 of { Nil -> case match'p1 of { 1 -> Nil; _ -> match'1 match'p0 match'p1 }; _ -> match'1 match'p0 match'p1 };\nmatch'1 x y = x;\n",
    ),
    // Columns are tested from the left.
    (
        "f 1 2 = Nil;",
        "f match'p0 match'p1 = case match'p0 of { 1 -> case match'p1 of { 2 -> Nil } };\n",
    ),
    (
        "f x 1 = x; f y 2 = y;",
        "f match'p0 match'p1 = case match'p1 of { 1 -> match'p0; 2 -> match'p0 };\n",
    ),
    // A name that all equations have at a place stays.
    (
        "f x 1 = x; f x 2 = Nil;",
        "f x match'p1 = case match'p1 of { 1 -> x; 2 -> Nil };\n",
    ),
    (
        "f (Cons x xs) 1 = x; f (Cons y xs) 2 = y;",
        "f match'p0 match'p1 = case match'p0 of { Cons match'q0 xs -> case match'p1 of { 1 -> match'q0; 2 -> match'q0 } };\n",
    ),
    // `_` stays where no call takes it.
    (
        "f _ 1 = Nil; f _ 2 = 1;",
        "f _ match'p1 = case match'p1 of { 1 -> Nil; 2 -> 1 };\n",
    ),
    (
        "f _ 1 1 = Nil; f _ x 2 = x;",
        "f match'p0 match'p1 match'p2 = case match'p1 of { 1 -> case match'p2 of { 1 -> Nil; _ -> match'1 match'p0 match'p1 match'p2 }; _ -> match'1 match'p0 match'p1 match'p2 };\nmatch'1 _ x match'p2 = case match'p2 of { 2 -> x };\n",
    ),
    // Names that a body binds stand for themselves.
    (
        "f (Cons x Nil) = x; f (Cons y ys) = let x = y in Cons x ys; f z = z;",
        "f match'p0 = case match'p0 of { Cons match'q0 match'q1 -> case match'q1 of { Nil -> match'q0; _ -> let x = match'q0 in Cons x match'q1 }; _ -> match'p0 };\n",
    ),
    (
        "f add 1 = add; f y 2 = add y 1;",
        "f match'p0 match'p1 = case match'p1 of { 1 -> add; 2 -> add match'p0 1 };\n",
    ),
    // Patterns in patterns, from outside in.
    (
        "f (Cons (Cons x Nil) 7) = x;",
        "f match'p0 = case match'p0 of { Cons match'q0 match'q1 -> case match'q0 of { Cons x match'q3 -> case match'q3 of { Nil -> case match'q1 of { 7 -> x } } } };\n",
    ),
    // A default that some values fail in ends the tree.
    (
        "f Nil 1 = 1; f Nil 2 = 2; f (Cons x xs) 1 = x; f ys 3 = 3;",
        "f match'p0 match'p1 = case match'p0 of { Nil -> case match'p1 of { 1 -> 1; 2 -> 2; _ -> match'3 match'p0 match'p1 }; Cons x xs -> case match'p1 of { 1 -> x; _ -> match'3 match'p0 match'p1 }; _ -> match'3 match'p0 match'p1 };\nmatch'3 ys match'p1 = case match'p1 of { 3 -> 3 };\n",
    ),
    // With over 12 patterns no call is written.
    (
        "f 1 1 a b c d e g h i j k l = 1; f x y a b c d e g h i j k l = 2;",
        "f match'p0 match'p1 a b c d e g h i j k l = case match'p0 of { 1 -> case match'p1 of { 1 -> 1 } };\nmatch'1 x y a b c d e g h i j k l = 2;\n",
    ),
    // Functions of later equations follow all others.
    (
        "f 1 1 = 1; f x y = 2; g = f;",
        "f match'p0 match'p1 = case match'p0 of { 1 -> case match'p1 of { 1 -> 1; _ -> match'1 match'p0 match'p1 }; _ -> match'1 match'p0 match'p1 };\ng = f;\nmatch'1 x y = 2;\n",
    ),
];

#[test]
fn texts_become_programs(rt: HostRuntime) -> Result<(), Fail> {
    let alloc = rt.alloc();
    for (text, want) in COMPILED {
        let want = format!(in alloc; "{LISTED}{want}")?;
        match compiled(alloc, text)? {
            Ok(core) => {
                let found = print(alloc, &core)?;
                assert_eq!(rt; found.as_slice(), want.as_bytes(), "{text}");
            }
            Err(broken) => assert_eq!(rt; broken, (0, 0), "{text}"),
        }
    }
    Ok(())
}

#[test]
fn a_text_that_breaks_a_rule_becomes_none(rt: HostRuntime) -> Result<(), Fail> {
    let alloc = rt.alloc();
    match compiled(alloc, "f 1 = Nil; f 1 2 = Nil;")? {
        Ok(_) => assert_eq!(rt; (0, 0), (71, 36)),
        Err(broken) => assert_eq!(rt; broken, (71, 36)),
    }
    Ok(())
}

/// The number of a program's functions, and of the alternatives of the first one.
fn counts(core: &Core) -> (usize, usize) {
    let functions = core.functions.as_slice();
    match functions {
        [] => (0, 0),
        [first, ..] => match &first.body {
            Expr::Case(_, alts) => (functions.len(), alts.as_slice().len()),
            _ => (functions.len(), 0),
        },
    }
}

#[test]
fn many_equations_become_one_case(rt: HostRuntime) -> Result<(), Fail> {
    let alloc = rt.alloc();
    let mut text = format!(in alloc; "")?;
    for k in 0..64 {
        write!(text, "f {k} = {k}; ")?;
    }
    match compiled(alloc, text.as_str())? {
        Ok(core) => assert_eq!(rt; counts(&core), (1, 64)),
        Err(broken) => assert_eq!(rt; broken, (0, 0)),
    }
    Ok(())
}
