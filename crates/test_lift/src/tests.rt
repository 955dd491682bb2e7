//! Texts with lambdas and local functions with what they are lifted to, and each rule once with its
//! place.

use core_print::print;
use lambda_lift::{LiftRefusal, lift};
use std::alloc::Global;
use std::fmt::Write;
use std::test::Fail;

/// `Nil` and `Cons`, 25 bytes.
const LISTS: &str = "data Nil 0; data Cons 2; ";

/// The canonical text of `LISTS`.
const LISTED: &str = "data Nil 0;\ndata Cons 2;\n";

/// The lifted text of a text behind the declarations of lists, or the rule that it breaks first and
/// its place. Want of memory is no answer.
fn lifted(alloc: Global, text: &str) -> Result<Result<Vec<u8>, (u8, u32)>, Fail> {
    let text = format!(in alloc; "{LISTS}{text}")?;
    match lift(alloc, text.as_bytes()) {
        Ok(core) => Ok(Ok(print(alloc, &core)?)),
        Err(LiftRefusal::Memory(error)) => Err(Fail::from(error)),
        Err(refusal) => Ok(Err((refusal.rule(), refusal.place()))),
    }
}

/// Texts behind the declarations of lists, each with what it is lifted to behind these.
const LIFTED: [(&str, &str); 19] = [
    (
        "main = let y = 66; g x = Cons y x in g Nil;",
        "main = let y = 66; g = lift'0 y in g Nil;\nlift'0 y x = Cons y x;\n",
    ),
    (
        "main = (\\x -> Cons x Nil) 65;",
        "main = (lift'0) 65;\nlift'0 x = Cons x Nil;\n",
    ),
    ("main = Nil;", "main = Nil;\n"),
    (
        "f x = (\\x -> Cons x Nil) x; main = f 65;",
        "f x = (lift'0) x;\nmain = f 65;\nlift'0 x = Cons x Nil;\n",
    ),
    (
        "main = let x = 1; y = 64 in (\\a -> Cons (add y x) (Cons y a)) Nil;",
        "main = let x = 1; y = 64 in (lift'0 y x) Nil;\nlift'0 y x a = Cons (add y x) (Cons y a);\n",
    ),
    (
        "main = (\\x -> (\\y -> Cons x (Cons y Nil))) 65 66;",
        "main = (lift'0) 65 66;\nlift'0 x = (lift'1 x);\nlift'1 x y = Cons x (Cons y Nil);\n",
    ),
    (
        "main = let ev n = case n of { 0 -> Cons 69 Nil; _ -> od (sub n 1) }; od n = case n of { 0 -> Cons 79 Nil; _ -> ev (sub n 1) } in ev 5;",
        "main = let ev = lift'0 od; od = lift'1 ev in ev 5;\nlift'0 od n = case n of { 0 -> Cons 69 Nil; _ -> od (sub n 1) };\nlift'1 ev n = case n of { 0 -> Cons 79 Nil; _ -> ev (sub n 1) };\n",
    ),
    (
        "main = let f f = f in f (Cons 65 Nil);",
        "main = let f = lift'0 in f (Cons 65 Nil);\nlift'0 f = f;\n",
    ),
    (
        "main = let f n = f (add n 1) in f 1;",
        "main = let f = lift'0 f in f 1;\nlift'0 f n = f (add n 1);\n",
    ),
    (
        "id x = x; main = let id = 66; g y = Cons id y in g Nil;",
        "id x = x;\nmain = let id = 66; g = lift'0 id in g Nil;\nlift'0 id y = Cons id y;\n",
    ),
    (
        "main = let z = Nil in ((\\x -> Cons x z)) 65;",
        "main = let z = Nil in ((lift'0 z)) 65;\nlift'0 z x = Cons x z;\n",
    ),
    (
        "main = (\\x x -> x) 1 Nil;",
        "main = (lift'0) 1 Nil;\nlift'0 x x = x;\n",
    ),
    (
        "f _ = (\\x _ -> add x _); main = Nil;",
        "f _ = (lift'0);\nmain = Nil;\nlift'0 x _ = add x _;\n",
    ),
    (
        "f add = (\\x -> add x add); main = Nil;",
        "f add = (lift'0);\nmain = Nil;\nlift'0 x = add x add;\n",
    ),
    (
        "f x y = case x of { Cons y z -> (\\w -> Cons w (Cons y z)) x; z -> (\\w -> y) z }; main = Nil;",
        "f x y = case x of { Cons y z -> (lift'0 y z) x; z -> (lift'1 y) z };\nmain = Nil;\nlift'0 y z w = Cons w (Cons y z);\nlift'1 y w = y;\n",
    ),
    (
        "f a = (\\x -> let g y = (\\z -> add a z) y; h = (\\a -> g a) in h x); main = (\\x -> x);",
        "f a = (lift'0 a);\nmain = (lift'4);\nlift'0 a x = let g = lift'1 a; h = (lift'3 g) in h x;\nlift'1 a y = (lift'2 a) y;\nlift'2 a z = add a z;\nlift'3 g a = g a;\nlift'4 x = x;\n",
    ),
    (
        "f a b c d e g h i j k l = (\\x -> Cons x (a b c d e g h i j k l)); main = Nil;",
        "f a b c d e g h i j k l = (lift'0 a b c d e g h i j k l);\nmain = Nil;\nlift'0 a b c d e g h i j k l x = Cons x (a b c d e g h i j k l);\n",
    ),
    (
        "main = (\\lift -> 1) Nil;",
        "main = (lift'0) Nil;\nlift'0 lift = 1;\n",
    ),
    (
        "f a b = (\\x -> b (a x) (b a)); main = Nil;",
        "f a b = (lift'0 b a);\nmain = Nil;\nlift'0 b a x = b (a x) (b a);\n",
    ),
];

#[test]
fn texts_are_lifted(rt: HostRuntime) -> Result<(), Fail> {
    let alloc = rt.alloc();
    for (text, want) in LIFTED {
        let want = format!(in alloc; "{LISTED}{want}")?;
        match lifted(alloc, text)? {
            Ok(found) => assert_eq!(rt; found.as_slice(), want.as_bytes(), "{text}"),
            Err(broken) => assert_eq!(rt; broken, (0, 0), "{text}"),
        }
    }
    Ok(())
}

/// Texts behind the declarations of lists, each with the rule that it breaks first, and its place.
const BROKEN: [(&str, u8, u32); 14] = [
    ("f ? = 1;", 1, 27),
    ("main = \\x -> x;", 2, 32),
    ("main = (\\ -> 1);", 2, 35),
    ("main = let f x y in f;", 2, 42),
    ("f x = 2147483648;", 3, 31),
    (
        "f a b c d e g h i j k l = (\\x _ -> Cons x (a b c d e g h i j k l)); main = Nil;",
        61,
        52,
    ),
    (
        "f a b c d e g h i j k l = let m x y = Cons x (a b c d e g h i j k l) in m; main = Nil;",
        61,
        55,
    ),
    ("main = (\\a b c d e f g h i j k l m -> m);", 61, 33),
    ("main = (\\lift' -> 1) Nil;", 62, 34),
    ("lift'7 = 1;", 62, 25),
    ("main = lift'x;", 62, 32),
    // Two at once: the first place.
    (
        "f = (\\a b c d e f g h i j k l m -> lift'); main = Nil;",
        61,
        30,
    ),
    (
        "f = (\\lift' -> (\\a b c d e f g h i j k l m -> m)); main = Nil;",
        62,
        31,
    ),
    // What cannot be read comes first.
    ("lift' = (\\ -> 1);", 2, 36),
];

#[test]
fn each_rule_has_its_place(rt: HostRuntime) -> Result<(), Fail> {
    let alloc = rt.alloc();
    for (text, rule, place) in BROKEN {
        match lifted(alloc, text)? {
            Ok(_) => assert_eq!(rt; (0, 0), (rule, place), "{text}"),
            Err(found) => assert_eq!(rt; found, (rule, place), "{text}"),
        }
    }
    Ok(())
}

/// So many lambdas, one in the other.
fn nested(alloc: Global, count: usize) -> Result<Result<Vec<u8>, (u8, u32)>, Fail> {
    let mut text = format!(in alloc; "main = ")?;
    for i in 0..count {
        text.push_str("(\\x -> ")?;
    }
    text.push_str("x")?;
    for i in 0..count {
        text.push_str(")")?;
    }
    text.push_str(";")?;
    lifted(alloc, text.as_str())
}

#[test]
fn two_hundred_lambdas_may_stand_in_one_another(rt: HostRuntime) -> Result<(), Fail> {
    let alloc = rt.alloc();
    match nested(alloc, 200)? {
        Ok(_) => {}
        Err(found) => assert_eq!(rt; found, (0, 0)),
    }
    match nested(alloc, 201)? {
        Ok(_) => assert_eq!(rt; (0, 0), (4, 1432)),
        Err(found) => assert_eq!(rt; found, (4, 1432)),
    }
    Ok(())
}
