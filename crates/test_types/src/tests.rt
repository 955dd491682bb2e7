//! Each rule on types once with its place, and which of two is named.

use core_types::{TypeFault, typed_or_place};
use std::alloc::{AllocError, Global};
use std::process::Abort;
use std::test::Fail;

/// The type of lists, 37 bytes.
const LIST: &str = "type List a = Nil | Cons a (List a); ";

/// The rule that a text breaks first, with its place, or none. Want of memory is no rule.
fn broken(alloc: Global, text: &str) -> Result<Option<(u8, u64)>, AllocError> {
    match typed_or_place(alloc, text.as_bytes()) {
        Ok(_) => Ok(None),
        Err(TypeFault::Memory(error)) => Err(error),
        Err(fault) => Ok(Some((fault.rule(), fault.number()))),
    }
}

/// Texts behind the type of lists, with the rule that each breaks first, and its place.
const BROKEN: [(&str, u8, u64); 34] = [
    ("data T 0; main = Nil;", 2, 37),
    ("type T = C Int -> Int; main = Nil;", 2, 52),
    ("type T = C (List Int -> Int); main = Nil;", 2, 58),
    ("type T; main = Nil;", 2, 43),
    ("sig f : Int Int; f x = 1; main = Nil;", 2, 49),
    ("type T = Nil; main = Nil;", 11, 46),
    ("type List b = A; main = Nil;", 81, 42),
    ("type Int = A; main = Nil;", 81, 42),
    ("type T a a = T a; main = Nil;", 81, 46),
    ("sig f : List -> Int; f x = 1; main = Nil;", 82, 45),
    ("type T = A b; main = Nil;", 82, 48),
    ("type T = A (List Int Int); main = Nil;", 82, 49),
    ("sig f : (Int a); f = 1; main = Nil;", 82, 46),
    ("sig foo : Int; main = Nil;", 85, 41),
    (
        "sig main : (List Int); sig main : (List Int); main = Nil;",
        85,
        64,
    ),
    ("main = case Nil of { Nil -> Nil };", 84, 58),
    ("hd xs = case xs of { Cons h t -> h }; main = Nil;", 84, 58),
    ("f x = case x of { 1 -> 2 }; main = Nil;", 84, 55),
    ("id x = x; main = Cons (id 65) (id Nil);", 83, 68),
    ("f x = x x; main = Nil;", 83, 43),
    ("sig f : a -> b; f x = x; main = Nil;", 83, 59),
    ("main = Cons (Cons 1 Nil) Nil;", 83, 50),
    ("sig main : a; main = Nil;", 83, 51),
    ("main = Cons ((Nil)) Nil;", 83, 44),
    // Two at once.
    ("f x = x x; sig g : Bar; g = 1; main = Nil;", 82, 56),
    (
        "f x = case x of { Nil -> Nil }; g x = x x; main = Nil;",
        83,
        75,
    ),
    ("f x = x x; g x = x x; main = Nil;", 83, 43),
    ("sig foo : Bar; main = Nil;", 85, 41),
    ("type T = A Bar; type T = B; main = Nil;", 82, 48),
    ("type T a a = T a; main = foo;", 14, 62),
    ("main = case Nil of { Nil -> Nil }; sig foo : Int;", 85, 76),
    (
        "f x = case x of { Nil -> Nil }; main = case Nil of { Nil -> Nil };",
        84,
        55,
    ),
    // A default takes nothing for the cases around and in its own.
    (
        "main = case Nil of { Nil -> case Nil of { Nil -> Nil }; ys -> ys };",
        84,
        79,
    ),
    (
        "main = case case Nil of { Nil -> Nil } of { ys -> ys };",
        84,
        63,
    ),
];

#[test]
fn each_rule_has_its_place(rt: HostRuntime) -> Result<(), Fail> {
    let alloc = rt.alloc();
    for (text, rule, place) in &BROKEN {
        let text = format!(in alloc; "{LIST}{text}")?;
        let found = broken(alloc, text.as_str())?;
        assert_eq!(&rt; found, Some((*rule, *place)), "{text}");
    }
    Ok(())
}

/// Whole texts that have other lists or none.
const NO_LISTS: [(&str, u8, u64); 5] = [
    (
        "type List a = Nil | Cons a (List a) | Foo; main = Nil;",
        86,
        0,
    ),
    (
        "type L a = Nil | Cons a a; main = case Nil of { Nil -> Nil };",
        86,
        0,
    ),
    ("type L a = Nil | Cons a a; f x = x x; main = Nil;", 86, 0),
    ("main = 1;", 21, 0),
    ("type L a = Nil | Cons a a; type L = A; main = Nil;", 81, 32),
];

#[test]
fn other_lists_are_refused(rt: HostRuntime) -> Result<(), Fail> {
    let alloc = rt.alloc();
    for (text, rule, place) in &NO_LISTS {
        let found = broken(alloc, text)?;
        assert_eq!(&rt; found, Some((*rule, *place)), "{text}");
    }
    Ok(())
}

/// Texts behind the type of lists that break no rule.
const ACCEPTED: [&str; 5] = [
    "main = Cons 72 Nil;",
    "sig id : a -> a; id x = x; main = Cons (id 65) (id Nil);",
    "sig f : (a -> b) -> (List a) -> (List b); f g xs = Nil; main = Nil;",
    "type T _ = A (T ((_))) Int; main = case Nil of { Cons h t -> t; Nil -> Nil };",
    "f x = case x of { 1 -> 2; y -> y }; main = Nil;",
];

#[test]
fn others_are_accepted(rt: HostRuntime) -> Result<(), Fail> {
    let alloc = rt.alloc();
    for text in &ACCEPTED {
        let text = format!(in alloc; "{LIST}{text}")?;
        let found = broken(alloc, text.as_str())?;
        assert_eq!(&rt; found, None, "{text}");
    }
    Ok(())
}
