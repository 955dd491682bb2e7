//! The two sides of types that do not fit.

use core_types::{TypeFault, TypeRefusal, shown_sides, typed};
use std::alloc::{AllocError, Global};
use std::process::Abort;
use std::test::Fail;

/// The type of lists, 37 bytes.
const LIST: &str = "type List a = Nil | Cons a (List a); ";

/// The place of the types that do not fit, with its two sides. Want of memory is no answer.
fn sides(alloc: Global, text: &str) -> Result<Option<(u32, Vec<u8>)>, AllocError> {
    match typed(alloc, text.as_bytes()) {
        Ok(_) => Ok(None),
        Err(TypeRefusal::Fault(TypeFault::Memory(error))) => Err(error),
        Err(TypeRefusal::Fault(_)) => Ok(None),
        Err(TypeRefusal::Mismatch(at, left, right, names)) => {
            let both = shown_sides(alloc, names.texts(), &left, &right)?;
            Ok(Some((at, both)))
        }
    }
}

/// Texts behind the type of lists, with the place of the types that do not fit, and its two sides.
const MISMATCHES: [(&str, u32, &str); 9] = [
    (
        "id x = x; main = Cons (id 65) (id Nil);",
        68,
        "Int -> Int and List v0 -> List Int",
    ),
    ("f x = x x; main = Nil;", 43, "v0 and v0 -> v1"),
    ("sig f : a -> b; f x = x; main = Nil;", 59, "v0 and v1"),
    (
        "main = Cons (Cons 1 Nil) Nil;",
        50,
        "v0 -> List v0 -> List v0 and Int -> List v1 -> Int",
    ),
    ("sig main : a; main = Nil;", 51, "v0 and List Int"),
    (
        "main = Cons ((Nil)) Nil;",
        44,
        "v0 -> List v0 -> List v0 and List v1 -> List v2 -> List Int",
    ),
    // Brackets around an arrow and around a type with arguments.
    (
        "sig f : (Int -> Int) -> Int; f g = 1; main = Cons (f Nil) Nil;",
        88,
        "(Int -> Int) -> Int and List v0 -> Int",
    ),
    (
        "sig f : (List (List Int)) -> Int; f x = x; main = Nil;",
        77,
        "List (List Int) and Int",
    ),
    // A type without arguments wants no brackets.
    (
        "type T = A; sig f : (List T) -> Int; f x = x; main = Nil;",
        80,
        "List T and Int",
    ),
];

#[test]
fn sides_are_those_of_the_first_mismatch(rt: HostRuntime) -> Result<(), Fail> {
    let alloc = rt.alloc();
    for (text, place, both) in &MISMATCHES {
        let text = format!(in alloc; "{LIST}{text}")?;
        let Some((at, found)) = sides(alloc, text.as_str())? else {
            panic!(&rt; "{text} has no mismatch");
        };
        assert_eq!(&rt; at, *place, "{text}");
        assert!(&rt; found.as_slice() == both.as_bytes(), "{text}");
    }
    Ok(())
}

#[test]
fn other_texts_have_no_sides(rt: HostRuntime) -> Result<(), Fail> {
    let alloc = rt.alloc();
    assert!(&rt; sides(alloc, "type List a = Nil | Cons a (List a); main = Nil;")?.is_none());
    assert!(&rt; sides(alloc, "type L a = Nil | Cons a a; f x = x x; main = Nil;")?.is_none());
    Ok(())
}
