//! Each rule of equations once with its place, and texts that are read.

use match_compile::{MatchRefusal, Pat, Source, read_equations};
use std::alloc::Global;
use std::fmt::Write;
use std::process::Abort;
use std::test::Fail;

/// `Nil` and `Cons`, 25 bytes.
const LISTS: &str = "data Nil 0; data Cons 2; ";

/// The equations of a text behind the declarations of lists, or the rule that it breaks first and
/// its place. Want of memory is no answer.
fn read(alloc: Global, text: &str) -> Result<Result<Source, (u8, u32)>, Fail> {
    let text = format!(in alloc; "{LISTS}{text}")?;
    match read_equations(alloc, text.as_bytes()) {
        Ok(source) => Ok(Ok(source)),
        Err(MatchRefusal::Memory(error)) => Err(Fail::from(error)),
        Err(refusal) => Ok(Err((refusal.rule(), refusal.place()))),
    }
}

/// The rule that a text breaks first and its place, or 0 where it breaks none.
fn broken(alloc: Global, text: &str) -> Result<(u8, u32), Fail> {
    match read(alloc, text)? {
        Ok(_) => Ok((0, 0)),
        Err(broken) => Ok(broken),
    }
}

/// Texts behind the declarations of lists, each with the rule that it breaks first, and its place.
const BROKEN: [(&str, u8, u32); 19] = [
    ("f ? = 1;", 1, 27),
    ("f (x) = 1;", 2, 28),
    ("f (1) = 1;", 2, 28),
    ("f -> 1;", 2, 27),
    ("f (Cons x = 1;", 2, 35),
    ("f 2147483648 = 1;", 3, 27),
    ("f 1 = Nil; g = Nil; f 2 = Nil;", 12, 45),
    ("f 1 = Nil; g = Nil; f 2 = Nil; g = Nil;", 12, 45),
    ("f x (Cons y x) = y;", 13, 37),
    ("f x x x = x;", 13, 29),
    ("f Foo = 1;", 14, 27),
    ("f (Cons Nil Foo) = 1;", 14, 37),
    ("f 1 = Nil; f 1 2 = Nil;", 71, 36),
    ("f = Nil; f 1 = Nil;", 71, 34),
    ("f Cons = 1;", 73, 27),
    ("f (Nil x) = 1;", 73, 28),
    ("main = let match'x = 1 in Nil;", 74, 36),
    ("match' = 1;", 74, 25),
    // Two at once: the first place, and at one place the smaller number.
    ("f x = Nil; g = Nil; f 1 2 = Nil;", 12, 45),
];

#[test]
fn each_rule_has_its_place(rt: HostRuntime) -> Result<(), Fail> {
    let alloc = rt.alloc();
    for (text, rule, place) in BROKEN {
        let found = broken(alloc, text)?;
        assert_eq!(rt; found, (rule, place), "{text}");
    }
    Ok(())
}

/// Texts that break no rule.
const SOUND: [&str; 7] = [
    "",
    "f _ _ = 1;",
    "f 1 = Nil; data T 0; f 2 = Nil;",
    "f (Nil) -0 = 1; f Nil 00 = 2;",
    "f (Cons (Cons x Nil) (Cons 1 xs)) = x;",
    "matches' = 1; f match = match;",
    "zip Nil ys = Nil; zip (Cons x xs) Nil = Nil; zip (Cons x xs) (Cons y ys) = Cons x y;",
];

#[test]
fn texts_that_break_no_rule_are_read(rt: HostRuntime) -> Result<(), Fail> {
    let alloc = rt.alloc();
    for text in SOUND {
        let found = broken(alloc, text)?;
        assert_eq!(rt; found, (0, 0), "{text}");
    }
    Ok(())
}

/// The number of the patterns of the first equation, and of those in its first pattern.
fn counts(source: &Source) -> (usize, usize, usize) {
    let equations = source.equations.as_slice();
    match equations {
        [] => (0, 0, 0),
        [first, ..] => {
            let pats = first.pats.as_slice();
            match pats {
                [Pat::Con(_, fields), ..] => {
                    (equations.len(), pats.len(), fields.as_slice().len())
                }
                _ => (equations.len(), pats.len(), 0),
            }
        }
    }
}

#[test]
fn patterns_are_read_with_their_fields(rt: HostRuntime) -> Result<(), Fail> {
    let alloc = rt.alloc();
    match read(alloc, "f (Cons x (Cons y Nil)) 1 z = x; f Nil 2 z = z;")? {
        Ok(source) => {
            assert_eq!(rt; counts(&source), (2, 3, 2), "two equations");
        }
        Err(broken) => {
            assert_eq!(rt; broken, (0, 0), "the text breaks no rule");
        }
    }
    Ok(())
}
