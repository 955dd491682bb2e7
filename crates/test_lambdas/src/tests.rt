//! Texts with lambdas and local functions, with the rule that each breaks first, and its place.

use core_reader::ReadRefusal;
use lambda_reader::read_lambdas;
use std::alloc::{AllocError, Global};
use std::fmt::Write;
use std::process::Abort;
use std::test::Fail;

/// `Nil` and `Cons`, 25 bytes.
const LISTS: &[u8] = b"data Nil 0; data Cons 2; ";

/// What reading a text tells: how many functions it has and where its first reserved name stands,
/// or the rule that it breaks first, and its place.
type Told = Result<(usize, Option<u32>), (u8, u32)>;

/// What reading a text tells. Want of memory is no answer.
fn told(alloc: Global, text: &[u8]) -> Result<Told, AllocError> {
    match read_lambdas(alloc, text) {
        Ok(found) => Ok(Ok((found.program.functions.as_slice().len(), found.reserved))),
        Err(ReadRefusal::BadByte(at)) => Ok(Err((1, at))),
        Err(ReadRefusal::Syntax(at)) => Ok(Err((2, at))),
        Err(ReadRefusal::NumberRange(at)) => Ok(Err((3, at))),
        Err(ReadRefusal::TooDeep(at)) => Ok(Err((4, at))),
        Err(ReadRefusal::TextTooLong) => Ok(Err((5, 1048576))),
        Err(ReadRefusal::Memory(error)) => Err(error),
    }
}

/// A text behind the declarations of lists.
fn behind_lists(alloc: Global, text: &str) -> Result<Vec<u8>, AllocError> {
    let mut whole = Vec::new(alloc);
    whole.extend_from_slice(LISTS)?;
    whole.extend_from_slice(text.as_bytes())?;
    Ok(whole)
}

/// Texts behind the declarations of lists, each with the rule that it breaks first, and its place.
const BROKEN: [(&str, u8, u32); 17] = [
    ("main = \\x -> x;", 2, 32),
    ("main = (\\ -> 1);", 2, 35),
    ("main = (\\x -> );", 2, 39),
    ("main = (\\x 1 -> x);", 2, 36),
    ("main = (\\x = x);", 2, 36),
    ("main = (\\x -> x;", 2, 40),
    ("main = (f \\x -> x);", 2, 35),
    ("main = let f x y in f;", 2, 42),
    ("main = let f x = x g = 1 in f;", 2, 46),
    ("main = let f 1 = 2 in f;", 2, 38),
    ("main = let f x = in f;", 2, 42),
    ("main = let f x = case x of { _ -> x } x in f;", 2, 63),
    ("f \\ = 1;", 2, 27),
    ("main = (\\x -> ?);", 1, 39),
    ("main = (\\x -> 2147483648);", 3, 39),
    ("main = let f 2147483648 = 1 in f;", 2, 38),
    ("main = (\\x ->", 2, 38),
];

#[test]
fn each_rule_has_its_place(rt: HostRuntime) -> Result<(), Fail> {
    let alloc = rt.alloc();
    for (text, rule, place) in BROKEN {
        let whole = behind_lists(alloc, text)?;
        assert_eq!(rt;
            told(alloc, whole.as_slice())?,
            Err((rule, place)),
            "{text}"
        );
    }
    Ok(())
}

/// Texts that break no rule, behind the declarations of lists, with the number of their functions
/// and the place of the first name that is reserved.
const SOUND: [(&str, usize, Option<u32>); 9] = [
    ("", 0, None),
    ("f x = (\\x -> Cons x Nil) x; main = f 65;", 2, None),
    (
        "main = (\\x -> (\\y -> Cons x (Cons y Nil))) 65 66;",
        1,
        None,
    ),
    ("main = let ev n = od n; od n = ev n in ev 5;", 1, None),
    ("main = let f f = f; in f (Cons 65 Nil);", 1, None),
    ("main = let f x = let y = x in y; z = Nil in f z;", 1, None),
    (
        "main = (\\x _ -> case x of { Nil -> (\\y -> y); _ -> f }); f = 1;",
        2,
        None,
    ),
    ("main = (\\lift' -> 1) Nil;", 1, Some(34)),
    ("main = (\\lift -> 1) lift'0 lift';", 1, Some(45)),
];

#[test]
fn texts_that_break_no_rule_are_read(rt: HostRuntime) -> Result<(), Fail> {
    let alloc = rt.alloc();
    for (text, functions, reserved) in SOUND {
        let whole = behind_lists(alloc, text)?;
        assert_eq!(rt;
            told(alloc, whole.as_slice())?,
            Ok((functions, reserved)),
            "{text}"
        );
    }
    Ok(())
}

/// So many lambdas, each in the one before.
fn nested(alloc: Global, times: usize) -> Result<Vec<u8>, AllocError> {
    let mut text = behind_lists(alloc, "main = ")?;
    for _ in 0..times {
        text.extend_from_slice(b"(\\x -> ")?;
    }
    text.extend_from_slice(b"x")?;
    for _ in 0..times {
        text.extend_from_slice(b")")?;
    }
    text.extend_from_slice(b";")?;
    Ok(text)
}

#[test]
fn two_hundred_lambdas_are_open_at_most(rt: HostRuntime) -> Result<(), Fail> {
    let alloc = rt.alloc();
    let most = nested(alloc, 200)?;
    assert_eq!(rt; told(alloc, most.as_slice())?, Ok((1, None)), "200 lambdas");
    let deeper = nested(alloc, 201)?;
    assert_eq!(rt;
        told(alloc, deeper.as_slice())?,
        Err((4, 1432)),
        "201 lambdas"
    );
    Ok(())
}

#[test]
fn a_text_has_so_many_bytes_at_most(rt: HostRuntime) -> Result<(), Fail> {
    let alloc = rt.alloc();
    let mut text = Vec::new(alloc);
    for _ in 0..1048576 {
        text.push(b' ')?;
    }
    assert_eq!(rt;
        told(alloc, text.as_slice())?,
        Ok((0, None)),
        "as many as there may be"
    );
    text.push(b'\\')?;
    assert_eq!(rt;
        told(alloc, text.as_slice())?,
        Err((5, 1048576)),
        "one more"
    );
    Ok(())
}
