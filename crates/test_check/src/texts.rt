//! Texts with their answers.

use core_print::laws::printing_round_trips;
use core_print::print;
use core_reader::{Core, Names, ReadRefusal, read};
use std::alloc::{AllocError, Global};
use std::process::Abort;
use std::test::Fail;

/// The declarations that most texts begin with, 25 bytes.
const PRELUDE: &[u8] = b"data Nil 0; data Cons 2; ";

/// The rule that a text breaks first, with its place, or none.
fn broken(alloc: Global, text: &[u8]) -> Result<Option<(u32, u32)>, AllocError> {
    match read(alloc, text) {
        Ok(_) => Ok(None),
        Err(ReadRefusal::BadByte(at)) => Ok(Some((1, at))),
        Err(ReadRefusal::Syntax(at)) => Ok(Some((2, at))),
        Err(ReadRefusal::NumberRange(at)) => Ok(Some((3, at))),
        Err(ReadRefusal::TooDeep(at)) => Ok(Some((4, at))),
        Err(ReadRefusal::TextTooLong) => Ok(Some((5, 1048576))),
        Err(ReadRefusal::Memory(error)) => Err(error),
    }
}

/// A text of a head, pieces that are the same, a middle, as many other pieces, and an end.
fn repeated(
    alloc: Global,
    head: &[u8],
    piece: &[u8],
    times: usize,
    middle: &[u8],
    other: &[u8],
    end: &[u8],
) -> Result<Vec<u8>, AllocError> {
    let mut text = Vec::new(alloc);
    text.extend_from_slice(head)?;
    put_times(&mut text, piece, times)?;
    text.extend_from_slice(middle)?;
    put_times(&mut text, other, times)?;
    text.extend_from_slice(end)?;
    Ok(text)
}

/// Puts a piece at the end so many times.
fn put_times(text: &mut Vec<u8>, piece: &[u8], times: usize) -> Result<(), AllocError> {
    for _ in 0..times {
        text.extend_from_slice(piece)?;
    }
    Ok(())
}

/// A text, and the rule that it breaks first, with its place.
type Row = (&'static [u8], Option<(u32, u32)>);

const ALONE: [Row; 12] = [
    (b"", None),
    (b"\xff", Some((1, 0))),
    (b"data Nil 0; data Cons 2", Some((2, 23))),
    (b")99999999999", Some((2, 0))),
    (b"f = 99999999999 \xff )", Some((3, 4))),
    (b"99999999999", Some((2, 0))),
    (b"f = -2147483648;", None),
    (b"f = -2147483649;", Some((3, 4))),
    (b"data T 2147483647; f x' _ = 12ab -00;", None),
    (b"data T -1;", Some((2, 7))),
    (b"f = let x = 1; y = 2; in case x of { _ -> x; };", None),
    (b"f = case x of { };", Some((2, 16))),
];

/// Texts behind the declarations.
const BEHIND: [Row; 3] = [
    (b"main = case", Some((2, 36))),
    (b"main = - 1;", Some((1, 32))),
    (b"data T 2147483648;", Some((3, 32))),
];

/// Each text, behind a head, breaks this rule first.
fn first_broken_are(
    rt: &impl Abort,
    alloc: Global,
    head: &[u8],
    rows: &[Row],
) -> Result<(), AllocError> {
    for (text, want) in rows {
        let whole = repeated(alloc, head, b"", 0, text, b"", b"")?;
        assert_eq!(rt; broken(alloc, &whole)?, *want);
    }
    Ok(())
}

#[test]
fn names_the_first_broken_rule(rt: HostRuntime) -> Result<(), AllocError> {
    first_broken_are(&rt, rt.alloc(), b"", &ALONE)?;
    first_broken_are(&rt, rt.alloc(), PRELUDE, &BEHIND)
}

#[test]
fn reads_long_texts(rt: HostRuntime) -> Result<(), AllocError> {
    let most = repeated(rt.alloc(), b"", b" ", 1048576, b"", b"", b"")?;
    assert_eq!(rt; broken(rt.alloc(), &most)?, None);
    Ok(())
}

#[test]
fn reads_many_words(rt: HostRuntime) -> Result<(), Fail> {
    let wide = repeated(rt.alloc(), b"f =", b" x", 16383, b";", b"", b"")?;
    let core = read(rt.alloc(), &wide)?;
    assert_eq!(rt; core.names.texts().len(), 2);
    assert_eq!(rt; core.functions.as_slice().len(), 1);
    Ok(())
}

/// A program has so many names and constructors, and its functions stand at these places.
fn has(rt: &impl Abort, core: &Core, names: usize, constructors: usize, places: &[u32]) {
    assert_eq!(rt; core.names.texts().len(), names);
    assert_eq!(rt; core.constructors.as_slice().len(), constructors);
    let functions = core.functions.as_slice();
    assert_eq!(rt; functions.len(), places.len());
    for (function, at) in functions.iter().zip(places) {
        assert_eq!(rt; function.at, *at);
    }
}

#[test]
fn passes_over_comments(rt: HostRuntime) -> Result<(), Fail> {
    let text = b"data\r\nNil\r\n0;\tmain=Nil;-- \xc3\xa4 ) \xff\r\nid x=x; -- the end";
    let core = read(rt.alloc(), text)?;
    has(&rt, &core, 4, 1, &[14, 34]);
    Ok(())
}

/// A text with each construct, its functions before its constructors, and its canonical text.
const SPREAD: &[u8] =
    b"main = case id 007 of { Nil -> -0 ; Cons x _ -> let a = (f) ; b = Cons ( Cons ( x ) 1 ) -08 ; in f a b ;\r\n-3 -> id 0 ; 2 -> Nil ; y -> y ; } ;\r\n-- constructors ; ) come first\r\nid x=x;f=id;data Cons 02;data Nil\t0;";

const CANONICAL: &[u8] =
    b"data Cons 2;\ndata Nil 0;\nmain = case id 7 of { Nil -> 0; Cons x _ -> let a = (f); b = Cons (Cons (x) 1) -8 in f a b; -3 -> id 0; 2 -> Nil; y -> y };\nid x = x;\nf = id;\n";

/// A text, and the canonical text of its program.
const PRINTED: [(&[u8], &[u8]); 4] = [
    (b" -- nothing", b""),
    (
        b"data Nil 0; data Cons 2; main = Cons 72 (Cons 105 Nil);",
        b"data Nil 0;\ndata Cons 2;\nmain = Cons 72 (Cons 105 Nil);\n",
    ),
    (
        b"f = -2147483648; data T 2147483647;",
        b"data T 2147483647;\nf = -2147483648;\n",
    ),
    (SPREAD, CANONICAL),
];

/// A program has this canonical text.
fn prints(rt: &impl Abort, alloc: Global, core: &Core, want: &[u8]) -> Result<(), Fail> {
    let text = print(alloc, core)?;
    assert_eq!(rt; text.as_slice(), want);
    Ok(())
}

/// A text has this canonical text, and so has the program that is read from that.
fn is_printed(rt: &impl Abort, alloc: Global, text: &[u8], want: &[u8]) -> Result<(), Fail> {
    let core = read(alloc, text)?;
    prints(rt, alloc, &core, want)?;
    let again = printing_round_trips(alloc, &core)?;
    prints(rt, alloc, &again, want)
}

/// The texts have these canonical texts.
fn are_printed(rt: &impl Abort, alloc: Global, rows: &[(&[u8], &[u8])]) -> Result<(), Fail> {
    for (text, want) in rows {
        is_printed(rt, alloc, text, want)?;
    }
    Ok(())
}

#[test]
fn prints_the_canonical_text(rt: HostRuntime) -> Result<(), Fail> {
    are_printed(&rt, rt.alloc(), &PRINTED)
}

/// The same program, its names made anew of their texts.
fn renamed(core: Core) -> Core {
    let Core {
        names,
        constructors,
        functions,
    } = core;
    Core {
        names: Names::from_vec(names.into_vec()),
        constructors,
        functions,
    }
}

#[test]
fn names_come_again(rt: HostRuntime) -> Result<(), Fail> {
    let core = renamed(read(rt.alloc(), SPREAD)?);
    assert_eq!(rt; core.names.texts().len(), 10);
    prints(&rt, rt.alloc(), &core, CANONICAL)
}
