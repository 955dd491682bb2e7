//! Each rule once with its file and place, in each order that matters, and texts that link.

use core_link::{LinkRefusal, Texts, link};
use core_print::print;
use std::alloc::{AllocError, Global};
use std::process::Abort;
use std::test::Fail;

/// `Main` and `List`, each of which needs the other.
const A: &str = "module Main; import List Nil Cons take; main = take (Cons 65 Nil);";

const B: &str = "module List; export Nil Cons take; data Nil 0; data Cons 2; take xs = xs;";
/// What they are together.
const LISTS: &str =
    "data Nil 0;\ndata Cons 2;\ntake'List xs' = xs';\nmain = take'List (Cons 65 Nil);\n";

/// A module that gives the constructors of lists, and one that gives a function.
const P: &str = "module P; export Nil Cons; data Nil 0; data Cons 2;";

const M: &str = "module M; export f; f = 1;";

/// The list of these texts.
fn texts_of(alloc: Global, files: &[&[u8]]) -> Result<Texts, AllocError> {
    let mut texts = Texts::new(alloc);
    for file in files {
        texts.add(*file)?;
    }
    Ok(texts)
}

/// The rule that the texts break first, with its file and place. Want of memory fails.
fn broken(alloc: Global, files: &[&[u8]]) -> Result<Option<(u8, u32, u32)>, AllocError> {
    let texts = texts_of(alloc, files)?;
    match link(alloc, &texts) {
        Ok(_) => Ok(None),
        Err(refusal) => match refusal.kind.rule() {
            Some((rule, at)) => Ok(Some((rule, refusal.file, at))),
            None => Err(AllocError),
        },
    }
}

/// The texts break this rule first, at this place of this file.
fn is_broken(
    rt: &impl Abort,
    alloc: Global,
    files: &[&str],
    want: (u8, u32, u32),
) -> Result<(), Fail> {
    let mut bytes = Vec::new(alloc);
    for file in files {
        bytes.push(file.as_bytes())?;
    }
    assert_eq!(rt; broken(alloc, bytes.as_slice())?, Some(want));
    Ok(())
}

/// Texts of one file, the rule and its place.
const ONE: [(&str, u8, u32); 21] = [
    // the header
    ("", 2, 0),
    ("data Nil 0;", 2, 0),
    ("module Main", 2, 11),
    ("module A_b;", 2, 7),
    ("module A';", 2, 7),
    ("module main;", 2, 7),
    ("module Main; main = module;", 2, 20),
    ("module Main; import A; export main; main = 1;", 2, 23),
    ("module Main; main = 1; import A;", 2, 23),
    // rules of one file
    ("module Main; main = 99999999999;", 3, 20),
    ("module Main; main = add; add = 1;", 22, 25),
    ("module Main; export foo; f add = 1; main = 1;", 55, 20),
    ("module Main; main = 1; main = 2;", 58, 23),
    ("module Main; data Nil 0; data Nil 0; main = 1;", 58, 30),
    // rules between files, of one file
    ("module A; f = foo;", 59, 0),
    ("module Main; f = 1;", 59, 0),
    ("module A; main = 1;", 59, 0),
    ("module Main; import B f; main = f;", 53, 20),
    ("module Main; import Main main; main = 1;", 54, 25),
    ("module Main; main = foo;", 57, 20),
    ("module Main; main = Nil;", 57, 20),
];

#[test]
fn each_rule_of_one_file_has_its_place(rt: HostRuntime) -> Result<(), Fail> {
    let alloc = rt.alloc();
    for (text, rule, at) in &ONE {
        is_broken(&rt, alloc, &[*text], (*rule, 0, *at))?;
    }
    Ok(())
}

/// Two files, the rule, the file and the place.
const TWO: [(&str, &str, u8, u32, u32); 17] = [
    (A, A, 53, 0, 20),
    (
        B,
        "module Main; import List Nil Cons drop; main = 1;",
        54,
        1,
        34,
    ),
    (
        "module Main; import List Nil Cons drop; main = 1;",
        B,
        54,
        0,
        34,
    ),
    (
        "module Main; import P Cons; main = Cons 72 Nil;",
        P,
        57,
        0,
        43,
    ),
    ("module Main; import M f f; main = f;", M, 56, 0, 24),
    ("module Main; import M g g; main = g;", M, 54, 0, 22),
    ("module Main; import M f; main = 1; f = 2;", M, 56, 0, 22),
    (
        "module Main; import M f; import N f; main = f;",
        M,
        53,
        0,
        32,
    ),
    // A name that is imported and not exported by the first module of the name.
    (M, "module M; main = 1;", 59, 0, 0),
    // The rules of one file come first, by files, and then the lack of a `main`.
    ("module A; f = foo;", "module B; f = (;", 2, 1, 15),
    ("module A; export g;", "module B; f = (;", 55, 0, 17),
    (
        "module Main; main = foo;",
        "module B; f = 1; f = 2;",
        58,
        1,
        17,
    ),
    ("module A; f = foo;", "module A; f = 1;", 59, 0, 0),
    // Then a file's first place.
    (
        "module Main; main = foo;",
        "module Main; main = foo;",
        57,
        0,
        20,
    ),
    (
        "module Main; main = 1;",
        "module Main; main = foo;",
        52,
        1,
        7,
    ),
    (
        "module Main; data Nil 0; main = 1;",
        "module N; data Cons 2; data Nil 0;",
        58,
        1,
        28,
    ),
    (
        "module Main; data Nil 0; main = 1;",
        "module N; data Nil 0; f = foo;",
        58,
        1,
        15,
    ),
];

#[test]
fn each_rule_between_files_has_its_file(rt: HostRuntime) -> Result<(), Fail> {
    let alloc = rt.alloc();
    for (first, second, rule, file, at) in &TWO {
        is_broken(&rt, alloc, &[*first, *second], (*rule, *file, *at))?;
    }
    is_broken(&rt, alloc, &[A, B, A], (52, 2, 7))?;
    is_broken(&rt, alloc, &[A, B, "module M; data Nil 0;"], (58, 2, 15))?;
    is_broken(
        &rt,
        alloc,
        &[A, B, "module M; import List Nil; data Nil 0;"],
        (56, 2, 22),
    )
}

#[test]
fn rules_1_and_4_and_5_come_before_those_of_names(rt: HostRuntime) -> Result<(), Fail> {
    let alloc = rt.alloc();
    let mut bad = Vec::new(alloc);
    bad.extend_from_slice(b"module Main; main = 1; main = 2;\xff")?;
    assert_eq!(&rt; broken(alloc, &[bad.as_slice()])?, Some((1, 0, 32)));
    let mut deep = Vec::new(alloc);
    deep.extend_from_slice(b"module Main; main = ")?;
    for _ in 0..201 {
        deep.push(b'(')?;
    }
    assert_eq!(&rt;
        broken(alloc, &[A.as_bytes(), deep.as_slice()])?,
        Some((4, 1, 220))
    );
    let mut long = Vec::new(alloc);
    for _ in 0..1048577 {
        long.push(b')')?;
    }
    assert_eq!(&rt; broken(alloc, &[long.as_slice()])?, Some((5, 0, 1048576)));
    let twice = b"module Main; main = 1; main = 2;";
    assert_eq!(&rt;
        broken(alloc, &[twice.as_slice(), b"\xff".as_slice()])?,
        Some((58, 0, 23))
    );
    Ok(())
}

/// The files link to this text.
fn links_to(rt: &impl Abort, alloc: Global, files: &[&str], want: &str) -> Result<(), Fail> {
    let mut bytes = Vec::new(alloc);
    for file in files {
        bytes.push(file.as_bytes())?;
    }
    let texts = texts_of(alloc, bytes.as_slice())?;
    let core = link(alloc, &texts)?;
    let text = print(alloc, &core)?;
    assert_eq!(rt; text.as_slice(), want.as_bytes());
    Ok(())
}

#[test]
fn texts_link_in_any_order(rt: HostRuntime) -> Result<(), Fail> {
    let alloc = rt.alloc();
    links_to(&rt, alloc, &[A, B], LISTS)?;
    links_to(&rt, alloc, &[B, A], LISTS)?;
    let main = "module Main; export main; import A f; main = f;";
    let a = "module A; export f; import Main main; f = main;";
    links_to(&rt, alloc, &[main, a], "f'A = main;\nmain = f'A;\n")?;
    links_to(&rt, alloc, &[a, main], "f'A = main;\nmain = f'A;\n")
}

/// One module `Main`, and what it links to.
const ALONE: [(&str, &str); 5] = [
    ("module Main; main = 1;", "main = 1;\n"),
    (
        "module Main; export main; main = f 1; f _ = 2;",
        "main = f'Main 1;\nf'Main _ = 2;\n",
    ),
    // A local hides a function, and keeps a name of its own.
    (
        "module Main; f f = f; main = f 1;",
        "f'Main f' = f';\nmain = f'Main 1;\n",
    ),
    ("module Main; main = add 1 2;", "main = add 1 2;\n"),
    (
        "module Main; main = let x = 1 in x;",
        "main = let x' = 1 in x';\n",
    ),
];

#[test]
fn one_module_keeps_its_declarations(rt: HostRuntime) -> Result<(), Fail> {
    let alloc = rt.alloc();
    for (text, want) in &ALONE {
        links_to(&rt, alloc, &[*text], *want)?;
    }
    Ok(())
}
