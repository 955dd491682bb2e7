//! Modules that are linked: the text of those that go together, and the refusals of the others.

use crate::outside::{Ended, Object, Outside, RUN, file_of, line_of, nested};
use grin_io::MemFile;
use std::alloc::{AllocError, Global};
use std::test::Fail;

/// A module that imports from the next one.
const MAIN: &str = "module Main; import List Nil Cons take; main = take (Cons 65 Nil);";

const LIST: &str = "module List; export Nil Cons take; data Nil 0; data Cons 2; take xs = xs;";

/// The text that the two are together.
const LINKED: &str =
    "data Nil 0;\ndata Cons 2;\ntake'List xs' = xs';\nmain = take'List (Cons 65 Nil);\n";

/// The same as `MAIN`, but for one name that the other module doesn't export.
const DROP: &str = "module Main; import List Nil Cons drop; main = drop (Cons 65 Nil);";

/// A module that exports one function.
const ONE: &str = "module M; export f; f = 1;";

/// A module with the constructors of lists.
const LISTS: &str = "module P; export Nil Cons; data Nil 0; data Cons 2;";

/// Adds a file with these bytes behind the others.
fn add(alloc: Global, files: &mut Vec<MemFile>, bytes: &[u8]) -> Result<(), AllocError> {
    let number = files.len();
    let name = format!(in alloc; "file {number}")?;
    let file = file_of(alloc, name.as_str(), bytes)?;
    files.push(file)?;
    Ok(())
}

/// Files with these texts.
fn files_of(alloc: Global, texts: &[&str]) -> Result<Vec<MemFile>, AllocError> {
    let mut files = Vec::new(alloc);
    for text in texts {
        add(alloc, &mut files, text.as_bytes())?;
    }
    Ok(files)
}

/// How `link` of files ends.
fn linked(alloc: Global, outside: &Outside<'_>, files: Vec<MemFile>) -> Result<Ended, AllocError> {
    let mut line = line_of(alloc, &["grinc", "link"])?;
    for file in files.iter() {
        line.add(file.name.as_str())?;
    }
    outside.run_over(alloc, &line, files)
}

/// Whether `link` of files is answered so where nothing fails.
fn files_answer(
    alloc: Global,
    files: Vec<MemFile>,
    code: u8,
    out: &str,
    err: &str,
) -> Result<bool, AllocError> {
    let ended = linked(alloc, &Outside::of(b""), files)?;
    Ok(ended.is(code, out, err))
}

/// Whether `link` of files with these texts is answered so.
fn texts_answer(
    alloc: Global,
    outside: &Outside<'_>,
    texts: &[&str],
    code: u8,
    out: &str,
    err: &str,
) -> Result<bool, AllocError> {
    let files = files_of(alloc, texts)?;
    let ended = linked(alloc, outside, files)?;
    Ok(ended.is(code, out, err))
}

/// Whether a run of what files with these texts are together puts out this text.
fn linked_runs(alloc: Global, texts: &[&str], out: &str) -> Result<bool, AllocError> {
    let files = files_of(alloc, texts)?;
    let whole = linked(alloc, &Outside::of(b""), files)?;
    Outside::of(whole.bytes()).answers(alloc, &RUN, 0, out, "")
}

#[test]
fn linked_texts(rt: HostRuntime) -> Result<(), Fail> {
    let rows: [(&[&str], &str); 5] = [
        (&[MAIN, LIST], LINKED),
        (&[LIST, MAIN], LINKED),
        (&["module Main; main = 1;"], "main = 1;\n"),
        (
            &[
                "module Main; export main; import A f; main = f;",
                "module A; export f; import Main main; f = main;",
            ],
            "f'A = main;\nmain = f'A;\n",
        ),
        (
            &["module Main; f x _ = let y = add x 1 in g y; g = f; main = f;"],
            "f'Main x' _ = let y' = add x' 1 in g'Main y';\ng'Main = f'Main;\nmain = f'Main;\n",
        ),
    ];
    for (texts, out) in rows {
        let is_so = texts_answer(rt.alloc(), &Outside::of(b""), texts, 0, out, "")?;
        assert!(rt; is_so, "{out}");
    }
    assert!(rt; linked_runs(rt.alloc(), &[MAIN, LIST], "A")?);
    Ok(())
}

#[test]
fn refused_modules(rt: HostRuntime) -> Result<(), Fail> {
    let rows: [(&[&str], &str); 21] = [
        (&["module Main; main = - 1;"], "1 at 20"),
        (&[""], "2 at 0"),
        (&["module A_b;"], "2 at 7"),
        (&["module Main; main = module;"], "2 at 20"),
        (
            &["module Main; import A; export main; main = 1;"],
            "2 at 23",
        ),
        (&["module Main; main = 2147483648;"], "3 at 20"),
        (&["module Main; main = add; add = 1;"], "22 at 25"),
        (
            &["module Main; export foo; f add = 1; main = 1;"],
            "55 at 20",
        ),
        (&["module Main; main = 1; main = 2;"], "58 at 23"),
        (&[MAIN], "53 at 20"),
        (&[MAIN, MAIN], "53 at 20"),
        (&[MAIN, LIST, MAIN], "52 at 4194311"),
        (&[MAIN, LIST, "module M; data Nil 0;"], "58 at 4194319"),
        (&[DROP, LIST], "54 at 34"),
        (&[LIST, DROP], "54 at 2097186"),
        (&["module A; f = foo;"], "59 at 0"),
        (&["module Main; import M f f; main = f;", ONE], "56 at 24"),
        (&["module Main; import M g g; main = f;", ONE], "54 at 22"),
        (
            &["module Main; import M f; main = 1; f = 2;", ONE],
            "56 at 22",
        ),
        (
            &["module Main; import P Cons; main = Cons 72 Nil;", LISTS],
            "57 at 43",
        ),
        (&[ONE, "module Main; main = f;"], "57 at 2097172"),
    ];
    for (texts, rule) in rows {
        let err = format!(in rt.alloc(); "grinc: refused {rule}\n")?;
        let outside = Outside::of(b"");
        let is_refused = texts_answer(rt.alloc(), &outside, texts, 1, "", err.as_str())?;
        assert!(rt; is_refused, "{rule}");
    }
    Ok(())
}

#[test]
fn first_file_that_breaks_a_rule_by_itself(rt: HostRuntime) -> Result<(), Fail> {
    let rows = [
        (
            "module Main; main = 1; main = 2;",
            "grinc: refused 58 at 23\n",
        ),
        ("module Main; main = 1;", "grinc: refused 1 at 2097152\n"),
    ];
    for (text, err) in rows {
        let mut files = files_of(rt.alloc(), &[text])?;
        add(rt.alloc(), &mut files, b"\xFF")?;
        let is_refused = files_answer(rt.alloc(), files, 1, "", err)?;
        assert!(rt; is_refused, "{text}");
    }
    Ok(())
}

#[test]
fn limits_of_a_module(rt: HostRuntime) -> Result<(), Fail> {
    let spaces = vec![in rt.alloc(); b' '; 1_048_577]?;
    let mut files = files_of(rt.alloc(), &[LIST])?;
    add(rt.alloc(), &mut files, &spaces)?;
    let err = "grinc: refused 5 at 3145728\n";
    assert!(rt; files_answer(rt.alloc(), files, 1, "", err)?);
    let text = nested(rt.alloc(), "module Main; ", 201, "(", "1", ")")?;
    let files = files_of(rt.alloc(), &[text.as_str()])?;
    let err = "grinc: refused 4 at 220\n";
    assert!(rt; files_answer(rt.alloc(), files, 1, "", err)?);
    Ok(())
}

#[test]
fn failures_while_linking(rt: HostRuntime) -> Result<(), Fail> {
    // Each of the two files is opened, gives its text, and then its end; the text is one put.
    let rows = [
        (Object::Shelf, 0, 9, "grinc: read fault\n"),
        (Object::Shelf, 1, 9, "grinc: read fault\n"),
        (Object::Shelf, 2, 9, "grinc: read fault\n"),
        (Object::Shelf, 3, 9, "grinc: read fault\n"),
        (Object::Shelf, 4, 9, "grinc: read fault\n"),
        (Object::Shelf, 5, 9, "grinc: read fault\n"),
        (Object::Out, 0, 10, "grinc: write fault\n"),
    ];
    for (object, call, code, err) in rows {
        let outside = Outside {
            file: b"",
            input: b"",
            failing: Some((object, call)),
        };
        let is_so = texts_answer(rt.alloc(), &outside, &[MAIN, LIST], code, "", err)?;
        assert!(rt; is_so, "{call}");
        // A rule that the first file breaks is looked at once all files are read.
        if object == Object::Shelf {
            let is_so = texts_answer(rt.alloc(), &outside, &["module", LIST], code, "", err)?;
            assert!(rt; is_so, "{call}");
        }
    }
    let words = ["grinc", "link", "a", "b"];
    let outside = Outside::of(b"module Main; main = 1;");
    assert!(rt; outside.answers(rt.alloc(), &words, 9, "", "grinc: read fault\n")?);
    Ok(())
}

/// So many files, the last of which holds `main`.
fn modules(alloc: Global, count: usize) -> Result<Vec<MemFile>, AllocError> {
    let mut files = Vec::new(alloc);
    for number in 1..count {
        let text = format!(in alloc; "module M{number};")?;
        add(alloc, &mut files, text.as_bytes())?;
    }
    add(alloc, &mut files, b"module Main; main = 1;")?;
    Ok(files)
}

#[test]
fn sixty_four_files(rt: HostRuntime) -> Result<(), Fail> {
    for (count, code, out, err) in [(64, 0, "main = 1;\n", ""), (65, 2, "", "grinc: usage\n")] {
        let files = modules(rt.alloc(), count)?;
        let is_so = files_answer(rt.alloc(), files, code, out, err)?;
        assert!(rt; is_so, "{count}");
    }
    Ok(())
}
