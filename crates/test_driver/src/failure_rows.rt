//! Failures of the outside, and words that are no command.

use crate::outside::{Object, Outside};
use std::test::Fail;

#[test]
fn failing_objects(rt: HostRuntime) -> Result<(), Fail> {
    let text = "data Nil 0; data Cons 2; main = Cons 72 (Cons 105 Nil);";
    let unknown = "data Nil 0; data Cons 2; main = foo;";
    let rows = [
        // The shelf is opened, gives the whole text, and then its end.
        (
            "run",
            text,
            (Object::Shelf, 0),
            9,
            "",
            "grinc: read fault\n",
        ),
        (
            "run",
            text,
            (Object::Shelf, 1),
            9,
            "",
            "grinc: read fault\n",
        ),
        (
            "run",
            text,
            (Object::Shelf, 2),
            9,
            "",
            "grinc: read fault\n",
        ),
        (
            "check",
            text,
            (Object::Shelf, 2),
            9,
            "",
            "grinc: read fault\n",
        ),
        (
            "exec",
            text,
            (Object::Shelf, 2),
            9,
            "",
            "grinc: read fault\n",
        ),
        (
            "run",
            text,
            (Object::Out, 0),
            10,
            "",
            "grinc: write fault\n",
        ),
        (
            "run",
            text,
            (Object::Out, 1),
            10,
            "H",
            "grinc: write fault\n",
        ),
        (
            "check",
            text,
            (Object::Out, 0),
            10,
            "",
            "grinc: write fault\n",
        ),
        // The program reads no input, so none of its reads fails.
        ("run", text, (Object::Input, 0), 0, "Hi", ""),
        ("run", unknown, (Object::Err, 0), 1, "", ""),
    ];
    for (command, text, failing, code, out, err) in rows {
        let outside = Outside {
            file: text.as_bytes(),
            input: b"",
            failing: Some(failing),
        };
        let words = ["grinc", command, "a"];
        let is_so = outside.answers(rt.alloc(), &words, code, out, err)?;
        assert!(rt; is_so, "{command} {err}");
    }
    Ok(())
}

#[test]
fn files_that_are_not_there(rt: HostRuntime) -> Result<(), Fail> {
    for command in ["run", "check", "points", "build", "exec"] {
        let words = ["grinc", command, "b"];
        let is_so = Outside::of(b"").answers(rt.alloc(), &words, 9, "", "grinc: read fault\n")?;
        assert!(rt; is_so, "{command}");
    }
    Ok(())
}

#[test]
fn words_that_are_no_command(rt: HostRuntime) -> Result<(), Fail> {
    let lines: [&[&str]; 19] = [
        &["grinc"],
        &["grinc", "run"],
        &["grinc", "run", "a", "b"],
        &["grinc", "run", ""],
        &["grinc", "run", "-a"],
        &["grinc", "run", "--heap", "0", "a"],
        &["grinc", "run", "--heap", "8000001", "a"],
        &["grinc", "run", "--stack", "1023", "a"],
        &["grinc", "run", "--heap", "1", "--heap", "1", "a"],
        &["grinc", "check"],
        &["grinc", "check", "a", "--steps", "1"],
        &["grinc", "exec", "a", "--steps", "0"],
        &["grinc", "build", "a", "--stack", "67108865"],
        &["grinc", "gen", "--seed", "1"],
        &["grinc", "link"],
        &["grinc", "link", "a", "--steps", "1"],
        &["grinc", "lift"],
        &["grinc", "lift", "a", "--steps", "1"],
        &["grinc", "gen", "--seed", "1", "--size", "201"],
    ];
    for words in lines {
        // A call of the shelf would be a read fault.
        let outside = Outside {
            file: b"",
            input: b"",
            failing: Some((Object::Shelf, 0)),
        };
        let is_so = outside.answers(rt.alloc(), words, 2, "", "grinc: usage\n")?;
        assert!(rt; is_so);
    }
    Ok(())
}
