//! Texts that are run: programs that end, one that doesn't, and refusals.

use crate::outside::{LISTS, Outside, RUN, program_answers};
use grin_driver::{Options, run_text};
use grin_io::{MemSink, MemSource};
use std::alloc::{AllocError, Global};
use std::test::Fail;
use worked_texts::TAKE_TWICE;

#[test]
fn programs_that_end(rt: HostRuntime) -> Result<(), Fail> {
    let rows = [
        ("main = Nil;", ""),
        ("main = Cons 72 (Cons 105 Nil);", "Hi"),
        ("main = let c = Cons 65 Nil in Cons 66 c;", "BA"),
        (
            "take n xs = case n of { 0 -> Nil; m -> case xs of { Nil -> Nil; Cons h t -> Cons h (take (sub m 1) t) } }; \
             from n = Cons n (from (add n 1)); main = take 3 (from 65);",
            "ABC",
        ),
        (
            "twice x = Cons x (Cons x Nil); main = twice (add 32 33);",
            "AA",
        ),
        (
            "bad = case 1 of { 2 -> Nil }; second a b = b; main = second bad Nil;",
            "",
        ),
        ("id x = x; main = Cons (id id 66) Nil;", "B"),
        (
            "k x y = x; main = case k 65 of { p -> Cons (p Nil) Nil };",
            "A",
        ),
        (TAKE_TWICE, "A"),
        // The cell of the list is taken apart by the caller.
        (
            "hd c = case c of { Cons h t -> h }; main = case hd (Cons 65 Nil) of { x -> Cons x Nil };",
            "A",
        ),
        // What gives a number or else what `f` gives has no place for a tag after the call.
        (
            "f x = add x 1; g x = case x of { 0 -> Nil; _ -> f x }; main = case g 64 of { y -> Cons y Nil };",
            "A",
        ),
    ];
    for (text, out) in rows {
        let is_so = program_answers(rt.alloc(), text, &RUN, 0, out, "")?;
        assert!(rt; is_so, "{text}");
    }
    Ok(())
}

#[test]
fn programs_that_stop(rt: HostRuntime) -> Result<(), Fail> {
    let rows = [
        (
            "bad = case 1 of { 2 -> Nil }; main = Cons 65 bad;",
            3,
            "A",
            "grinc: no alternative\n",
        ),
        (
            "main = Cons (add Nil 1) Nil;",
            3,
            "",
            "grinc: no alternative\n",
        ),
        ("main = Cons Nil Nil;", 3, "", "grinc: no alternative\n"),
        ("main = 7;", 3, "", "grinc: no alternative\n"),
        ("main = main;", 5, "", "grinc: stack full\n"),
    ];
    for (text, code, out, err) in rows {
        let is_so = program_answers(rt.alloc(), text, &RUN, code, out, err)?;
        assert!(rt; is_so, "{text}");
    }
    Ok(())
}

#[test]
fn texts_that_are_refused(rt: HostRuntime) -> Result<(), Fail> {
    let rows = [
        ("main = foo;", "grinc: refused 14 at 32\n"),
        ("main = Cons 1;", "grinc: refused 15 at 32\n"),
        ("main = Cons 2147483648 Nil;", "grinc: refused 3 at 37\n"),
    ];
    for (text, err) in rows {
        for command in ["run", "build"] {
            let words = ["grinc", command, "a"];
            let is_refused = program_answers(rt.alloc(), text, &words, 1, "", err)?;
            assert!(rt; is_refused, "{command} {text}");
        }
    }
    Ok(())
}

#[test]
fn arithmetic_at_its_edges(rt: HostRuntime) -> Result<(), Fail> {
    let text = format!(in rt.alloc();
        "{LISTS}main = Cons (quot -2147483648 -1) (Cons (quot 7 0) (Cons (rem 7 0) Nil));"
    )?;
    let outside = Outside::of(text.as_bytes());
    assert!(rt; outside.answers_bytes(rt.alloc(), &RUN, 0, &[0x00, 0xFF, 0x07], "")?);
    Ok(())
}

#[test]
fn lines_and_a_comment(rt: HostRuntime) -> Result<(), Fail> {
    let text =
        "data\r\nNil\r\n0;\r\ndata\r\nCons\r\n2;\r\nmain\r\n=\r\nCons\r\n72\r\n(Cons\r\n105\r\nNil);-- größer";
    assert!(rt; Outside::of(text.as_bytes()).answers(rt.alloc(), &RUN, 0, "Hi", "")?);
    Ok(())
}

#[test]
fn endless_programs(rt: HostRuntime) -> Result<(), Fail> {
    let words = ["grinc", "run", "a", "--steps", "1000000"];
    for text in [
        "main = let c = Cons 46 c in c;",
        "main = Cons 46 main;",
        "main = let c = Cons 46 c in Cons 46 c;",
    ] {
        let text = format!(in rt.alloc(); "{LISTS}{text}")?;
        let outside = Outside::of(text.as_bytes());
        let is_so = outside.repeats(rt.alloc(), &words, 6, b'.', "grinc: step limit\n")?;
        assert!(rt; is_so, "{text}");
    }
    Ok(())
}

#[test]
fn a_text_that_is_run_alone(rt: HostRuntime) -> Result<(), Fail> {
    let text = format!(in rt.alloc(); "{LISTS}main xs = Cons 72 xs;")?;
    let mut input = MemSource::new(Vec::from_slice(rt.alloc(), b"i")?, Vec::new(rt.alloc()));
    let mut out = MemSink::new(rt.alloc(), 2, Vec::new(rt.alloc()))?;
    let options = Options {
        cells: 1000,
        stack: 4096,
    };
    let ended = run_text(
        rt.alloc(),
        text.as_bytes(),
        options,
        1_000_000,
        &mut input,
        &mut out,
    );
    assert_eq!(rt; (ended.status.code(), out.taken()), (0, &b"Hi"[..]));
    Ok(())
}

#[test]
fn what_is_given_suffices_or_not(rt: HostRuntime) -> Result<(), Fail> {
    // The list of five has a cell for each of its numbers, its conses and its end, and there are
    // the cells of the program itself.
    let text = format!(in rt.alloc();
        "{LISTS}main = Cons 72 (Cons 101 (Cons 108 (Cons 108 (Cons 111 Nil))));"
    )?;
    let rows: [(&[&str], u8, &str, &str); 6] = [
        (&["grinc", "run", "a", "--heap", "100"], 0, "Hello", ""),
        (
            &["grinc", "run", "a", "--heap", "1"],
            4,
            "",
            "grinc: heap full\n",
        ),
        (&["grinc", "run", "--stack=1024", "a"], 0, "Hello", ""),
        (
            &["grinc", "run", "--steps", "1", "a"],
            6,
            "",
            "grinc: step limit\n",
        ),
        (&["grinc", "run", "--heap=00100", "--", "a"], 0, "Hello", ""),
        (
            &["grinc", "run", "--heap=0007", "--", "a"],
            4,
            "",
            "grinc: heap full\n",
        ),
    ];
    for (words, code, out, err) in rows {
        let outside = Outside::of(text.as_bytes());
        assert!(rt; outside.answers(rt.alloc(), words, code, out, err)?);
    }
    Ok(())
}

#[test]
fn cells_that_nothing_reads(rt: HostRuntime) -> Result<(), Fail> {
    // With the first heap a program ends, and with the second, a cell less, its heap is full.
    let rows = [
        (
            "main = let a = 65; b = Cons a a; c = Cons b b in Cons a Nil;",
            "3",
            "2",
            "A",
        ),
        (
            "f x = add x 1; main = case f 1 of { y -> Cons 65 Nil };",
            "3",
            "2",
            "A",
        ),
        (
            "data Pair 2; main = let p = Pair 65 66 in case p of { Pair x y -> Cons x Nil };",
            "3",
            "2",
            "A",
        ),
        (
            "data Box 1; main = let b = Box b in Cons 65 Nil;",
            "3",
            "2",
            "A",
        ),
        (
            "data Pair 2; swap p = case p of { Pair a b -> Pair b a }; \
             main = case swap (Pair 1 65) of { Pair a b -> Cons a Nil };",
            "3",
            "2",
            "A",
        ),
    ];
    for (text, enough, less, out) in rows {
        let text = format!(in rt.alloc(); "{LISTS}{text}")?;
        let outside = Outside::of(text.as_bytes());
        let words = ["grinc", "run", "a", "--heap", enough];
        let is_so = outside.answers(rt.alloc(), &words, 0, out, "")?;
        assert!(rt; is_so, "{text}");
        let words = ["grinc", "run", "a", "--heap", less];
        let is_full = outside.ends(rt.alloc(), &words, 4, "grinc: heap full\n")?;
        assert!(rt; is_full, "{text}");
    }
    // One cell is that of `main` itself, and each dot needs two more, beside that of n.
    let rows = [
        ("k x y = x; main = k Nil (Cons 65 Nil);", "1", 0, "", ""),
        (
            "h y = case y of { Nil -> Nil; Cons a b -> b }; main = let c = Cons 1 Nil in Nil;",
            "1",
            0,
            "",
            "",
        ),
        (
            "go n = case add n 1 of { m -> Cons 46 (go n) }; main = go 1;",
            "12",
            4,
            ".....",
            "grinc: heap full\n",
        ),
    ];
    for (text, heap, code, out, err) in rows {
        let words = ["grinc", "run", "a", "--heap", heap];
        let is_so = program_answers(rt.alloc(), text, &words, code, out, err)?;
        assert!(rt; is_so, "{text}");
    }
    Ok(())
}

/// The least number of instructions with which a file doesn't meet their bound, up to 4,096.
fn least_steps(alloc: Global, file: &[u8], heap: &str) -> Result<u32, AllocError> {
    let mut least: u32 = 0;
    for bit in [2048u32, 1024, 512, 256, 128, 64, 32, 16, 8, 4, 2, 1] {
        let steps = least | bit;
        let number = format!(in alloc; "{steps}")?;
        let words = [
            "grinc",
            "run",
            "a",
            "--heap",
            heap,
            "--steps",
            number.as_str(),
        ];
        if Outside::of(file).ends(alloc, &words, 6, "grinc: step limit\n")? {
            least = steps;
        }
    }
    Ok(least.saturating_add(1))
}

#[test]
fn what_a_run_cost(rt: HostRuntime) -> Result<(), Fail> {
    // Of one that ends it is the least heap with which it does; where the heap is full, all of it.
    let rows = [
        (
            "main = let a = 65; b = Cons a a; c = Cons b b in Cons a Nil;",
            "100",
            0,
            "A",
            "",
            3,
        ),
        (
            "k x y = x; main = k Nil (Cons 65 Nil);",
            "100",
            0,
            "",
            "",
            1,
        ),
        (
            "go n = case add n 1 of { m -> Cons 46 (go n) }; main = go 1;",
            "12",
            4,
            ".....",
            "grinc: heap full\n",
            12,
        ),
    ];
    for (text, heap, code, out, line, cells) in rows {
        let text = format!(in rt.alloc(); "{LISTS}{text}")?;
        let steps = least_steps(rt.alloc(), text.as_bytes(), heap)?;
        let err = format!(in rt.alloc(); "{line}grinc: instructions {steps} cells {cells}\n")?;
        let words = ["grinc", "run", "a", "--stats", "--heap", heap];
        let outside = Outside::of(text.as_bytes());
        let is_so = outside.answers(rt.alloc(), &words, code, out, err.as_str())?;
        assert!(rt; is_so, "{text}");
    }
    Ok(())
}

/// Whether a text that finds no alternative gives this output, and then tells of so many cells, and
/// that it stood in this procedure.
fn stood_in(
    alloc: Global,
    text: &str,
    out: &str,
    cells: u32,
    name: &str,
) -> Result<bool, AllocError> {
    let text = format!(in alloc; "{LISTS}{text}")?;
    let steps = least_steps(alloc, text.as_bytes(), "100")?;
    let err = format!(in alloc;
        "grinc: no alternative\ngrinc: instructions {steps} cells {cells}\ngrinc: no alternative in {name}\n"
    )?;
    let words = ["grinc", "run", "a", "--stats", "--heap", "100"];
    Outside::of(text.as_bytes()).answers(alloc, &words, 3, out, err.as_str())
}

#[test]
fn where_no_alternative_was(rt: HostRuntime) -> Result<(), Fail> {
    let rows = [
        ("bad = case 1 of { 2 -> Nil }; main = bad;", "", 2, "bad"),
        // Each of the first two procedures may find none, and the second one does.
        (
            "go n = case pick n of { 1 -> Cons 65 (go (add n 1)) }; pick n = case n of { 1 -> 1 }; main = go 1;",
            "A",
            6,
            "pick",
        ),
        // A list that doesn't end as one is found in the loop that prints it.
        ("main = Cons 65 7;", "A", 3, "@print"),
    ];
    for (text, out, cells, name) in rows {
        let is_so = stood_in(rt.alloc(), text, out, cells, name)?;
        assert!(rt; is_so, "{text}");
    }
    Ok(())
}

/// Of a name of 120 bytes a hundred are shown.
#[test]
fn a_long_name_is_cut(rt: HostRuntime) -> Result<(), Fail> {
    let part = "twenty_bytes_of_name";
    let shown = format!(in rt.alloc(); "{part}{part}{part}{part}{part}")?;
    let text = format!(in rt.alloc();
        "{shown}{part} = case 1 of {{ 2 -> Nil }}; main = {shown}{part};"
    )?;
    assert!(rt; stood_in(rt.alloc(), text.as_str(), "", 2, shown.as_str())?);
    Ok(())
}

#[test]
fn the_cost_up_to_the_last_step(rt: HostRuntime) -> Result<(), Fail> {
    let text = format!(in rt.alloc(); "{LISTS}main = let c = Cons 46 c in c;")?;
    let outside = Outside::of(text.as_bytes());
    let rows: [(&[&str], u8, &str); 2] = [
        (
            &["grinc", "run", "a", "--steps", "2", "--stats"],
            6,
            "grinc: step limit\ngrinc: instructions 2 cells 0\n",
        ),
        (&["grinc", "check", "a", "--stats"], 2, "grinc: usage\n"),
    ];
    for (words, code, err) in rows {
        let is_so = outside.answers(rt.alloc(), words, code, "", err)?;
        assert!(rt; is_so, "{err}");
    }
    let words = ["grinc", "run", "a", "--stats"];
    let err = "grinc: refused 14 at 7\n";
    let is_refused = Outside::of(b"main = foo;").answers(rt.alloc(), &words, 1, "", err)?;
    assert!(rt; is_refused, "{err}");
    Ok(())
}
