//! Texts whose programs are long, or nest or bind much.

use crate::outside::{LISTS, Outside, RUN, program_answers};
use std::alloc::{AllocError, Global};
use std::test::Fail;
use worked_texts::{QUEENS, many_delayed};

/// The numbers from `i` to `n`.
const UPTO: &str = "upto i n = case lt n i of { 1 -> Nil; _ -> Cons i (upto (add i 1) n) }; ";

/// The sum of a list, by nested evaluations.
const SUM: &str = "sum xs = case xs of { Nil -> 0; Cons h t -> add h (sum t) }; \
                   main = Cons (sum (upto 1 100000)) Nil;";

/// The length of a list, in a loop.
const COUNT: &str =
    "count xs acc = case xs of { Nil -> acc; Cons h t -> case add acc 1 of { a -> count t a } }; \
                     main = case count (upto 1 100000) 0 of { 100000 -> Cons 79 Nil };";

/// A function with so many branches, for the numbers from 0 on, which is given the last of them.
fn many_branches(alloc: Global, count: u32) -> Result<String, AllocError> {
    let mut text = String::from_str(alloc, LISTS)?;
    text.push_str("f n = case n of { ")?;
    for k in 0..count {
        if k > 0 {
            text.push_str("; ")?;
        }
        write!(text, "{k} -> Cons {k} Nil")?;
    }
    let last = count.saturating_sub(1);
    write!(text, " }}; main = f {last};")?;
    Ok(text)
}

/// The bytes of the image of a function with so many branches.
fn image_size(alloc: Global, count: u32) -> Result<Option<usize>, AllocError> {
    let text = many_branches(alloc, count)?;
    let ended = Outside::of(text.as_bytes()).run(alloc, &["grinc", "build", "a"])?;
    if ended.is_done() {
        Ok(Some(ended.bytes().len()))
    } else {
        Ok(None)
    }
}

#[test]
fn deep_and_long_evaluations(rt: HostRuntime) -> Result<(), Fail> {
    let words = ["grinc", "run", "a", "--stack", "65536"];
    for (main, code, out, err) in [(SUM, 5, "", "grinc: stack full\n"), (COUNT, 0, "O", "")] {
        let text = format!(in rt.alloc(); "{UPTO}{main}")?;
        let is_so = program_answers(rt.alloc(), text.as_str(), &words, code, out, err)?;
        assert!(rt; is_so, "{main}");
    }
    Ok(())
}

#[test]
fn a_function_longer_than_a_branch_reaches(rt: HostRuntime) -> Result<(), Fail> {
    let text = many_branches(rt.alloc(), 300)?;
    let outside = Outside::of(text.as_bytes());
    assert!(rt; outside.answers_bytes(rt.alloc(), &RUN, 0, &[0x2B], "")?);
    // With one branch all the other code is there too.
    let long = image_size(rt.alloc(), 300)?.ok_or("no image")?;
    let short = image_size(rt.alloc(), 1)?.ok_or("no image")?;
    let longer = long.saturating_sub(short);
    assert!(rt; longer > 4096, "{longer}");
    Ok(())
}

#[test]
fn eight_queens(rt: HostRuntime) -> Result<(), Fail> {
    let lines: [&[&str]; 2] = [
        &["grinc", "run", "a"],
        &["grinc", "run", "a", "--heap", "300000"],
    ];
    for words in lines {
        let outside = Outside::of(QUEENS.as_bytes());
        assert!(rt; outside.answers(rt.alloc(), words, 0, "92\n", "")?);
    }
    Ok(())
}

#[test]
fn twelve_fields(rt: HostRuntime) -> Result<(), Fail> {
    let check = ["grinc", "check", "a"];
    let rows: [(&str, &[&str], &str); 2] = [
        (
            "data T 12; main = Nil;",
            &check,
            "ok functions 1 constructors 3 size 8\n",
        ),
        (
            "data T 12; f x = case x of { T a b c d e g h i j k l m -> Cons l Nil }; \
             main = f (T 65 66 67 68 69 70 71 72 73 74 75 76);",
            &RUN,
            "K",
        ),
    ];
    for (text, words, out) in rows {
        let is_so = program_answers(rt.alloc(), text, words, 0, out, "")?;
        assert!(rt; is_so, "{text}");
    }
    Ok(())
}

#[test]
fn programs_about_the_largest_size(rt: HostRuntime) -> Result<(), Fail> {
    let rows = [
        (119, 0, ""),
        (120, 1, "grinc: refused 36 at 131322\n"),
        // Far too large.
        (1000, 1, "grinc: refused 36 at 9014042\n"),
    ];
    for (count, code, err) in rows {
        let text = many_delayed(rt.alloc(), count)?;
        let outside = Outside::of(text.as_bytes());
        let is_so = outside.answers(rt.alloc(), &RUN, code, "", err)?;
        assert!(rt; is_so, "{count}");
    }
    Ok(())
}
