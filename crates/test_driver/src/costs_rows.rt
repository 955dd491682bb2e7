//! What images need, worked from the listings of their code, and the refusals of other texts.

use crate::outside::{LISTS, Object, Outside};
use std::test::Fail;
use worked_texts::QUEENS;

/// The words that ask what an image with the default heap and stack needs.
const COSTS: [&str; 3] = ["grinc", "costs", "a"];

/// A program that prints two bytes.
const GREETS: &str = "main = Cons 72 (Cons 105 Nil);";

/// `main` begins at the word of number 15 and `@print` at that of number 36, of 102, of which the
/// last nine stop the image. They take 4 and 8 bytes of stack. A cell has a tag and two fields.
const GREETS_COSTS: &str = "\
start code 15
cell 12
most frame 8 code 57
main frame 4 code 21
@print frame 8 code 57
";

/// The same where the heap ends at an address whose low twelve bits are zeros, which takes one
/// instruction less, at the start and behind each byte that is put.
const GREETS_AT_ONCE: &str = "\
start code 14
cell 12
most frame 8 code 56
main frame 4 code 21
@print frame 8 code 56
";

/// A cell has four words, since `@add` and the others wait with three.
const QUEENS_COSTS: &str = "\
start code 25
cell 16
most frame 24 code 190
one frame 4 code 5
eight frame 4 code 5
ten frame 4 code 5
safe frame 24 code 190
place frame 12 code 54
try frame 16 code 93
digits frame 12 code 103
main frame 4 code 28
@add frame 12 code 158
@sub frame 12 code 69
@quot frame 12 code 53
@rem frame 12 code 53
@print frame 12 code 70
";

#[test]
fn what_images_need(rt: HostRuntime) -> Result<(), Fail> {
    let greets = format!(in rt.alloc(); "{LISTS}{GREETS}")?;
    let heap = ["grinc", "costs", "--heap", "1024", "a"];
    let rows: [(&str, &[&str], &str); 3] = [
        (greets.as_str(), &COSTS, GREETS_COSTS),
        (greets.as_str(), &heap, GREETS_AT_ONCE),
        (QUEENS, &COSTS, QUEENS_COSTS),
    ];
    for (text, words, costs) in rows {
        let is_so = Outside::of(text.as_bytes()).answers(rt.alloc(), words, 0, costs, "")?;
        assert!(rt; is_so, "{costs}");
    }
    Ok(())
}

/// A sum in which each number waits for the sum of those below it.
const SUMS: &str =
    "sum n = case n of { 0 -> 0; _ -> add n (sum (sub n 1)) }; main = Cons (sum 897) Nil;";

/// `sum` gives a frame of its own to each of the 898 numbers, and the last one evaluates its number
/// by `@sub`.
const SUMS_COSTS: &str = "\
start code 15
cell 12
most frame 12 code 66
sum frame 8 code 58
main frame 4 code 17
@sub frame 12 code 26
@print frame 8 code 66
";

/// The frames come to 8 + 898 * 8 + 12 bytes at most. The cells are one for `main`, three of it,
/// and two for each number but 0.
#[test]
fn room_to_the_word(rt: HostRuntime) -> Result<(), Fail> {
    let text = format!(in rt.alloc(); "{LISTS}{SUMS}")?;
    let rows: [(&[&str], u8, &str, &str); 5] = [
        (&COSTS, 0, SUMS_COSTS, ""),
        (&["grinc", "run", "a", "--stack", "7204"], 0, "A", ""),
        (
            &["grinc", "run", "a", "--stack", "7203"],
            5,
            "",
            "grinc: stack full\n",
        ),
        (&["grinc", "run", "a", "--heap", "1798"], 0, "A", ""),
        (
            &["grinc", "run", "a", "--heap", "1797"],
            4,
            "",
            "grinc: heap full\n",
        ),
    ];
    for (words, code, out, err) in rows {
        let is_so = Outside::of(text.as_bytes()).answers(rt.alloc(), words, code, out, err)?;
        assert!(rt; is_so, "{out}{err}");
    }
    Ok(())
}

#[test]
fn refused_texts_have_no_costs(rt: HostRuntime) -> Result<(), Fail> {
    let rows: [(&str, &[&str], u8, &str); 4] = [
        ("", &COSTS, 1, "grinc: refused 19 at 0\n"),
        ("main = 1;", &COSTS, 1, "grinc: refused 21 at 0\n"),
        ("", &["grinc", "costs"], 2, "grinc: usage\n"),
        (
            "",
            &["grinc", "costs", "a", "--steps", "1"],
            2,
            "grinc: usage\n",
        ),
    ];
    for (text, words, code, err) in rows {
        let is_so = Outside::of(text.as_bytes()).answers(rt.alloc(), words, code, "", err)?;
        assert!(rt; is_so, "{err}");
    }
    Ok(())
}

#[test]
fn costs_that_are_not_taken(rt: HostRuntime) -> Result<(), Fail> {
    let outside = Outside {
        file: QUEENS.as_bytes(),
        input: b"",
        failing: Some((Object::Out, 0)),
    };
    let is_so = outside.answers(rt.alloc(), &COSTS, 10, "", "grinc: write fault\n")?;
    assert!(rt; is_so);
    Ok(())
}
