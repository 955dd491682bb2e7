//! How often images enter their procedures and how many instructions they do in each, worked by hand
//! from the words of their code.

use crate::outside::{LISTS, Object, Outside};
use std::test::Fail;

/// The words that ask for a profile.
const PROFILE: [&str; 3] = ["grinc", "profile", "a"];

const GREETS: &str = "main = Cons 72 (Cons 105 Nil);";

/// The words of the start and of `main` are done once. `@print` does 45 of its words where it calls
/// `main`, 37 where the cell has a list, and 15 at its end.
const GREETS_PROFILE: &str = "\
start instructions 15
main entries 1 instructions 21
@print entries 3 instructions 97
";

#[test]
fn what_images_do_in_each_procedure(rt: HostRuntime) -> Result<(), Fail> {
    let rows: [(&str, &[&str], &str); 2] = [
        (GREETS, &PROFILE, GREETS_PROFILE),
        (GREETS, &["grinc", "profile", "--", "a"], GREETS_PROFILE),
    ];
    for (text, words, profile) in rows {
        let text = format!(in rt.alloc(); "{LISTS}{text}")?;
        let is_so = Outside::of(text.as_bytes()).answers(rt.alloc(), words, 0, profile, "")?;
        assert!(rt; is_so, "{profile}");
    }
    Ok(())
}

#[test]
fn refused_texts_have_no_profile(rt: HostRuntime) -> Result<(), Fail> {
    let rows: [(&str, &[&str], u8, &str); 4] = [
        ("", &PROFILE, 1, "grinc: refused 19 at 0\n"),
        ("main = 1;", &PROFILE, 1, "grinc: refused 21 at 0\n"),
        ("", &["grinc", "profile"], 2, "grinc: usage\n"),
        (
            "",
            &["grinc", "profile", "a", "--units", "1"],
            2,
            "grinc: usage\n",
        ),
    ];
    for (text, words, code, err) in rows {
        let is_so = Outside::of(text.as_bytes()).answers(rt.alloc(), words, code, "", err)?;
        assert!(rt; is_so, "{err}");
    }
    Ok(())
}

#[test]
fn profiles_that_are_not_taken(rt: HostRuntime) -> Result<(), Fail> {
    let text = format!(in rt.alloc(); "{LISTS}{GREETS}")?;
    let outside = Outside {
        file: text.as_bytes(),
        input: b"",
        failing: Some((Object::Out, 0)),
    };
    let is_so = outside.answers(rt.alloc(), &PROFILE, 10, "", "grinc: write fault\n")?;
    assert!(rt; is_so);
    Ok(())
}
