//! What the analysis finds of texts, and the refusals of the others.

use crate::outside::{LISTS, Outside};
use std::test::Fail;
use worked_texts::{TAKE_TWICE, TAKE_TWICE_POINTS};

#[test]
fn what_is_found_of_a_list_taken_twice(rt: HostRuntime) -> Result<(), Fail> {
    let mut text = String::from_str(rt.alloc(), LISTS)?;
    text.push_str(TAKE_TWICE)?;
    let words = ["grinc", "points", "a"];
    let outside = Outside::of(text.as_bytes());
    let is_found = outside.answers(rt.alloc(), &words, 0, TAKE_TWICE_POINTS, "")?;
    assert!(rt; is_found);
    Ok(())
}

#[test]
fn refused_texts_have_no_points(rt: HostRuntime) -> Result<(), Fail> {
    let rows: [(&[&str], u8, &str); 2] = [
        (&["grinc", "points", "a"], 1, "grinc: refused 19 at 0\n"),
        (
            &["grinc", "points", "a", "--after", "eval"],
            2,
            "grinc: usage\n",
        ),
    ];
    for (words, code, err) in rows {
        let is_so = Outside::of(b"").answers(rt.alloc(), words, code, "", err)?;
        assert!(rt; is_so, "{err}");
    }
    Ok(())
}
