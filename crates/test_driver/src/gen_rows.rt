//! Generated texts: their summaries.

use crate::outside::Outside;
use std::test::Fail;

#[test]
fn summaries_of_generated_texts(rt: HostRuntime) -> Result<(), Fail> {
    // The numbers but those of the second row were worked out by a script that makes the texts and
    // evaluates them.
    let rows = [
        ("1", "1", "text 149 functions 5 size 34 output 1 sum 103\n"),
        ("1", "2", "text 202 functions 7 size 48 output 2 sum 103\n"),
        (
            "1",
            "200",
            "text 13930 functions 403 size 3126 output 200 sum 25022\n",
        ),
        (
            "2147483647",
            "2",
            "text 170 functions 7 size 42 output 2 sum 167\n",
        ),
    ];
    for (seed, size, summary) in rows {
        let words = ["grinc", "gen", "--seed", seed, "--size", size];
        for _ in 0..2 {
            let is_so = Outside::of(b"").answers(rt.alloc(), &words, 0, summary, "")?;
            assert!(rt; is_so, "{seed} {size}");
        }
    }
    Ok(())
}
