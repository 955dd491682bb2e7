//! Longer programs: what they print.

use crate::outside::{Outside, RUN};
use std::test::Fail;
use worked_texts::{INTERPRETER, LIFE};

#[test]
fn longer_programs(rt: HostRuntime) -> Result<(), Fail> {
    let rows = [
        (
            LIFE,
            ".#....\n..#...\n###...\n......\n......\n......\n\n\
             ......\n#.#...\n.##...\n.#....\n......\n......\n\n\
             ......\n..#...\n#.#...\n.##...\n......\n......\n\n\
             ......\n.#....\n..##..\n.##...\n......\n......\n\n\
             ......\n..#...\n...#..\n.###..\n......\n......\n\n",
        ),
        (INTERPRETER, "120\n"),
    ];
    for (text, out) in rows {
        let outside = Outside::of(text.as_bytes());
        assert!(rt; outside.answers(rt.alloc(), &RUN, 0, out, "")?);
    }
    Ok(())
}
