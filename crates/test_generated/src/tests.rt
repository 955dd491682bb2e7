//! Generated texts that are read and printed again.

use core_print::print;
use core_reader::read;
use generator::generated;
use std::test::Fail;

/// A seed, a number of rounds, and the length of the text, which a script outside worked out.
const TEXTS: [(u32, u32, usize); 4] = [
    (1, 1, 149),
    (1, 2, 202),
    (2147483647, 2, 170),
    (1, 200, 13930),
];

#[test]
fn generated_texts_are_in_canonical_form(rt: HostRuntime) -> Result<(), Fail> {
    for (seed, size, length) in TEXTS {
        let text = generated(rt.alloc(), seed, size)?;
        assert_eq!(rt; text.len(), length, "{seed} {size}");
        let printed = print(rt.alloc(), &read(rt.alloc(), text.as_slice())?)?;
        assert_eq!(rt; printed.as_slice(), text.as_slice(), "{seed} {size}");
    }
    Ok(())
}
