//! The numbers of a command line.

ghost use Rattle.std.specs.Prelude.{◌≡◌, ◌<◌, ◌^◌, option_to_list};
ghost use Rattle.std.specs.Option.{option_copied};
ghost use Rattle.command_line.specs.Commands.{option_number};
ghost use Rattle.command_line.specs.Numbers.{number_within};

use limits::{
    DEFAULT_CELLS, DEFAULT_STACK, DEFAULT_STEPS, LEAST_STACK, MOST_CELLS, MOST_STACK, MOST_STEPS,
};

/// The cells of the heap, by `--heap`.
pub(crate) const CELLS: Numbers = Numbers {
    default: DEFAULT_CELLS as u64,
    least: 1,
    most: MOST_CELLS as u64,
};

/// The bytes of the stack, by `--stack`.
pub(crate) const STACK: Numbers = Numbers {
    default: DEFAULT_STACK as u64,
    least: LEAST_STACK as u64,
    most: MOST_STACK as u64,
};

/// The number of instructions, by `--steps`.
pub(crate) const STEPS: Numbers = Numbers {
    default: DEFAULT_STEPS,
    least: 1,
    most: MOST_STEPS,
};

/// The number of entries of a trace, by `--units`.
pub(crate) const UNITS: Numbers = Numbers {
    default: 1_000,
    least: 1,
    most: 1_000_000,
};

/// The numbers that an option can be given.
#[derive(Clone, Copy, Debug)]
pub(crate) struct Numbers {
    /// The number where the option doesn't stand.
    pub(crate) default: u64,
    pub(crate) least: u64,
    pub(crate) most: u64,
}

impl Numbers {
    /// The number that the value of the option writes, or the default where it has no value. `None`
    /// where the value writes no number of the range.
    pub(crate) fn read(self, value: Option<&str>) -> Option<u64>
        ensures { result ≡ option_number self.default self.least self.most
            (option_to_list (option_copied value.entry)) }
    {
        match value {
            None => Some(self.default),
            Some(text) => number_within(text, self.least, self.most),
        }
    }

    /// The same for an option whose numbers all have 32 bits.
    pub(crate) fn read_u32(self, value: Option<&str>) -> Option<u32>
        requires default_fits { self.default < 2 ^ 32 }
        requires most_fits { self.most < 2 ^ 32 }
        ensures { result ≡ option_number self.default self.least self.most
            (option_to_list (option_copied value.entry)) }
    {
        let number = self.read(value)?;
        u32::try_from(number).ok()
    }
}

/// The seed that the value of `--seed` writes.
pub(crate) fn seed_within(text: &str) -> Option<u32>
    ensures { result ≡ number_within 0 2147483647 text.now }
{
    let number = number_within(text, 0, 2_147_483_647)?;
    u32::try_from(number).ok()
}

/// The number of rounds that the value of `--size` writes.
pub(crate) fn size_within(text: &str) -> Option<u32>
    ensures { result ≡ number_within 1 200 text.now }
{
    let number = number_within(text, 1, 200)?;
    u32::try_from(number).ok()
}

/// The most digits that a number has.
const MOST_DIGITS: usize = 20;

/// The number that a text of 1 to 20 decimal digits writes, where it lies in the range.
fn number_within(text: &str, least: u64, most: u64) -> Option<u64>
    ensures { result ≡ number_within least most text.now }
{
    // `parse` alone would accept a `+` and any number of leading zeros.
    if text.len() > MOST_DIGITS || text.starts_with('+') {
        return None;
    }
    let number = text.parse::<u64>().ok()?;
    if number < least || number > most {
        return None;
    }
    Some(number)
}
