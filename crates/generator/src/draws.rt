//! Numbers that are drawn by a linear congruence.

ghost use Rattle.std.specs.Prelude.{◌≡◌, ◌<◌, ◌%◌};
ghost use Rattle.generator.specs.Generated.{next, drawn, round_from, after_round};

/// What the draws of a round choose.
#[derive(Clone, Copy, Debug)]
pub(crate) struct DrawnRound {
    /// The kind of its function: 0 to 3.
    pub(crate) kind: u32,
    /// The number in its function, below 1,000 as the next two.
    pub(crate) number: u32,
    /// The first number that the function is given.
    pub(crate) left: u32,
    /// The second one.
    pub(crate) right: u32,
}

/// The state of the draws, at first the seed.
#[derive(Clone, Copy, Debug)]
pub(crate) struct DrawState {
    pub(crate) state: u32,
}

impl DrawState {
    /// Draws a number below the given one.
    fn below(&mut self, most: u32) -> u32
        requires { 0 < most }
        ensures state { self.new.state ≡ next self.old.state }
        ensures drawn { result ≡ drawn (next self.old.state) % most }
    {
        let state = (1_103_515_245 * self.state as u64 + 12_345) % 0x8000_0000;
        self.state = state as u32;
        self.state / 65_536 % most
    }

    /// Draws what a round needs.
    pub(crate) fn round(&mut self) -> DrawnRound
        ensures state { self.new.state ≡ after_round self.old.state }
        ensures round { result ≡ round_from self.old.state }
    {
        let kind = self.below(4);
        let number = self.below(1_000);
        let left = self.below(1_000);
        let right = self.below(1_000);
        DrawnRound {
            kind,
            number,
            left,
            right,
        }
    }
}
