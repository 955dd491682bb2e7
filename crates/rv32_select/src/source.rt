// What operands are, and where blocks go.

ghost use Rattle.rv32_select.specs.Ranges.{AreTargets};
ghost use Rattle.rv32_select.specs.OneProof.{AreTargets-prop};

use parallel_move::Spot;

/// What an operand is: the word at a spot, or a number.
#[derive(Clone, Copy, Debug, PartialEq, Eq)]
pub enum Source {
    At(Spot),
    Number(u32),
}

/// Where a block goes once it has given its words: it returns from its procedure, or goes on at a
/// label, which follows in the items or is jumped to.
#[derive(Clone, Copy, Debug, PartialEq, Eq)]
pub enum Continuation {
    Returns,
    Follows(u32),
    Jumps(u32),
}

/// The spots to which a block gives its words at once, and where it goes then.
#[derive(Clone, Copy)]
pub(crate) struct Destination<'a> {
    pub(crate) spots: &'a [Spot],
    pub(crate) way: Continuation,
    ghost targets: { AreTargets spots.now } by { AreTargets-prop spots.now },
}
