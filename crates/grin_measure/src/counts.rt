// Counts, and those of the parts of an operation that have no block.
#![tactic(auto, unfolding(crate::specs::Counts::counts, crate::specs::Counts::sum))]

ghost use Rattle.std.specs.Prelude.{◌≡◌, ◌+◌};
ghost use Rattle.grin_measure.specs.Counts.{counts, sum, of_val, of_target, of_cell, of_pattern};

use grin_syntax::{Cell, Shape, Target, Val};

/// What is counted in a piece of a program: its weight, its calls, the words that it needs in a
/// frame, and its size. A count that passes the largest number stays there.
#[derive(Clone, Copy, Debug, PartialEq, Eq)]
pub struct Counts {
    pub weight: u64,
    pub calls: u64,
    pub words: u64,
    pub size: u64,
}

impl Counts {
    /// Nothing.
    pub(crate) fn none() -> Counts
        ensures { result ≡ counts 0 0 0 0 }
    {
        Counts {
            weight: 0,
            calls: 0,
            words: 0,
            size: 0,
        }
    }

    /// An operation with so many words and so many calls, beside what is in its blocks.
    pub(crate) fn operation(weight: u64, calls: u64, size: u64) -> Counts
        ensures { result ≡ counts weight calls 0 size }
    {
        Counts {
            weight,
            calls,
            words: 0,
            size,
        }
    }

    /// So many words of a frame.
    pub(crate) fn words(words: u64) -> Counts
        ensures { result ≡ counts 0 0 words 0 }
    {
        Counts {
            weight: 0,
            calls: 0,
            words,
            size: 0,
        }
    }

    /// Both together.
    pub(crate) fn and(self, other: Counts) -> Counts
        ensures { result ≡ sum self other }
    {
        Counts {
            weight: self.weight.saturating_add(other.weight),
            calls: self.calls.saturating_add(other.calls),
            words: self.words.saturating_add(other.words),
            size: self.size.saturating_add(other.size),
        }
    }
}

/// What a value counts.
pub(crate) fn val(v: &Val) -> Counts
    ensures { result ≡ of_val v.now }
{
    match v {
        Val::NodeVar(_) => Counts::operation(14, 0, 1),
        Val::Node(_, words) => Counts::operation(14, 0, words.len() as u64),
        Val::Vector(words) => {
            let words = words.len() as u64;
            Counts::operation(words, 0, words)
        }
        Val::One(_) => Counts::operation(1, 0, 1),
    }
}

fn variables(weight: u64, size: u64) -> Counts
    ensures { result ≡ counts weight 0 weight size }
{
    Counts {
        weight,
        calls: 0,
        words: weight,
        size,
    }
}

/// The parameters of a procedure, so many.
pub(crate) fn parameters(count: u64) -> Counts
    ensures { result ≡ counts count 0 count count }
{
    variables(count, count)
}

/// A call with so many words.
pub(crate) fn called(words: u64) -> Counts
    ensures { result ≡ counts (16 + words) 1 0 (1 + words) }
{
    Counts::operation(words.saturating_add(16), 1, words.saturating_add(1))
}

/// What a target counts.
pub(crate) fn target(target: &Target) -> Counts
    ensures { result ≡ of_target target.now }
{
    match target {
        Target::Nothing => Counts::none(),
        Target::Node(_) => variables(14, 1),
        Target::One(_) => variables(1, 1),
        Target::Vector(vars) => {
            let vars = vars.len() as u64;
            variables(vars, vars)
        }
    }
}

/// What the cell of a store counts.
pub(crate) fn cell(cell: &Cell) -> Counts
    ensures { result ≡ of_cell cell.now }
{
    let bound = Counts {
        weight: 17,
        calls: 0,
        words: 1,
        size: 2,
    };
    bound.and(val(&cell.val))
}

/// What the pattern of an alternative counts.
pub(crate) fn pattern(pattern: &Shape) -> Counts
    ensures { result ≡ of_pattern pattern.now }
{
    let alternative = Counts::operation(3, 0, 0);
    match pattern {
        Shape::Node(_, vars) => {
            let vars = vars.len() as u64;
            alternative.and(variables(vars, vars))
        }
        Shape::Int(_) => alternative,
        Shape::Else => alternative,
    }
}
