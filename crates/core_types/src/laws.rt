//! What holds of the constraints of a program.

ghost use Rattle.core_types.specs.Laws.{ConstraintsAscend};

/// The constraints of the program that a text stands for are in text order.
pub fn constraints_ascend()
    ensures { ConstraintsAscend }
{}
