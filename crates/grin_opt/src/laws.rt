// A law on stages, about definitions alone: a function without a body.

ghost use Rattle.grin_opt.specs.Staying.{WhatIsOutStaysOut};

/// What a pass takes out of a program stays out at all later stages: evaluations and applications,
/// node variables, fetches of whole nodes, and updates without a literal tag.
pub fn what_is_out_stays_out()
    ensures { WhatIsOutStaysOut }
{}
