//! Low code: procedures over words, which are numbers of 32 bits or cells of one width, without
//! tags, nodes or sites; with what a program does on an input, and what its number of units
//! changes.
//!
//! The laws of the definitions stand in the contracts of functions without a body.
#![tactic(auto)]

ghost use Rattle.low_code.specs.Laws.{LimitsOnlyStop, MoreUnitsExtend, OneEntryAUnit};
ghost use Rattle.low_code.specs.Examples.{Examples};

mod program;

pub use program::{Low, LowArm, LowBlock, LowEnd, LowProc, LowStmt, LowTest, Operand, PrimOp};

/// More units extend a run: the output and the procedures entered begin as before, cells, frames
/// and bytes taken are no fewer, and after an end nothing changes but the units left.
pub fn more_units_extend()
    ensures { MoreUnitsExtend }
{}

/// A run enters one procedure for each unit that it spends.
pub fn one_entry_a_unit()
    ensures { OneEntryAUnit }
{}

/// Limits on cells and frames change nothing but that a run may stop as full: then the run without
/// limits has more cells or more words of frames, and goes on from the output and the procedures
/// entered so far.
pub fn limits_only_stop()
    ensures { LimitsOnlyStop }
{}

/// What small programs do, computed from the definitions.
pub fn examples()
    ensures { Examples }
{}
