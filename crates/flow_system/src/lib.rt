//! What may flow where in a program: its inclusions, which of them read which sets, their
//! solutions, and the law that a solution covers each run. `system::system` gives the flow system
//! of a program, `readers` the inclusions that read a set.
#![tactic(auto)]

ghost use Rattle.flow_system.specs.Covers.{SolutionsCover, FormedProgramsCanStart};

pub mod fact;
pub mod inclusion;
mod named;
pub mod reading;
mod rows;
mod sets;
pub mod starts;
pub mod system;

pub use fact::{Element, Part, Place};
pub use inclusion::{FlowSink, FlowSystem, Inclusion, Source};
pub use reading::{readers, set_number_at};

/// A solution of a program's flow system covers each run of the program.
pub fn solutions_cover()
    ensures { SolutionsCover }
{}

/// A well-formed program can be started: its global cells have no fields, and the argument of its
/// start is one of them.
pub fn formed_programs_can_start()
    ensures { FormedProgramsCanStart }
{}
