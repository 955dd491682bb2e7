//! A machine that runs programs of RV32IM.
#![tactic(auto)]

mod arithmetic;
mod laws;
mod machine;
mod memory;
mod run;
mod store;

pub use laws::{
    ended_run_is_stable, input_is_used_in_order, machine_ops_match_source_ops, output_grows,
    pieces_are_the_output, runs_compose,
};
pub use machine::{Machine, StepResult, Stop, TrapKind};
pub use run::StopWithCount;
