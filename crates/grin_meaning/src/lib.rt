//! What a GRIN program means, and passes that keep it.
#![tactic(auto)]

pub mod laws;
pub mod passes;

pub use laws::{checks_decide_good_runs, nodes_have_all_fields};
pub use passes::{Pass, compose, preservation_composes};
