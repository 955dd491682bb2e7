//! The stages of a program on its way through GRIN, and the size that it may have.
#![tactic(auto)]

mod inlined;
pub mod laws;
mod pipeline;
mod refusal;

pub use inlined::{InlinedStages, inlined_stages};
pub use pipeline::stage;
pub use refusal::CompileRefusal;
