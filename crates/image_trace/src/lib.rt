//! What is told of an image's run on no input: its trace, that is the procedures that it enters, in
//! order, and how deep the run is nested at each; and its profile, how often each procedure is
//! entered and how many instructions are done in it.
#![tactic(auto)]

mod entries;
mod places;
mod profile;
mod text;

pub use entries::Entry;
pub use profile::{Count, profiled};
pub use text::traced;
