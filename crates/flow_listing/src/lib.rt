//! What the analysis found, as a text: for each cell the nodes that it may hold, for each variable
//! and procedure what it may stand for and give.
#![tactic(auto)]

mod binder;
pub mod laws;
mod names;
mod points;
mod words;

pub use points::listing_text;
