//! Cells that nobody reads: a pass that makes them no more, and before it one on their updates.
#![tactic(auto)]

mod blocks;
mod left;
mod pass;
mod reads;
mod sites;
mod updates;

pub use pass::{DeadStores, without_dead_stores};
pub use updates::without_unread_updates;
