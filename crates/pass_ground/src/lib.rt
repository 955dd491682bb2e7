//! What the passes over programs of vectors share: what each of them takes and keeps beside its own
//! shape, as definitions for their contracts, which variables a piece of a program uses, and which
//! cells it updates.
#![tactic(auto)]

pub mod truth;
pub mod updated;
pub mod uses;
