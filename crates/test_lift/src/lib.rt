//! Rows that `lift` is tried on.
#![tactic(auto)]

#[cfg(test)]
mod tests;
