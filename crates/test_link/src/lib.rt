//! Rows that `link` is tried on.
#![tactic(auto)]

#[cfg(test)]
mod tests;
