//! Rows that `read_lambdas` is tried on.
#![tactic(auto)]

#[cfg(test)]
mod tests;
