//! Rows that `read` and `check` are tried on.
#![tactic(auto)]

#[cfg(test)]
mod tests;
#[cfg(test)]
mod texts;
