//! Rows that `read_equations` and `compile_matches` are tried on.
#![tactic(auto)]

#[cfg(test)]
mod programs;
#[cfg(test)]
mod tests;
