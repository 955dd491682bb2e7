//! Rows for the generated texts: they are in canonical form, and have their lengths.
#![tactic(auto)]

#[cfg(test)]
mod tests;
