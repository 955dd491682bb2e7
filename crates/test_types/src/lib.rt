//! Texts of programs with types, each with the rule that it breaks first or with none.
#![tactic(auto)]

#[cfg(test)]
mod sides;
#[cfg(test)]
mod tests;
