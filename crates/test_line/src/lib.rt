//! Command lines worked by hand: the command that each stands for, or none.
#![tactic(auto)]

#[cfg(test)]
mod tests;
