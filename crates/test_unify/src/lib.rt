//! Equations between terms, worked by hand: the first one without a solution.
#![tactic(auto)]

#[cfg(test)]
mod equations;
