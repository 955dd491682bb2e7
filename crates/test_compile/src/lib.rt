//! Rows for the compiler: low code that was worked by hand, and of which stage the code is made.
#![tactic(auto)]

#[cfg(test)]
mod last_stage;
#[cfg(test)]
mod listing;
#[cfg(test)]
mod tests;
