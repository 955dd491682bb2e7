//! Low programs that were written by hand, as they run on the machine.
#![tactic(auto)]

#[cfg(test)]
mod build;
#[cfg(test)]
mod image;
#[cfg(test)]
mod programs;
#[cfg(test)]
mod runs;
#[cfg(test)]
mod sums;
