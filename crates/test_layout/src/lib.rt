//! Words of items that were worked by hand, at the edges of the reach of branches and jumps, and of
//! a case of many alternatives.
#![tactic(auto)]

#[cfg(test)]
mod alternatives;
#[cfg(test)]
mod reach;
#[cfg(test)]
mod spread;
