//! Rows for the inlinings and the passes, listings and sizes that were worked by hand.
#![tactic(auto)]

#[cfg(test)]
mod applications;
#[cfg(test)]
mod copies;
#[cfg(test)]
mod evaluations;
#[cfg(test)]
mod fetches;
#[cfg(test)]
mod listings;
#[cfg(test)]
mod measures;
#[cfg(test)]
mod numbers_unboxed;
#[cfg(test)]
mod parameters;
#[cfg(test)]
mod simple;
#[cfg(test)]
mod updates;
#[cfg(test)]
mod vectors;
