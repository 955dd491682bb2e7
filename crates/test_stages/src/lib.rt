//! Rows for the stages: programs that were worked by hand, their listings, and the sizes of large
//! ones.
#![tactic(auto)]

#[cfg(test)]
mod composed;
#[cfg(test)]
mod last_rows;
#[cfg(test)]
mod listings;
#[cfg(test)]
mod tests;
#[cfg(test)]
mod vector_rows;
