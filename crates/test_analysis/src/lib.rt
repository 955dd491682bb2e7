//! Rows for the translation and the analysis: programs that were worked by hand.
#![tactic(auto)]

#[cfg(test)]
mod both;
#[cfg(test)]
mod listed;
#[cfg(test)]
mod solutions;
#[cfg(test)]
mod translations;
