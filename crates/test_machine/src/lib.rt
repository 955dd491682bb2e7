//! Rows worked by hand for the crates from lists to the machine: lists, files and streams,
//! generated texts, moves, places of low code, instructions, executables, and programs of machine
//! code as they run.
#![tactic(auto)]

#[cfg(test)]
mod executables;
#[cfg(test)]
mod instructions;
#[cfg(test)]
mod lists;
#[cfg(test)]
mod lows;
#[cfg(test)]
mod moves;
#[cfg(test)]
mod operations;
#[cfg(test)]
mod outside;
#[cfg(test)]
mod places;
#[cfg(test)]
mod programs;
#[cfg(test)]
mod texts;
