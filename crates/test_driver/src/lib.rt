//! Command lines worked by hand, over files, streams and failures in memory.
#![tactic(auto)]

#[cfg(test)]
mod build_rows;
#[cfg(test)]
mod check_rows;
#[cfg(test)]
mod costs_rows;
#[cfg(test)]
mod example_rows;
#[cfg(test)]
mod exec_rows;
#[cfg(test)]
mod failure_rows;
#[cfg(test)]
mod gen_rows;
#[cfg(test)]
mod images;
#[cfg(test)]
mod input_rows;
#[cfg(test)]
mod large_rows;
#[cfg(test)]
mod lift_rows;
#[cfg(test)]
mod link_rows;
#[cfg(test)]
mod list_rows;
#[cfg(test)]
mod match_rows;
#[cfg(test)]
mod outside;
#[cfg(test)]
mod points_rows;
#[cfg(test)]
mod profile_rows;
#[cfg(test)]
mod quiet_rows;
#[cfg(test)]
mod run_rows;
#[cfg(test)]
mod trace_rows;
#[cfg(test)]
mod types_rows;
