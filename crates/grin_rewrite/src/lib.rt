//! One walk over a program for every rule that says what becomes of its pieces, and what a program
//! keeps that is rewritten by one.
#![tactic(auto)]

mod blocks;
mod fact_blocks;
mod fact_rule;
mod fact_table;
mod fresh_blocks;
mod fresh_rule;
mod open_node;
mod over_tags;
mod program;
mod rule;

pub use fact_rule::FactRule;
pub use fact_table::{Fact, FactTable};
pub use fresh_blocks::rewrite_with_fresh;
pub use fresh_rule::FreshRule;
pub use open_node::{Opens, as_words, block_of, opening};
pub use over_tags::{Alternative, alternatives};
pub use program::{rewrite, rewrite_with_facts};
pub use rule::Rule;
