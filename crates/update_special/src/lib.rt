//! A pass: an update whose tag word is a variable becomes a case over the tags that the variable
//! may stand for.
#![tactic(auto)]

mod blocks;
mod pass;

pub use blocks::{Tags, tag_variable};
pub use pass::{Updates, with_literal_tags, with_literal_tags_by};
