//! The command line of the compiler: from its words to a status and the bytes put out.
#![tactic(auto)]

mod build;
mod code;
mod command;
mod cost;
mod exec;
mod generate;
mod image;
pub mod laws;
mod list;
mod needs;
mod points;
mod profile;
mod run;
mod standing;
mod trace;

pub use command::grinc_main;
pub use command_line::Line;
pub use cost::{Cost, EndedWithCost};
pub use grin_compile::Options;
pub use list::list_text;
pub use run::run_text;
pub use text_commands::status::Status;
