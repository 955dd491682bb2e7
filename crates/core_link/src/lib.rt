//! Modules: texts of Core that export names to one another and import them.
//!
//! `link` takes texts and gives the program that their modules are together, or the first rule that
//! the texts break. `Texts` is a list of texts, and `LinkRefusal` why they are not linked. `laws`
//! says what holds of linking by its definitions alone.
//!
//! `module` reads the module of a text. `rules` finds the first rule that a module breaks by
//! itself, with `reserved` and `doubles` for what it declares and binds, `imports` what it breaks
//! by what it imports, `between` what it breaks beside other modules, and `refuse` the first of
//! all. `naming` and `rename` give declarations their names in the program, and `join` puts them
//! together.
//!
//! `specs/Module` says what a module is, which tokens spell it, and what is known in it,
//! `specs/Rules` what modules must not have, and `specs/Union` which program they are together.
//! `specs/Heading`, `Found`, `Bound`, `Shared`, `Joinable` and `Renaming` are devices of the
//! proofs.
#![tactic(auto)]

mod between;
mod doubles;
mod files;
mod header;
mod imports;
mod join;
pub mod laws;
mod linker;
mod module;
mod naming;
mod refusal;
mod refuse;
mod rename;
mod reserved;
mod rules;
mod texts;
mod visible;

pub use linker::link;
pub use module::{Import, Module, read_module};
pub use refusal::{LinkKind, LinkRefusal};
pub use texts::Texts;
