//! Programs with types: Core with declarations of types and with signatures of functions.
//!
//! `typed_or_place` takes the bytes of a text and gives its program without its types, which fit,
//! or the first rule that the text breaks: one of the rules 1 to 5, one of those of the program
//! without its types, or one of 81 to 86. `typed` gives the same, and where types do not fit also
//! the types of the two sides with the names of the text, which `shown_sides` writes. `read_source`
//! only reads, and `typed_source_or_place` and `typed_source` take what was read.
//!
//! `specs/Source` says what a program with types is, and what it is without its types.
//! `specs/Grammar` and `specs/Text` say which text stands for it, `specs/Lists` which type is that
//! of lists, `specs/Typing` which constraints the types of a program have to meet, `specs/Rules`
//! what it must not have, `specs/Sides` what the two sides of a constraint are, `specs/Shown` how
//! types are written, and `specs/Refused` which broken rule is named. `laws` says that constraints
//! are in text order. `specs/SourceOf`, `specs/Reading`, `specs/Found`, `specs/Kept`,
//! `specs/Nodes`, `specs/Instances`, `specs/Bare` and `specs/Building` are devices of the proofs,
//! of which no public clause speaks but for the program that the code keeps.
#![tactic(auto)]

mod accepted;
mod applications;
mod building;
mod context;
mod declared;
mod exhaustive;
mod expressions;
mod functions;
mod instances;
mod judgement;
pub mod laws;
mod lists;
mod mismatch;
mod nodes;
mod places;
mod reader;
mod refusal;
mod rules;
mod shown;
mod sides;
mod source;
mod text;

pub use accepted::{typed_or_place, typed_source_or_place};
pub use judgement::{typed, typed_source};
pub use refusal::{TypeFault, TypeRefusal};
pub use shown::shown_sides;
pub use sides::Ty;
pub use source::{Constructor, Signature, Source, TypeDecl, Written};
pub use text::read_source;
