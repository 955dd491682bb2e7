//! The intermediate language: its programs, as trees.
#![tactic(auto)]

pub mod copies;
pub mod fresh;
mod listing;
pub mod listing_text;
pub mod program;
mod ranks;

pub use copies::copy;
pub use listing::list;
pub use program::{
    Alt, Block, Cell, GlobalCell, Grin, Op, PrimOp, Proc, ProcId, Shape, Site, Stmt, Tag, TagId,
    TagKind, Target, Val, VarId, Word,
};
