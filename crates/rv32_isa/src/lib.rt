//! The instructions of RV32IM: their words of 32 bits, and their text.
#![tactic(auto)]

mod decoder;
mod encoder;
mod fields;
mod instr;
mod text;

pub use decoder::decode;
pub use encoder::encode;
pub use fields::{Amount, Imm12, Imm20, OffB, OffJ, Reg, Top};
pub use instr::{BranchKind, ImmKind, Instr, LoadKind, OpKind, ShiftKind, StoreKind};
pub use text::show;
