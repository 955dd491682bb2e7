//! Instructions with labels in place of offsets.
#![tactic(auto)]

mod laws;

pub use laws::{
    exit_keeps_registers, items_bound_steps, last_step_is_at_link_jump, machine_enters_labels,
    machine_goes_forward, machine_matches_items,
};
use rv32_isa::{Instr, Reg};
use seq::Seq;

/// When a branch is taken, by its two registers.
#[derive(Clone, Copy, Debug, PartialEq, Eq, Drop)]
pub enum Cond {
    Eq,
    Ne,
    Lt,
    Ge,
    Ltu,
    Geu,
}

/// A piece of code before its layout.
#[derive(Clone, Copy, Debug, PartialEq, Eq, Drop)]
pub enum Item {
    /// A place that branches and jumps can name.
    Label(u32),
    /// An instruction.
    Plain(Instr),
    /// Goes to the label where the condition holds of two registers.
    Branch {
        cond: Cond,
        left: Reg,
        right: Reg,
        label: u32,
    },
    /// Goes to the label; the register gets the address after it.
    Jump {
        link: Reg,
        label: u32,
    },
}

/// Code before its layout.
#[derive(Drop)]
pub struct Asm {
    pub items: Seq<Item>,
}
