//! The limits that several crates hold to: each number stands here once, and so does its definition
//! for the contracts.
#![tactic(auto)]

/// The most bytes of a text (rule 5).
pub const MOST_BYTES: u32 = 1_048_576;

/// The most brackets, lets and cases that are open at one place of a text (rule 4).
pub const MOST_OPEN: u32 = 200;

/// The largest size of a program whose evaluations and applications are spelled out (rule 36).
pub const LARGEST_PROGRAM: u64 = 131_072;

/// The cells of the heap where the command line says none.
pub const DEFAULT_CELLS: u32 = 1_000_000;
/// The most cells of a heap.
pub const MOST_CELLS: u32 = 8_000_000;

/// The bytes of the stack where the command line says none.
pub const DEFAULT_STACK: u32 = 1_048_576;
/// The fewest bytes of a stack.
pub const LEAST_STACK: u32 = 1_024;
/// The most bytes of a stack.
pub const MOST_STACK: u32 = 67_108_864;

/// The instructions that a run may take where the command line says none.
pub const DEFAULT_STEPS: u64 = 1_000_000_000;
/// The most instructions that a run may be given.
pub const MOST_STEPS: u64 = 1_000_000_000_000;

/// The address of the first byte of the code, which is the entry.
pub const CODE_START: u32 = 0x0001_0000;
/// The address of the first byte of the heap.
pub const HEAP_START: u32 = 0x5000_0000;
/// The address behind the last byte of the stack.
pub const STACK_END: u32 = 0x7800_0000;
