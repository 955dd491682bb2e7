//! Why a file is no executable that can be loaded.

ghost use Rattle.std.specs.Prelude.{◌≡◌};
ghost use Rattle.elf32.specs.declared.refusal.ElfRefusal.TheVariants.{Memory};

use std::alloc::AllocError;
use thiserror::Error;

/// The broken rule with the smallest number, or want of memory. A program header is named by its
/// number among all program headers, from 0.
#[derive(Debug, Drop, Error)]
pub enum ElfRefusal {
    /// Rule 40: the file has more than 1,342,177,280 bytes.
    #[error("the image is too long")]
    ImageTooLong,
    /// Rule 41: the file has fewer than the 52 bytes of an ELF header.
    #[error("the image is too short")]
    TooShort,
    /// Rule 42: the file does not begin with the mark of ELF.
    #[error("no ELF file")]
    NotElf,
    /// Rule 43: no executable of 32 bits for RISC-V with the least byte first, or its program
    /// headers do not have 32 bytes each.
    #[error("no executable for RV32")]
    NotRiscv32Exec,
    /// Rule 44: the program headers reach past the end of the file.
    #[error("the program headers are not in the file")]
    HeaderOutside,
    /// Rule 45: this is the first loadable program header that has bytes past the end of the file,
    /// more bytes in the file than in memory, or addresses past 2^32.
    #[error("the segment of program header {0} does not fit")]
    SegmentOutside(u32),
    /// Rule 46: this is the first loadable program header that shares an address with an earlier
    /// one.
    #[error("the segment of program header {0} overlaps an earlier one")]
    SegmentsOverlap(u32),
    /// Rule 47: the entry is in no loadable segment that may be executed.
    #[error("the entry is in no segment of code")]
    EntryOutside,
    /// Rule 48: the sizes of the segments in memory add up to more than 2,147,483,648 bytes.
    #[error("the segments are too large")]
    SegmentsTooLarge,
    /// There was not enough memory.
    #[error("out of memory")]
    Memory(AllocError),
}

impl From<AllocError> for ElfRefusal {
    ghost from_gives = { λ error refusal. refusal ≡ Memory error };

    fn from(error: AllocError) -> ElfRefusal {
        ElfRefusal::Memory(error)
    }
}
