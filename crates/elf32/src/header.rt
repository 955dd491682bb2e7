//! The program headers of an ELF file.

ghost use Rattle.std.specs.Prelude.{◌≡◌, ◌+◌, ◌*◌, ◌^◌, ◌<◌, ◌≤◌, ◌⊎◌, ◌↔◌, IsTrue, length, vec_len, IfOk};
ghost use Rattle.elf32.specs.Headers.{half_at, word_at, is_loadable, header_at, headers_from};
ghost use Rattle.elf32.specs.Rules.{SegmentIsOutOfBounds, IsExecutableAtEntry};

use byteorder::{ByteOrder, LittleEndian};
use std::alloc::{AllocError, Global};

/// The fields of a program header that a loader looks at: its type, `kind`, where its bytes stand
/// in the file, the first address of its segment, its sizes in the file and in memory in bytes, and
/// its flags.
#[derive(Clone, Copy, Debug, PartialEq, Eq, Drop)]
pub struct ProgramHeader {
    pub kind: u32,
    pub offset: u32,
    pub addr: u32,
    pub file_size: u32,
    pub memory_size: u32,
    pub flags: u32,
}

impl ProgramHeader {
    /// Whether it asks for a segment of memory: its type is PT_LOAD.
    pub fn is_loadable(&self) -> bool
        ensures { result ≡ is_loadable self.now }
    {
        self.kind == 1
    }

    /// Whether its segment has an address.
    pub fn has_addresses(&self) -> bool
        ensures { IsTrue result ↔ (IsTrue (is_loadable self.now) × (0 < self.now.memory_size)) }
    {
        self.is_loadable() && self.memory_size > 0
    }

    /// Whether it is loadable and has bytes past the end of a file of `len` bytes, more bytes in
    /// the file than in memory, or addresses past 2^32.
    pub fn is_outside(&self, len: usize) -> bool
        ensures { IsTrue result ↔ SegmentIsOutOfBounds len self.now }
    {
        self.is_loadable() && (self.passes_file(len) || self.passes_memory())
    }

    fn passes_file(&self, len: usize) -> bool
        ensures { IsTrue result ↔ ((0 < self.now.file_size)
            × (len < self.now.offset + self.now.file_size)) }
    {
        let end = self.offset as u64 + self.file_size as u64;
        self.file_size > 0 && (len as u64) < end
    }

    fn passes_memory(&self) -> bool
        ensures { IsTrue result ↔ ((self.now.memory_size < self.now.file_size)
            ⊎ (2 ^ 32 < self.now.addr + self.now.memory_size)) }
    {
        let end = self.addr as u64 + self.memory_size as u64;
        self.memory_size < self.file_size || end > 0x1_0000_0000
    }

    /// Whether the segment may be executed and has the address `entry`.
    pub fn may_enter(&self, entry: u32) -> bool
        ensures { IsTrue result ↔ IsExecutableAtEntry entry self.now }
    {
        let end = self.addr as u64 + self.memory_size as u64;
        self.is_loadable() && self.flags % 2 == 1 && self.addr <= entry && (entry as u64) < end
    }
}

/// The two bytes at an offset as a number, the low one first.
pub fn half_at(file: &[u8], offset: usize) -> u16
    requires { offset + 2 ≤ length file.now }
    ensures { result ≡ half_at file.now offset }
{
    LittleEndian::read_u16(&file[offset..])
}

/// The four bytes at an offset as a number, the low one first.
pub fn word_at(file: &[u8], offset: usize) -> u32
    requires { offset + 4 ≤ length file.now }
    ensures { result ≡ word_at file.now offset }
{
    LittleEndian::read_u32(&file[offset..])
}

/// The program header that begins at an offset; it has 32 bytes.
pub fn header_at(file: &[u8], offset: usize) -> ProgramHeader
    requires { offset + 32 ≤ length file.now }
    ensures { result ≡ header_at file.now offset }
{
    ProgramHeader {
        kind: word_at(file, offset),
        offset: word_at(file, offset + 4),
        addr: word_at(file, offset + 8),
        file_size: word_at(file, offset + 16),
        memory_size: word_at(file, offset + 20),
        flags: word_at(file, offset + 24),
    }
}

/// Up to 65,535 program headers, one after the other from an offset on.
#[tactic(auto, using(crate::proofs::HeaderLists::headers_from_more))]
pub fn headers_from(
    alloc: Global,
    file: &[u8],
    offset: usize,
    count: usize,
) -> Result<Vec<ProgramHeader>, AllocError>
    requires { (0 < count → offset + 32 * count ≤ length file.now) × (count < 65536) }
    ensures headers { IfOk result (λ headers. headers.items ≡ headers_from file.now offset count) }
    ensures count { IfOk result (λ headers. vec_len headers ≡ count) }
{
    let mut headers = Vec::with_capacity(alloc, count)?;
    for i in 0..count {
        headers.push(header_at(file, offset + 32 * i))?;
    }
    Ok(headers)
}
