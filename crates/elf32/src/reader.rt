//! The program of an ELF file.

ghost use Rattle.std.specs.Prelude.{◌≡◌, ℕ, ◌<◌, ◌≤◌, ◌+◌, ◌*◌, ◌↔◌, IsTrue, All, Any, IfOk, IfErr, OnOk, MatchOption, length, vec_len, map, filter, take, drop, [], ◌∷◌};
ghost use Rattle.elf32.specs.Image.{ImageSegment};
ghost use Rattle.elf32.specs.Headers.{header_count, headers_offset, headers_of, is_loadable, part_of};
ghost use Rattle.elf32.specs.Rules.{IsRiscv32Exec, SegmentIsOutOfBounds, IsLeast, header, IsExecutableAtEntry, loaded_size, KeepsBelow, IsSound, Loads, NamesLeastBrokenRule};

use crate::header::{ProgramHeader, half_at, headers_from, word_at};
use crate::image::{Loaded, Segment};
use crate::overlap::first_overlap;
use crate::refusal::ElfRefusal;
use seq::Seq;
use std::alloc::{AllocError, Global};

/// The most bytes that a file may have.
const LONGEST: u64 = 1_342_177_280;
/// The most bytes that the segments of a program may have together.
const LARGEST: u64 = 2_147_483_648;

/// Whether a file of so many bytes is too long to be read.
pub fn too_long(len: u64) -> bool
    ensures { IsTrue result ↔ (1342177280 < len) }
{
    len > LONGEST
}

/// The program of an ELF file: the segments of its loadable program headers in their order, and its
/// entry. Or the broken rule with the smallest number, or `Memory` where memory is wanting. Other
/// program headers and all sections are passed over.
pub fn read(alloc: Global, file: &[u8]) -> Result<Loaded, ElfRefusal>
    ensures ok { IfOk result (λ image. Loads file.now image) }
    ensures refused { IfErr result (λ refusal. NamesLeastBrokenRule refusal file.now) }
{
    check_file(file)?;
    let headers = program_headers(alloc, file)?;
    check_segments(alloc, file, &headers)?;
    let segments = segments(alloc, file, &headers)?;
    let entry = word_at(file, 24);
    Ok(Loaded { entry, segments })
}

/// The rules 40 to 44, which need no program header.
fn check_file(file: &[u8]) -> Result<(), ElfRefusal>
    ensures ok { OnOk result ((52 ≤ length file.now) × KeepsBelow 45 file.now) }
    ensures refused { IfErr result (λ refusal. NamesLeastBrokenRule refusal file.now) }
{
    if too_long(file.len() as u64) {
        return Err(ElfRefusal::ImageTooLong);
    }
    if file.len() < 52 {
        return Err(ElfRefusal::TooShort);
    }
    if !is_elf(file) {
        return Err(ElfRefusal::NotElf);
    }
    if !is_riscv32_exec(file) {
        return Err(ElfRefusal::NotRiscv32Exec);
    }
    if are_headers_outside(file) {
        return Err(ElfRefusal::HeaderOutside);
    }
    Ok(())
}

/// The rules 45 to 48, which look at the program headers.
fn check_segments(alloc: Global, file: &[u8], headers: &[ProgramHeader]) -> Result<(), ElfRefusal>
    requires long { 52 ≤ length file.now }
    requires headers { headers.now ≡ headers_of file.now }
    requires few { length headers.now < 65536 }
    requires below { KeepsBelow 45 file.now }
    ensures ok { OnOk result (KeepsBelow 49 file.now) }
    ensures sound { OnOk result (IsSound file.now) }
    ensures refused { IfErr result (λ refusal. NamesLeastBrokenRule refusal file.now) }
{
    if let Some(i) = first_outside(headers, file.len()) {
        return Err(ElfRefusal::SegmentOutside(i));
    }
    if let Some(j) = first_overlap(alloc, headers)? {
        return Err(ElfRefusal::SegmentsOverlap(j));
    }
    if !is_entered(headers, word_at(file, 24)) {
        return Err(ElfRefusal::EntryOutside);
    }
    if total_size(headers) > LARGEST {
        return Err(ElfRefusal::SegmentsTooLarge);
    }
    Ok(())
}

fn is_elf(file: &[u8]) -> bool
    requires { 52 ≤ length file.now }
    ensures { IsTrue result ↔ (take 4 file.now ≡ (0x7F ∷ 0x45 ∷ 0x4C ∷ 0x46 ∷ [])) }
{
    file[..4] == [0x7F, 0x45, 0x4C, 0x46]
}

fn is_riscv32_exec(file: &[u8]) -> bool
    requires { 52 ≤ length file.now }
    ensures { IsTrue result ↔ IsRiscv32Exec file.now }
{
    file[4] == 1
        && file[5] == 1
        && half_at(file, 16) == 2
        && half_at(file, 18) == 243
        && (half_at(file, 44) == 0 || half_at(file, 42) == 32)
}

fn are_headers_outside(file: &[u8]) -> bool
    requires { 52 ≤ length file.now }
    ensures { IsTrue result ↔ ((0 < header_count file.now)
        × (length file.now < headers_offset file.now + 32 * header_count file.now)) }
{
    let count = half_at(file, 44) as u64;
    count > 0 && (file.len() as u64) < word_at(file, 28) as u64 + 32 * count
}

#[tactic(auto, unfolding(crate::specs::Headers::headers_of))]
fn program_headers(alloc: Global, file: &[u8]) -> Result<Vec<ProgramHeader>, AllocError>
    requires long { 52 ≤ length file.now }
    requires inside { 0 < header_count file.now
        → headers_offset file.now + 32 * header_count file.now ≤ length file.now }
    ensures headers { IfOk result (λ headers. headers.items ≡ headers_of file.now) }
    ensures few { IfOk result (λ headers. vec_len headers < 65536) }
{
    let count = half_at(file, 44) as usize;
    headers_from(alloc, file, word_at(file, 28) as usize, count)
}

/// The number of the first loadable header whose segment does not fit into a file of so many bytes
/// or into memory.
fn first_outside(headers: &[ProgramHeader], len: usize) -> Option<u32>
    requires { length headers.now < 65536 }
    ensures { MatchOption result ((i : ℕ) → SegmentIsOutOfBounds len (header headers.now i)
        → ⊥) (λ i. IsLeast (λ k. SegmentIsOutOfBounds len (header headers.now k)) i) }
{
    for (i, header) in headers.iter().enumerate() {
        if header.is_outside(len) {
            return Some(i as u32);
        }
    }
    None
}

/// Whether the entry lies in a segment that may be executed.
fn is_entered(headers: &[ProgramHeader], entry: u32) -> bool
    ensures { IsTrue result ↔ Any (IsExecutableAtEntry entry) headers.now }
{
    headers.iter().any(|header| header.may_enter(entry))
}

/// The sizes of the loadable segments in memory, added up.
fn total_size(headers: &[ProgramHeader]) -> u64
    requires { length headers.now < 65536 }
    ensures { result ≡ loaded_size headers.now }
{
    let mut total = 0;
    for header in headers {
        if header.is_loadable() {
            total += header.memory_size as u64;
        }
    }
    total
}

/// The segments of the loadable headers, in their order.
fn segments(
    alloc: Global,
    file: &[u8],
    headers: &[ProgramHeader],
) -> Result<Seq<Segment>, AllocError>
    requires { (i : ℕ) → SegmentIsOutOfBounds (length file.now) (header headers.now i) → ⊥ }
    ensures { IfOk result (λ segments. segments
        ≡ map (part_of file.now) (filter is_loadable headers.now)) }
{
    let mut segments = Seq::new(alloc);
    for header in headers {
        if header.is_loadable() {
            segments.push(segment(alloc, file, header)?)?;
        }
    }
    Ok(segments)
}

/// The segment of a loadable header: its bytes in the file, and then zeros.
fn segment(alloc: Global, file: &[u8], header: &ProgramHeader) -> Result<Segment, AllocError>
    requires loadable { IsTrue (is_loadable header.now) }
    requires inside { SegmentIsOutOfBounds (length file.now) header.now → ⊥ }
    ensures { IfOk result (λ segment. segment ≡ part_of file.now header.now) }
{
    let bytes = Seq::from_slice(alloc, file_bytes(file, header))?;
    Ok(Segment {
        addr: header.addr,
        size: header.memory_size,
        bytes,
        write: header.flags / 2 % 2 == 1,
        exec: header.flags % 2 == 1,
    })
}

/// The bytes of a segment in the file; there are none where their number is 0, whatever their
/// place.
fn file_bytes<'a>(file: &'a [u8], header: &ProgramHeader) -> &'a [u8]
    requires { 0 < header.now.file_size → header.now.offset + header.now.file_size
        ≤ length file.now }
    ensures { result.now ≡ take header.now.file_size (drop header.now.offset file.now) }
{
    if header.file_size == 0 {
        return &[];
    }
    let offset = header.offset as usize;
    &file[offset..offset + header.file_size as usize]
}
