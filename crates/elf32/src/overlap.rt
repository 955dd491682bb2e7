//! Segments that share an address.

ghost use Rattle.std.specs.Prelude.{◌≡◌, ℕ, ◌+◌, ◌<◌, ◌≤◌, ◌⊎◌, ◌↔◌, IsTrue, false, None, length, IfOk, OnOk, MatchOption};
ghost use Rattle.std.specs.Ordering.{nat_cmp};
ghost use Rattle.std.specs.BTreeMap.{get};
ghost use Rattle.elf32.specs.Rules.{Overlaps, IsLeast};
ghost use Rattle.elf32.specs.Ends.{IsLastSegmentBelow, AreSegmentEnds};

use crate::header::ProgramHeader;
use std::alloc::{AllocError, Global};
use std::collections::BTreeMap;

/// The number of the first loadable header whose segment shares an address with an earlier one. The
/// segments before it are apart, so of those that begin before its end, the one that begins last
/// also ends last.
pub fn first_overlap(alloc: Global, headers: &[ProgramHeader]) -> Result<Option<u32>, AllocError>
    requires { length headers.now < 65536 }
    ensures { IfOk result (λ o.
        MatchOption o ((j : ℕ) → Overlaps headers.now j
        → ⊥) (λ j. IsLeast (Overlaps headers.now) j)) }
{
    let mut ends: BTreeMap<u64, u64> = BTreeMap::new(alloc);
    for j in 0..headers.len() {
        if overlaps_earlier(headers, j, &ends) {
            return Ok(Some(j as u32));
        }
        track(headers, j, &mut ends)?;
    }
    Ok(None)
}

/// Whether header j shares an address with an earlier one; `ends` has where the earlier segments
/// end.
fn overlaps_earlier(headers: &[ProgramHeader], j: usize, ends: &BTreeMap<u64, u64>) -> bool
    requires header { j < length headers.now }
    requires tracks { AreSegmentEnds headers.now j (get nat_cmp ends.now) }
    ensures { IsTrue result ↔ Overlaps headers.now j }
{
    let header = &headers[j];
    if !header.has_addresses() {
        return false;
    }
    let start = header.addr as u64;
    ends_after(ends, start + header.memory_size as u64, start)
}

/// Puts where the segment of header j ends to those of the earlier ones.
fn track(
    headers: &[ProgramHeader],
    j: usize,
    ends: &mut BTreeMap<u64, u64>,
) -> Result<(), AllocError>
    requires header { j < length headers.now }
    requires tracks { AreSegmentEnds headers.now j (get nat_cmp ends.old) }
    requires apart { Overlaps headers.now j → ⊥ }
    ensures { OnOk result (AreSegmentEnds headers.now (j + 1) (get nat_cmp ends.new)) }
{
    let header = &headers[j];
    if header.has_addresses() {
        let start = header.addr as u64;
        ends.insert(start, start + header.memory_size as u64)?;
    }
    Ok(())
}

/// Whether of the segments that begin before `limit`, the one that begins last ends after `start`.
fn ends_after(ends: &BTreeMap<u64, u64>, limit: u64, start: u64) -> bool
    ensures hit { IsTrue result → (s : ℕ) × (e : ℕ) × IsLastSegmentBelow (get nat_cmp ends.now) limit s e
        × (start < e) }
    ensures miss { result ≡ false → ((s : ℕ) → s < limit → get nat_cmp ends.now s ≡ None)
        ⊎ ((s : ℕ) × (e : ℕ) × IsLastSegmentBelow (get nat_cmp ends.now) limit s e × (e ≤ start)) }
{
    match last_end(ends, limit) {
        Some(end) => end > start,
        None => false,
    }
}

/// Where of the segments that begin before `limit`, the one that begins last ends.
fn last_end(ends: &BTreeMap<u64, u64>, limit: u64) -> Option<u64>
    ensures { MatchOption result ((s : ℕ) → s < limit → get nat_cmp ends.now s ≡ None) (λ e. (s : ℕ)
        × IsLastSegmentBelow (get nat_cmp ends.now) limit s e) }
{
    let (_, end) = ends.range(..limit).next_back()?;
    Some(*end)
}
