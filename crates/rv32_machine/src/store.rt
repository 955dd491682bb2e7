//! The memory of a machine: the segments of its program, and instructions that are kept decoded.

ghost use Rattle.std.specs.Prelude.{◌≡◌, ℕ, List, is_ok, ◌+◌, ◌%◌, ◌<◌, ◌≤◌, ◌^◌, Some, IsSome, true, map, length, take, drop, IfOk, OnOk, All, ◌⊎◌};
ghost use Rattle.std.specs.Ordering.{nat_cmp};
ghost use Rattle.std.specs.BTreeMap.{get};
ghost use Rattle.grin_io.specs.Causes.{FaultsAreCounted};
ghost use Rattle.grin_io.specs.Content.{PutTakesPrefix};
ghost use Rattle.elf32.specs.Image.{IsSoundSegment};
ghost use Rattle.rv32_machine.specs.declared.memory.Access.{Access};
ghost use Rattle.rv32_machine.specs.declared.memory.Right.{Right};
ghost use Rattle.rv32_machine.specs.Memory.{access, range_bytes, stretch_of, segment_at, IsInside, IsAllowed, IsPlace, bytes_of, little_endian, bytes_at, stored_at, is_in};
ghost use Rattle.rv32_machine.specs.Decoded.{IsFetchResult, IsCachedInstr};

use crate::memory::{Access, Region, Right, access_at, place, read, starts, write};
use elf32::{Loaded, Segment};
use grin_io::{Failed, Sink};
use rv32_isa::{Instr, decode};
use std::alloc::{AllocError, Global};
use std::collections::BTreeMap;
use std::marker::Model;

/// How many instructions are kept decoded.
const PLACES: usize = 65536;

/// So many segments are searched one by one.
const FEW: usize = 8;

/// An instruction, and the address where it stands.
#[derive(Clone, Copy, Drop)]
pub struct Decoded {
    address: u32,
    instr: Instr,
}

/// What stands at an address.
#[derive(Clone, Copy, Drop)]
pub enum Fetched {
    Instr(Instr),
    /// This word, which is no instruction.
    Illegal(u32),
    /// Nothing that may be executed; the first address outside.
    Outside(u32),
}

/// The segments of a program.
///
/// Instructions in segments that can't be written are decoded once, and kept at a place that their
/// address gives; another one with the same place takes it over. The segment of the last access is
/// tried first at the next one; many segments are found by where they begin.
#[derive(Drop)]
pub struct Memory {
    regions: Vec<Region>,
    starts: BTreeMap<u64, usize>,
    decoded: Vec<Decoded>,
    last: usize,
}

impl Model for Memory {
    ghost use Rattle.std.specs.Prelude.{List};
    ghost use Rattle.std.specs.Ordering.{nat_cmp};
    ghost use Rattle.std.specs.BTreeMap.{get};
    ghost use Rattle.rv32_machine.specs.Memory.{Stretch};
    ghost use Rattle.rv32_machine.specs.Decoded.{IsMemoryWithCache};

    ghost Value = { List Stretch };

    ghost view = { λ m. m.regions.items };

    ghost invariant = { λ m. IsMemoryWithCache m.regions.items (get nat_cmp m.starts) m.decoded.items };
}

/// The segments at the start of a program.
fn regions(alloc: Global, segments: &[Segment]) -> Result<Vec<Region>, AllocError>
    ensures regions { IfOk result (λ r. r.items ≡ map stretch_of segments.now) }
    ensures parts { OnOk result (All IsSoundSegment segments.now) }
{
    let mut regions = Vec::new(alloc);
    for segment in segments {
        regions.push(Region::new(alloc, segment)?)?;
    }
    Ok(regions)
}

impl Memory {
    /// The memory at the start of a program, with no instruction decoded. All memory is taken here.
    pub fn new(alloc: Global, image: &Loaded) -> Result<Memory, AllocError>
        ensures { IfOk result (λ m. m ≡ map stretch_of image.now.segments) }
    {
        let regions = regions(alloc, image.segments.as_slice())?;
        let starts = starts(alloc, &regions)?;
        let mut decoded = Vec::new(alloc);
        let empty = Decoded {
            address: 1,
            instr: Instr::Ebreak,
        };
        decoded.resize(PLACES, empty)?;
        Ok(Memory {
            regions,
            starts,
            decoded,
            last: 0,
        })
    }

    /// What stands at an address.
    #[inline(always)]
    pub fn fetch(&mut self, address: u32) -> Fetched
        requires { address % 4 ≡ 0 }
        ensures same { self.new ≡ self.old }
        ensures fetched { IsFetchResult self.old address result }
    {
        let kept = &self.decoded[(address / 4) as usize % PLACES];
        if kept.address == address {
            return Fetched::Instr(kept.instr);
        }
        self.decode(address)
    }

    /// What stands at an address. An instruction is kept, where it can't be written.
    #[inline(always)]
    fn decode(&mut self, address: u32) -> Fetched
        requires { address % 4 ≡ 0 }
        ensures same { self.new ≡ self.old }
        ensures fetched { IsFetchResult self.old address result }
    {
        match self.locate(Right::Execute, address, 4) {
            Access::Outside(outside) => Fetched::Outside(outside),
            Access::At(region, offset) => {
                let word = read(&self.regions, region, offset, 4);
                match decode(word) {
                    None => Fetched::Illegal(word),
                    Some(instr) if self.regions[region].can_write() => Fetched::Instr(instr),
                    Some(instr) => self.keep(Decoded { address, instr }),
                }
            }
        }
    }

    /// Keeps an instruction.
    #[inline(always)]
    fn keep(&mut self, decoded: Decoded) -> Fetched
        requires { IsCachedInstr self.old decoded }
        ensures same { self.new ≡ self.old }
        ensures fetched { IsFetchResult self.old decoded.address result }
    {
        let place = (decoded.address / 4) as usize % PLACES;
        self.decoded[place] = decoded;
        Fetched::Instr(self.decoded[place].instr)
    }

    /// Where an access goes.
    #[inline(always)]
    pub fn find(&mut self, right: Right, address: u32, len: u32) -> Access
        requires { 0 < len }
        ensures same { self.new ≡ self.old }
        ensures found { result ≡ access right self.old address len }
        ensures inside { IsInside self.old len result }
        ensures allowed { IsAllowed right self.old result }
    {
        let region = self.place(right, address);
        access_at(&self.regions, region, right, address, len)
    }

    /// The number of the segment that serves an access which begins at the address, or how many
    /// there are where none does.
    #[inline(always)]
    fn place(&mut self, right: Right, address: u32) -> usize
        ensures same { self.new ≡ self.old }
        ensures place { IsPlace right address self.old result }
    {
        if let Some(region) = self.regions.get(self.last) {
            if region.serves(right, address) {
                return self.last;
            }
        }
        self.search(right, address)
    }

    /// The same, found among all segments, where the next access looks first.
    #[inline(never)]
    fn search(&mut self, right: Right, address: u32) -> usize
        ensures same { self.new ≡ self.old }
        ensures place { IsPlace right address self.old result }
    {
        self.last = self.number(right, address);
        self.last
    }

    /// The same, found among all segments.
    fn number(&self, right: Right, address: u32) -> usize
        ensures { IsPlace right address self.now result }
    {
        if self.regions.len() <= FEW {
            return place(&self.regions, right, address);
        }
        let number = self.candidate(address);
        if let Some(region) = self.regions.get(number) {
            if region.serves(right, address) {
                return number;
            }
        }
        self.regions.len()
    }

    /// The number of the segment that begins last, of those that begin at the address or before: no
    /// other one has the address.
    fn candidate(&self, address: u32) -> usize
        ensures { (n : ℕ) → is_in address (segment_at self.now n) ≡ true → n ≡ result }
    {
        let limit = address as u64 + 1;
        match self.starts.range(..limit).next_back() {
            Some((_, number)) => *number,
            None => self.regions.len(),
        }
    }

    /// Where an access goes, without regard to the last one.
    fn locate(&self, right: Right, address: u32, len: u32) -> Access
        requires { 0 < len }
        ensures found { result ≡ access right self.now address len }
        ensures inside { IsInside self.now len result }
        ensures allowed { IsAllowed right self.now result }
    {
        access_at(
            &self.regions,
            self.number(right, address),
            right,
            address,
            len,
        )
    }

    /// Puts the bytes of a range that may be read to a sink.
    pub fn put_to<K: Sink>(&mut self, address: u32, len: u32, out: &mut K) -> Result<(), Failed>
        requires some { 0 < len }
        requires range { IsSome (range_bytes self.old address len) }
        ensures same { self.new ≡ self.old }
        ensures content { (bytes : List ℕ) → range_bytes self.old address len ≡ Some bytes
            → PutTakesPrefix (K.taken out.old) (K.taken out.new) bytes result }
        ensures exactly { (bytes : List ℕ) → range_bytes self.old address len ≡ Some bytes
            → K.put_gives out.old bytes (is_ok result) out.new }
        ensures cause { FaultsAreCounted (K.faults out.old) (K.faults out.new) result }
    {
        match self.locate(Right::Read, address, len) {
            Access::At(region, offset) => self.regions[region].put_to(offset, len as usize, out),
            Access::Outside(_) => unreachable!(),
        }
    }

    /// The number that stands at a place.
    #[inline(always)]
    pub fn read(&self, region: usize, offset: usize, len: u32) -> u32
        requires len { (len ≡ 1) ⊎ (len ≡ 2) ⊎ (len ≡ 4) }
        requires inside { IsInside self.now len (Access.At region offset) }
        ensures value { result ≡ little_endian (bytes_at self.now region offset len) }
        ensures small { result < 256 ^ len }
    {
        read(&self.regions, region, offset, len)
    }

    /// Puts a number at a place.
    #[inline(always)]
    pub fn write(&mut self, region: usize, offset: usize, len: u32, value: u32)
        requires len { (len ≡ 1) ⊎ (len ≡ 2) ⊎ (len ≡ 4) }
        requires inside { IsInside self.old len (Access.At region offset) }
        requires allowed { IsAllowed Right.Write self.old (Access.At region offset) }
        ensures { self.new ≡ stored_at self.old region offset (bytes_of len value) }
    {
        write(&mut self.regions, region, offset, len, value);
    }
}
