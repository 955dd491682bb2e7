//! Memory: segments of bytes with rights.

ghost use Rattle.std.specs.Prelude.{◌≡◌, ◌&&◌, ◌^◌, ◌++◌, ◌-◌, replicate, IfOk, OnOk, vec_capacity, is_ok, ◌+◌, ◌<◌, ◌≤◌, length, take, drop, slice_index, ◌⊎◌};
ghost use Rattle.std.specs.Ordering.{nat_cmp};
ghost use Rattle.std.specs.BTreeMap.{get};
ghost use Rattle.grin_io.specs.Causes.{FaultsAreCounted};
ghost use Rattle.grin_io.specs.Content.{PutTakesPrefix};
ghost use Rattle.elf32.specs.Image.{IsSoundSegment};
ghost use Rattle.rv32_machine.specs.declared.memory.Access.{Access};
ghost use Rattle.rv32_machine.specs.Memory.{allows, IsAllowed, IsPlace, is_in, within, access, little_endian, bytes_of, with_bytes, put_over, IsInside, stretch_of, bytes_at, stored_at};
ghost use Rattle.rv32_machine.specs.Starts.{Starts};
ghost use Rattle.rv32_machine.specs.Zeros.{with_zeros, HasRoom};

use elf32::Segment;
use grin_io::{Failed, Sink};
use std::alloc::{AllocError, Global};
use std::collections::BTreeMap;
use std::marker::Model;

/// A segment's bytes grow by so many at a time.
const STRIDE: usize = 65536;

/// What an access is for.
#[derive(Clone, Copy, PartialEq, Eq, Debug, Drop)]
pub enum Right {
    Read,
    Write,
    Execute,
}

/// A segment of the machine's memory. Its bytes up to the last one that was stored to are kept, and
/// those behind are zeros that nothing keeps. The room for all is taken at the start, so that a
/// store never wants memory, but a page of the system is taken only where it is written.
#[derive(Drop)]
pub struct Region {
    first: u32,
    write: bool,
    exec: bool,
    size: usize,
    bytes: Vec<u8>,
}

impl Model for Region {
    ghost use Rattle.std.specs.Prelude.{◌+◌, ◌^◌, ◌≤◌, length, vec_capacity};
    ghost use Rattle.rv32_machine.specs.Memory.{Stretch};
    ghost use Rattle.rv32_machine.specs.Zeros.{with_zeros, HasRoom};

    ghost Value = { Stretch };

    ghost view = { λ r. record {
      first = r.first;
      write = r.write;
      exec = r.exec;
      bytes = with_zeros r.size r.bytes.items;
    } };

    ghost invariant = { λ r. (r.first + r.size ≤ 2 ^ 32)
        × HasRoom r.size (length r.bytes.items) (vec_capacity r.bytes) };
}

impl Region {
    /// Whether the segment has the right.
    #[inline(always)]
    fn allows(&self, right: Right) -> bool
        ensures { result ≡ allows right self.now }
    {
        match right {
            Right::Read => true,
            Right::Write => self.write,
            Right::Execute => self.exec,
        }
    }

    #[inline(always)]
    fn is_in(&self, address: u32) -> bool
        ensures { result ≡ is_in address self.now }
    {
        address >= self.first && ((address - self.first) as usize) < self.size
    }

    /// Whether an access that begins at the address may go to the segment.
    #[inline(always)]
    pub fn serves(&self, right: Right, address: u32) -> bool
        ensures { result ≡ allows right self.now && is_in address self.now }
    {
        self.allows(right) && self.is_in(address)
    }

    /// Whether the segment may be written.
    pub fn can_write(&self) -> bool
        ensures { result ≡ self.now.write }
    {
        self.write
    }

    /// Where an access goes whose first address is in the segment of this number.
    #[inline(always)]
    pub fn within(&self, address: u32, len: u32, number: usize) -> Access
        requires { (self.now.first ≤ address) × (0 < len) }
        ensures { result ≡ within address len number self.now }
    {
        let offset = address - self.first;
        if offset as usize + len as usize <= self.size {
            Access::At(number, offset as usize)
        } else {
            Access::Outside(((self.first as usize + self.size) % 4294967296) as u32)
        }
    }

    /// The segment at the start of a program.
    pub fn new(alloc: Global, segment: &Segment) -> Result<Region, AllocError>
        ensures region { IfOk result (λ r. r ≡ stretch_of segment.now) }
        ensures part { OnOk result (IsSoundSegment segment.now) }
    {
        let size = segment.size as usize;
        let mut bytes = Vec::with_capacity(alloc, size)?;
        bytes.extend_from_slice(segment.bytes.as_slice())?;
        Ok(Region {
            first: segment.addr,
            write: segment.write,
            exec: segment.exec,
            size,
            bytes,
        })
    }

    /// Puts so many bytes, from an offset in bytes on, to a sink.
    pub fn put_to<K: Sink>(&mut self, offset: usize, len: usize, out: &mut K) -> Result<(), Failed>
        requires { offset + len ≤ length self.old.bytes }
        ensures same { self.new ≡ self.old }
        ensures content { PutTakesPrefix (K.taken out.old) (K.taken out.new)
            (take len (drop offset self.old.bytes)) result }
        ensures exactly { K.put_gives out.old (take len (drop offset self.old.bytes)) (is_ok result)
            out.new }
        ensures cause { FaultsAreCounted (K.faults out.old) (K.faults out.new) result }
    {
        reach(&mut self.bytes, offset + len, self.size);
        out.put(&self.bytes[offset..offset + len])
    }

    #[inline(always)]
    fn byte(&self, offset: usize) -> u8
        requires { offset < length self.now.bytes }
        ensures { result ≡ slice_index self.now.bytes offset }
    {
        if offset < self.bytes.len() {
            self.bytes[offset]
        } else {
            0
        }
    }

    #[tactic(auto, using(crate::proofs::Zeroed::kept_range, crate::proofs::Zeroed::two_bytes))]
    #[inline(always)]
    fn half(&self, offset: usize) -> u32
        requires { offset + 2 ≤ length self.now.bytes }
        ensures value { result ≡ little_endian (take 2 (drop offset self.now.bytes)) }
        ensures small { result < 65536 }
    {
        if self.bytes.len() < offset + 2 {
            return self.byte(offset) as u32 + 256 * self.byte(offset + 1) as u32;
        }
        let bytes = &self.bytes[offset..offset + 2];
        bytes[0] as u32 + 256 * bytes[1] as u32
    }

    #[tactic(auto, using(crate::proofs::Zeroed::kept_range, crate::proofs::Zeroed::four_bytes))]
    #[inline(always)]
    fn word(&self, offset: usize) -> u32
        requires { offset + 4 ≤ length self.now.bytes }
        ensures { result ≡ little_endian (take 4 (drop offset self.now.bytes)) }
    {
        if self.bytes.len() < offset + 4 {
            return self.half(offset) + 65536 * self.half(offset + 2);
        }
        let bytes = &self.bytes[offset..offset + 4];
        bytes[0] as u32 + 256 * (bytes[1] as u32 + 256 * (bytes[2] as u32 + 256 * bytes[3] as u32))
    }

    #[inline(always)]
    fn put_byte(&mut self, offset: usize, value: u32)
        requires { offset < length self.old.bytes }
        ensures { self.new ≡ with_bytes self.old
            (put_over self.old.bytes offset (bytes_of 1 value)) }
    {
        reach(&mut self.bytes, offset + 1, self.size);
        self.bytes[offset] = (value % 256) as u8;
    }

    #[inline(always)]
    fn put_half(&mut self, offset: usize, value: u32)
        requires { offset + 2 ≤ length self.old.bytes }
        ensures { self.new ≡ with_bytes self.old
            (put_over self.old.bytes offset (bytes_of 2 value)) }
    {
        reach(&mut self.bytes, offset + 2, self.size);
        self.bytes[offset] = (value % 256) as u8;
        self.bytes[offset + 1] = (value / 256 % 256) as u8;
    }

    #[inline(always)]
    fn put_word(&mut self, offset: usize, value: u32)
        requires { offset + 4 ≤ length self.old.bytes }
        ensures { self.new ≡ with_bytes self.old
            (put_over self.old.bytes offset (bytes_of 4 value)) }
    {
        reach(&mut self.bytes, offset + 4, self.size);
        self.bytes[offset] = (value % 256) as u8;
        self.bytes[offset + 1] = (value / 256 % 256) as u8;
        self.bytes[offset + 2] = (value / 65536 % 256) as u8;
        self.bytes[offset + 3] = (value / 16777216) as u8;
    }
}

/// Makes a segment's bytes reach so far, by zeros.
#[inline(always)]
fn reach(bytes: &mut Vec<u8>, end: usize, size: usize)
    requires end { end ≤ size }
    requires room { HasRoom size (length bytes.old.items) (vec_capacity bytes.old) }
    ensures same { with_zeros size bytes.new.items ≡ with_zeros size bytes.old.items }
    ensures room { HasRoom size (length bytes.new.items) (vec_capacity bytes.new) }
    ensures reached { end ≤ length bytes.new.items }
{
    if bytes.len() < end {
        fill_up(bytes, end, size);
    }
}

/// The same, to the next multiple of `STRIDE`.
#[inline(never)]
fn fill_up(bytes: &mut Vec<u8>, end: usize, size: usize)
    requires end { end ≤ size }
    requires beyond { length bytes.old.items ≤ end }
    requires room { HasRoom size (length bytes.old.items) (vec_capacity bytes.old) }
    ensures same { with_zeros size bytes.new.items ≡ with_zeros size bytes.old.items }
    ensures room { HasRoom size (length bytes.new.items) (vec_capacity bytes.new) }
    ensures reached { end ≤ length bytes.new.items }
{
    let after = end / STRIDE * STRIDE + STRIDE;
    let target = if after < size { after } else { size };
    match bytes.resize(target, 0) {
        Ok(()) => {}
        Err(_) => unreachable!(),
    }
}

/// Where an access goes.
#[derive(Clone, Copy, Drop)]
pub enum Access {
    /// The number of the segment, and the offset there.
    At(usize, usize),
    /// The first address outside.
    Outside(u32),
}

/// The number of the first segment that serves an access which begins at the address, or how many
/// there are where none does.
pub fn place(regions: &[Region], right: Right, address: u32) -> usize
    ensures { IsPlace right address regions.now result }
{
    for (number, region) in regions.iter().enumerate() {
        if region.serves(right, address) {
            return number;
        }
    }
    regions.len()
}

/// The numbers of the segments that have addresses, by the first one.
pub fn starts(alloc: Global, regions: &[Region]) -> Result<BTreeMap<u64, usize>, AllocError>
    ensures { IfOk result (λ s. Starts regions.now (length regions.now) (get nat_cmp s)) }
{
    let mut starts = BTreeMap::new(alloc);
    for (number, region) in regions.iter().enumerate() {
        if region.is_in(region.first) {
            starts.insert(region.first as u64, number)?;
        }
    }
    Ok(starts)
}

/// Where an access goes that begins in the segment of this number, or in none where there is no
/// such segment.
#[inline(always)]
pub fn access_at(regions: &[Region], number: usize, right: Right, address: u32, len: u32) -> Access
    requires some { 0 < len }
    requires place { IsPlace right address regions.now number }
    ensures found { result ≡ access right regions.now address len }
    ensures inside { IsInside regions.now len result }
    ensures allowed { IsAllowed right regions.now result }
{
    match regions.get(number) {
        Some(region) => region.within(address, len, number),
        None => Access::Outside(address),
    }
}

/// The number that stands at a place.
#[inline(always)]
pub fn read(regions: &[Region], number: usize, offset: usize, len: u32) -> u32
    requires len { (len ≡ 1) ⊎ (len ≡ 2) ⊎ (len ≡ 4) }
    requires inside { IsInside regions.now len (Access.At number offset) }
    ensures value { result ≡ little_endian (bytes_at regions.now number offset len) }
    ensures small { result < 256 ^ len }
{
    let region = &regions[number];
    match len {
        1 => region.byte(offset) as u32,
        2 => region.half(offset),
        _ => region.word(offset),
    }
}

/// Puts a number at a place.
#[inline(always)]
pub fn write(regions: &mut [Region], number: usize, offset: usize, len: u32, value: u32)
    requires len { (len ≡ 1) ⊎ (len ≡ 2) ⊎ (len ≡ 4) }
    requires inside { IsInside regions.old len (Access.At number offset) }
    ensures { regions.new ≡ stored_at regions.old number offset (bytes_of len value) }
{
    let region = &mut regions[number];
    match len {
        1 => region.put_byte(offset, value),
        2 => region.put_half(offset, value),
        _ => region.put_word(offset, value),
    }
}
