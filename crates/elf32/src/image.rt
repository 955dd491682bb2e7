//! Programs to run, as segments of memory.

use seq::Seq;
use std::marker::Model;

/// A segment of memory that a program asks for: `size` bytes from the address `addr` on, of which
/// the first are `bytes` and the others zero. Every segment may be read; `write` and `exec` give
/// the further rights.
#[derive(Debug, Drop)]
pub struct Segment {
    pub addr: u32,
    pub size: u32,
    pub bytes: Seq<u8>,
    pub write: bool,
    pub exec: bool,
}

impl Model for Segment {
    ghost use Rattle.elf32.specs.Image.{ImageSegment, IsSoundSegment};

    ghost Value = { ImageSegment };

    ghost view = { λ s. record {
      addr = s.addr;
      size = s.size;
      bytes = s.bytes;
      write = s.write;
      exec = s.exec;
    } };

    ghost invariant = { λ s. IsSoundSegment (record {
      addr = s.addr;
      size = s.size;
      bytes = s.bytes;
      write = s.write;
      exec = s.exec;
    }) };
}

/// A program to run: its segments, no two of which share an address, and the address of its first
/// instruction, which lies in a segment with `exec`. The sizes of the segments add up to at most
/// 2,147,483,648 bytes.
#[derive(Debug, Drop)]
pub struct Loaded {
    pub entry: u32,
    pub segments: Seq<Segment>,
}

impl Model for Loaded {
    ghost use Rattle.elf32.specs.Image.{Image, IsLoadable};

    ghost Value = { Image };

    ghost view = { λ i. record { entry = i.entry; segments = i.segments } };

    ghost invariant = { λ i. IsLoadable (record { entry = i.entry; segments = i.segments }) };
}
