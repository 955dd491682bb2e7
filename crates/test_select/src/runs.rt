// What the programs write, and how they end.

ghost use Rattle.std.specs.Prelude.{◌≤◌, ◌%◌, ◌≡◌};
ghost use Rattle.low_code.specs.Tree.{program_of};
ghost use Rattle.test_select.specs.Rows.{IsRow};

use crate::image::{start, words};
use crate::programs::{echo, less, letters, marks, nests, stuck, takes};
use crate::sums::sums;
use grin_io::{MemSink, MemSource};
use low_code::Low;
use rv32_machine::Stop;
use std::alloc::Global;
use std::process::Abort;
use std::test::Fail;

/// The room for a program: so many cells, and so many bytes of frames.
#[derive(Clone, Copy)]
struct Room {
    cells: u32,
    stack: u32,
}

const SMALL: Room = Room {
    cells: 1,
    stack: 1024,
};

/// On this input the program exits with this code, and has written these bytes.
fn exits(
    rt: &impl Abort,
    alloc: Global,
    low: &Low,
    room: Room,
    input: &[u8],
    code: u32,
    written: &[u8],
) -> Result<(), Fail>
    requires row { IsRow (program_of low.now) }
    requires cells { (1 ≤ room.cells) × (room.cells ≤ 1000) }
    requires stack { (1024 ≤ room.stack) × (room.stack ≤ 65536) × (room.stack % 4 ≡ 0) }
{
    let mut machine = start(alloc, low, room.cells, room.stack)?;
    let mut input = MemSource::new(Vec::from_slice(alloc, input)?, Vec::new(alloc));
    let mut out = MemSink::new(alloc, 1000, Vec::new(alloc))?;
    let answer = machine.run(1000000, &mut input, &mut out);
    assert_eq!(rt; answer, Ok(Stop::Exit(code)));
    assert_eq!(rt; out.taken(), written);
    Ok(())
}

#[test]
fn input_is_written(rt: HostRuntime) -> Result<(), Fail> {
    let low = echo(rt.alloc())?;
    exits(&rt, rt.alloc(), &low, SMALL, b"a\0\xffz", 0, b"a\0\xffz")
}

#[test]
fn a_program_without_an_alternative(rt: HostRuntime) -> Result<(), Fail> {
    let low = stuck(rt.alloc())?;
    exits(&rt, rt.alloc(), &low, SMALL, b"", 3, b"x")
}

#[test]
fn five_cells_are_taken(rt: HostRuntime) -> Result<(), Fail> {
    let low = takes(rt.alloc())?;
    let room = Room {
        cells: 5,
        stack: 1024,
    };
    exits(&rt, rt.alloc(), &low, room, b"", 4, b"aaaaaa")
}

#[test]
fn frames_of_1024_bytes(rt: HostRuntime) -> Result<(), Fail> {
    let low = nests(rt.alloc())?;
    exits(&rt, rt.alloc(), &low, SMALL, b"", 5, &[b'b'; 256])
}

// The call's alternative comes first in the items, the other one falls into what follows.
#[test]
fn bytes_are_marked(rt: HostRuntime) -> Result<(), Fail> {
    let low = marks(rt.alloc())?;
    exits(&rt, rt.alloc(), &low, SMALL, b"abba", 0, b"A??A")
}

/// A word of some.
fn word_at(words: &Vec<u32>, at: usize) -> u32 {
    if at < words.len() {
        return words[at];
    }
    0
}

// Six words are the start's, four the call's and the exit's behind it, five the entry's and 22
// those for a byte. The comparison is two: x6 gets 97, and a register whose word isn't less goes on
// past the 19 words for a byte that is put and the three of a return. As many follow, and nine for
// stops.
#[test]
fn a_comparison_is_one_branch(rt: HostRuntime) -> Result<(), Fail> {
    let low = less(rt.alloc())?;
    let words = words(rt.alloc(), &low, SMALL.cells, SMALL.stack)?;
    assert_eq!(rt; words.len(), 92);
    assert_eq!(rt; word_at(&words, 37), 0x06100313);
    assert_eq!(rt; word_at(&words, 38) & 0xfff07fff, 0x04605e63);
    exits(&rt, rt.alloc(), &low, SMALL, b"Z", 0, b"<")?;
    exits(&rt, rt.alloc(), &low, SMALL, b"a", 0, b">")
}

// By hand, by halves: a byte goes on to the upper half where it isn't below 4, then 2 or 6, then 1,
// 3, 5 or 7, and then 8. What is left is one number, which isn't tested, or 8 and more, tested for
// 8.
#[test]
fn bytes_are_looked_for(rt: HostRuntime) -> Result<(), Fail> {
    let low = letters(rt.alloc())?;
    let input = b"\0\x01\x02\x03\x04\x05\x06\x07\x08\t0A\xff";
    exits(&rt, rt.alloc(), &low, SMALL, input, 0, b"ABCDEFGHI????")
}

#[test]
fn a_list_is_added_up(rt: HostRuntime) -> Result<(), Fail> {
    let low = sums(rt.alloc())?;
    let room = Room {
        cells: 11,
        stack: 1024,
    };
    exits(&rt, rt.alloc(), &low, room, b"", 0, b"55!")
}

/// How often a word stands among others.
fn times(words: &[u32], word: u32) -> u32 {
    let mut times: u32 = 0;
    for w in words {
        if *w == word {
            times = times.saturating_add(1);
        }
    }
    times
}

// The start calls three procedures and writes a byte on its one way, and the procedure of a digit
// writes one: both have the return address in the frame from the entry to the end, which is a store
// and a load, and those that write a byte hold it in x1 meanwhile, which is a load and a store.
// That makes two of each in both. The sum and the procedure that writes a number have a way without
// a call and one with one call: a store and a load round the call. The list is made without a call:
// none. So there are six sw x1, 0(x2) and six lw x1, 0(x2).
#[test]
fn return_addresses_in_frames(rt: HostRuntime) -> Result<(), Fail> {
    let low = sums(rt.alloc())?;
    let words = words(rt.alloc(), &low, 11, 1024)?;
    assert_eq!(rt; times(words.as_slice(), 0x00112023), 6);
    assert_eq!(rt; times(words.as_slice(), 0x00012083), 6);
    Ok(())
}

#[test]
fn a_list_needs_11_cells(rt: HostRuntime) -> Result<(), Fail> {
    let low = sums(rt.alloc())?;
    let room = Room {
        cells: 10,
        stack: 1024,
    };
    exits(&rt, rt.alloc(), &low, room, b"", 4, b"")
}
