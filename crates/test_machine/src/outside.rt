//! Files and streams in memory, and those of the system.

ghost use Rattle.std.specs.Prelude.{◌≡◌, true};

use grin_io::{
    Failed, MemFile, MemShelf, MemSink, MemSource, Shelf, Sink, Source, SureShelf, SureSource,
};
use std::alloc::{AllocError, Global};
use std::fs::{self, File};
use std::process::Abort;
use std::test::Fail;
use system_io::{FileShelf, WriterSink, std_err, std_in, std_out};

fn file(alloc: Global, name: &str, bytes: &[u8]) -> Result<MemFile, AllocError> {
    Ok(MemFile {
        name: String::from_str(alloc, name)?,
        bytes: Vec::from_slice(alloc, bytes)?,
    })
}

// Two files with one name, of which the first counts, and an empty one.
fn files(alloc: Global) -> Result<Vec<MemFile>, AllocError> {
    let mut files = Vec::new(alloc);
    files.push(file(alloc, "abc", b"xyz")?)?;
    files.push(file(alloc, "empty", b"")?)?;
    files.push(file(alloc, "abc", b"other")?)?;
    Ok(files)
}

// A read into the buffer gives so many bytes, and the buffer then has these.
fn shelf_reads<S: Shelf>(
    rt: &impl Abort,
    shelf: &mut S,
    buf: &mut [u8; 2],
    count: usize,
    has: &[u8; 2],
)
    requires { S.is_open shelf.old ≡ true }
    ensures { S.is_open shelf.new ≡ true }
{
    assert_eq!(rt; shelf.read(buf), Ok(count));
    assert_eq!(rt; &*buf, has);
}

// Opens a file of the three bytes "xyz", and reads it to its end through a buffer of two bytes.
fn read_through<S: Shelf>(rt: &impl Abort, shelf: &mut S, name: &str)
    requires { S.permitted name.now }
    ensures { S.is_open shelf.new ≡ true }
{
    let mut buf = *b"..";
    assert!(rt; shelf.open(name).is_ok());
    shelf_reads(rt, shelf, &mut buf, 2, b"xy");
    shelf_reads(rt, shelf, &mut buf, 1, b"zy");
    shelf_reads(rt, shelf, &mut buf, 0, b"zy");
}

// The calls 0, 1 and 6 fail.
fn read_with_failures(rt: &impl Abort, shelf: &mut MemShelf) {
    assert_eq!(rt; shelf.open("abc"), Err(Failed));
    assert_eq!(rt; shelf.open("abc"), Err(Failed));
    read_through(rt, shelf, "abc");
    assert_eq!(rt; shelf.read(&mut [0; 2]), Err(Failed));
    assert_eq!(rt; shelf.open("ABC"), Err(Failed));
}

// No call fails.
fn read_surely(rt: &impl Abort, shelf: &mut SureShelf) {
    assert_eq!(rt; shelf.open("other"), Err(Failed));
    read_through(rt, shelf, "abc");
    assert!(rt; shelf.open("empty").is_ok());
    assert_eq!(rt; shelf.read(&mut [0; 2]), Ok(0));
}

#[test]
fn shelves_in_memory(rt: HostRuntime) -> Result<(), AllocError> {
    let failing = vec![in rt.alloc(); 0, 1, 6]?;
    read_with_failures(&rt, &mut MemShelf::new(files(rt.alloc())?, failing));
    read_surely(&rt, &mut SureShelf::new(files(rt.alloc())?));
    Ok(())
}

// A read into the buffer gives so many bytes, and the buffer then has these.
fn source_reads(
    rt: &impl Abort,
    source: &mut impl Source,
    buf: &mut [u8; 2],
    count: usize,
    has: &[u8; 2],
) {
    assert_eq!(rt; source.read(buf), Ok(count));
    assert_eq!(rt; &*buf, has);
}

// Reads "xyz" through a buffer of two bytes.
fn drain(rt: &impl Abort, source: &mut impl Source) {
    let mut buf = *b"..";
    source_reads(rt, source, &mut buf, 2, b"xy");
    assert_eq!(rt; source.read(&mut []), Ok(0));
    source_reads(rt, source, &mut buf, 1, b"zy");
    assert_eq!(rt; source.read(&mut buf), Ok(0));
}

// The calls 0 and 1 fail.
fn drain_after_failures(rt: &impl Abort, source: &mut MemSource) {
    assert_eq!(rt; source.read(&mut [0; 4]), Err(Failed));
    assert_eq!(rt; source.read(&mut [0; 4]), Err(Failed));
    drain(rt, source);
}

#[test]
fn sources_in_memory(rt: HostRuntime) -> Result<(), AllocError> {
    let bytes = Vec::from_slice(rt.alloc(), b"xyz")?;
    drain(&rt, &mut SureSource::new(bytes));
    let bytes = Vec::from_slice(rt.alloc(), b"xyz")?;
    let failing = vec![in rt.alloc(); 1, 0]?;
    drain_after_failures(&rt, &mut MemSource::new(bytes, failing));
    Ok(())
}

// Pieces that are put into a sink with room for five bytes whose calls 0 and 1 fail: whether each
// is taken, and what has been taken by then.
const PUTS: [(&[u8], bool, &[u8]); 7] = [
    (b"ab", false, b""),
    (b"ab", false, b""),
    (b"abc", true, b"abc"),
    (b"", true, b"abc"),
    (b"def", false, b"abcde"),
    (b"f", false, b"abcde"),
    (b"", true, b"abcde"),
];

fn puts(rt: &impl Abort, sink: &mut MemSink, rows: &[(&[u8], bool, &[u8])]) {
    for (piece, is_taken, taken) in rows {
        assert_eq!(rt; sink.put(piece).is_ok(), *is_taken);
        assert_eq!(rt; sink.taken(), *taken);
    }
}

#[test]
fn sink_in_memory(rt: HostRuntime) -> Result<(), AllocError> {
    let failing = vec![in rt.alloc(); 0, 1]?;
    puts(&rt, &mut MemSink::new(rt.alloc(), 5, failing)?, &PUTS);
    Ok(())
}

// A file that the test writes where it runs, and removes.
const FILE: &str = "three.bytes";

#[test]
fn files_of_the_system(rt: HostRuntime) -> Result<(), Fail> {
    fs::write(&rt, FILE, b"xyz")?;
    let mut shelf = FileShelf::new(rt.clone()?);
    assert_eq!(rt; shelf.open("missing"), Err(Failed));
    read_through(&rt, &mut shelf, FILE);
    assert_eq!(rt; shelf.open("missing"), Err(Failed));
    fs::remove_file(&rt, FILE)?;
    Ok(())
}

#[test]
fn streams(rt: HostRuntime) {
    assert_eq!(rt; std_in(&rt).read(&mut []), Ok(0));
    assert_eq!(rt; std_out(&rt).put(b"out\n"), Ok(()));
    assert_eq!(rt; std_err(&rt).put(b"err\n"), Ok(()));
}

// A file that the test writes through the adapter of the standard output and the error output.
const WRITTEN: &str = "written.bytes";

// What the two outputs write is what they were given, in its order: the adapter is one for all
// writers, here over a file that is read back.
#[test]
fn what_is_put_is_written(rt: HostRuntime) -> Result<(), Fail> {
    let mut sink = WriterSink::over(File::create(&rt, WRITTEN)?);
    for piece in [
        b"grinc: ".as_slice(),
        b"",
        b"refused 14 at 32",
        b"\n\x00\xff",
    ] {
        assert_eq!(rt; sink.put(piece), Ok(()));
    }
    let written = fs::read(&rt, WRITTEN)?;
    assert_eq!(rt;
        written.as_slice(),
        b"grinc: refused 14 at 32\n\x00\xff".as_slice()
    );
    fs::remove_file(&rt, WRITTEN)?;
    Ok(())
}

// A file that is open for reading alone takes nothing, and each put of a byte is a fault.
#[test]
fn writers_fail(rt: HostRuntime) -> Result<(), Fail> {
    let mut sink = WriterSink::over(File::open(&rt, ".")?);
    assert_eq!(rt; sink.put(b"a"), Err(Failed));
    assert_eq!(rt; sink.put(b""), Ok(()));
    Ok(())
}

// A directory opens and can't be read.
#[test]
fn directories_fail(rt: HostRuntime) -> Result<(), Fail> {
    let mut shelf = FileShelf::new(rt.clone()?);
    let mut buf = *b"..";
    assert!(rt; shelf.open(".").is_ok());
    assert_eq!(rt; shelf.read(&mut buf), Err(Failed));
    assert_eq!(rt; shelf.read(&mut buf), Err(Failed));
    assert_eq!(rt; buf, *b"..");
    Ok(())
}
