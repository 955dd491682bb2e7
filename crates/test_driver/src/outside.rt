//! The objects in memory that a command line is run over.

use grin_driver::{Line, Status, grinc_main};
use grin_io::{MemFile, MemShelf, MemSink, MemSource};
use std::alloc::{AllocError, Global};

/// `Nil` and `Cons`, 25 bytes.
pub(crate) const LISTS: &str = "data Nil 0; data Cons 2; ";

/// The words that run the file.
pub(crate) const RUN: [&str; 3] = ["grinc", "run", "a"];

/// The bytes that an output takes.
const CAPACITY: usize = 1_048_576;

/// An object that a command line is given.
#[derive(Clone, Copy, PartialEq, Eq)]
pub(crate) enum Object {
    Shelf,
    Input,
    Out,
    Err,
}

/// A file under the name `a`, an input, and an object whose call of this number fails.
#[derive(Clone, Copy)]
pub(crate) struct Outside<'a> {
    pub(crate) file: &'a [u8],
    pub(crate) input: &'a [u8],
    pub(crate) failing: Option<(Object, u64)>,
}

/// A status, the bytes on the output, and the line on the error output.
#[derive(Drop)]
pub(crate) struct Ended {
    status: Status,
    out: MemSink,
    err: MemSink,
}

impl Ended {
    /// Whether this is the status of the process, and whether the two outputs took these texts.
    pub(crate) fn is(&self, code: u8, out: &str, err: &str) -> bool {
        self.is_bytes(code, out.as_bytes(), err)
    }

    /// Whether this is the status of the process, and whether the error output took this text.
    fn ends(&self, code: u8, err: &str) -> bool {
        self.status.code() == code && self.err.taken() == err.as_bytes()
    }

    /// Whether this is the status of the process, and whether the two outputs took these bytes.
    fn is_bytes(&self, code: u8, out: &[u8], err: &str) -> bool {
        self.status.code() == code && self.out.taken() == out && self.err.taken() == err.as_bytes()
    }

    /// Whether this is a whole line that the output took.
    pub(crate) fn has_line(&self, line: &str) -> bool {
        let mut lines = self.out.taken().split(|byte| *byte == b'\n');
        lines.any(|other| other == line.as_bytes())
    }

    /// The bytes that the output took.
    pub(crate) fn bytes(&self) -> &[u8] {
        self.out.taken()
    }

    /// Whether the status of the process is 0, and nothing was told on the error output.
    pub(crate) fn is_done(&self) -> bool {
        self.status.code() == 0 && self.err.taken().is_empty()
    }

    /// Whether this is the status of the process, whether the output took this byte and no other,
    /// at least once, and whether the error output took this text.
    fn is_repeated(&self, code: u8, byte: u8, err: &str) -> bool {
        let out = self.out.taken();
        self.is_bytes(code, out, err) && !out.is_empty() && out.iter().all(|other| *other == byte)
    }
}

/// The status of a line over objects in memory.
fn status_of(
    alloc: Global,
    line: &Line,
    shelf: &mut MemShelf,
    input: &mut MemSource,
    out: &mut MemSink,
    err: &mut MemSink,
) -> Status {
    grinc_main(alloc, line, shelf, input, out, err)
}

impl<'a> Outside<'a> {
    /// A file, an input of no bytes, and no failure.
    pub(crate) fn of(file: &'a [u8]) -> Outside<'a> {
        Outside::with_input(file, b"")
    }

    /// A file, an input, and no failure.
    pub(crate) fn with_input(file: &'a [u8], input: &'a [u8]) -> Outside<'a> {
        Outside {
            file,
            input,
            failing: None,
        }
    }

    /// The calls of an object that are to fail.
    fn failing_calls(&self, alloc: Global, object: Object) -> Result<Vec<u64>, AllocError> {
        let mut calls = Vec::new(alloc);
        if let Some((failing, call)) = self.failing {
            if failing == object {
                calls.push(call)?;
            }
        }
        Ok(calls)
    }

    /// An output that takes so many bytes.
    fn sink(&self, alloc: Global, object: Object, capacity: usize) -> Result<MemSink, AllocError> {
        let calls = self.failing_calls(alloc, object)?;
        MemSink::new(alloc, capacity, calls)
    }

    /// The input.
    fn source(&self, alloc: Global) -> Result<MemSource, AllocError> {
        let bytes = Vec::from_slice(alloc, self.input)?;
        let calls = self.failing_calls(alloc, Object::Input)?;
        Ok(MemSource::new(bytes, calls))
    }

    /// Runs the command line of these words.
    pub(crate) fn run(&self, alloc: Global, words: &[&str]) -> Result<Ended, AllocError> {
        let line = line_of(alloc, words)?;
        let file = file_of(alloc, "a", self.file)?;
        let mut files = Vec::new(alloc);
        files.push(file)?;
        self.run_over(alloc, &line, files)
    }

    /// Runs a command line over these files.
    pub(crate) fn run_over(
        &self,
        alloc: Global,
        line: &Line,
        files: Vec<MemFile>,
    ) -> Result<Ended, AllocError> {
        let calls = self.failing_calls(alloc, Object::Shelf)?;
        let mut shelf = MemShelf::new(files, calls);
        let mut input = self.source(alloc)?;
        let mut out = self.sink(alloc, Object::Out, CAPACITY)?;
        let mut err = self.sink(alloc, Object::Err, 256)?;
        let status = status_of(alloc, line, &mut shelf, &mut input, &mut out, &mut err);
        Ok(Ended { status, out, err })
    }

    /// Whether these words end with this status of the process, and the two outputs take these
    /// texts. How a line ended is dropped in functions such as this one, and not in tests, since a
    /// proof goes over each part of what a function drops, once for each of its ends.
    pub(crate) fn answers(
        &self,
        alloc: Global,
        words: &[&str],
        code: u8,
        out: &str,
        err: &str,
    ) -> Result<bool, AllocError> {
        self.answers_bytes(alloc, words, code, out.as_bytes(), err)
    }

    /// Whether these words end with this status of the process, and the two outputs take these
    /// bytes.
    pub(crate) fn answers_bytes(
        &self,
        alloc: Global,
        words: &[&str],
        code: u8,
        out: &[u8],
        err: &str,
    ) -> Result<bool, AllocError> {
        let ended = self.run(alloc, words)?;
        Ok(ended.is_bytes(code, out, err))
    }

    /// Whether these words end with this status of the process, and the error output takes this
    /// text.
    pub(crate) fn ends(
        &self,
        alloc: Global,
        words: &[&str],
        code: u8,
        err: &str,
    ) -> Result<bool, AllocError> {
        let ended = self.run(alloc, words)?;
        Ok(ended.ends(code, err))
    }

    /// Whether these words end with this status of the process, the output takes this byte and no
    /// other, at least once, and the error output takes this text.
    pub(crate) fn repeats(
        &self,
        alloc: Global,
        words: &[&str],
        code: u8,
        byte: u8,
        err: &str,
    ) -> Result<bool, AllocError> {
        let ended = self.run(alloc, words)?;
        Ok(ended.is_repeated(code, byte, err))
    }
}

/// A command line of these words.
pub(crate) fn line_of(alloc: Global, words: &[&str]) -> Result<Line, AllocError> {
    let mut line = Line::new(alloc);
    for word in words {
        line.add(word)?;
    }
    Ok(line)
}

/// A file under a name.
pub(crate) fn file_of(alloc: Global, name: &str, bytes: &[u8]) -> Result<MemFile, AllocError> {
    let name = String::from_str(alloc, name)?;
    let bytes = Vec::from_slice(alloc, bytes)?;
    Ok(MemFile { name, bytes })
}

/// Whether these words are answered so where the file holds this text behind `LISTS`.
pub(crate) fn program_answers(
    alloc: Global,
    text: &str,
    words: &[&str],
    code: u8,
    out: &str,
    err: &str,
) -> Result<bool, AllocError> {
    let text = format!(in alloc; "{LISTS}{text}")?;
    Outside::of(text.as_bytes()).answers(alloc, words, code, out, err)
}

/// A text whose `main` has a body behind so many opening words, and as many closing ones behind it.
pub(crate) fn nested(
    alloc: Global,
    front: &str,
    times: usize,
    open: &str,
    body: &str,
    close: &str,
) -> Result<String, AllocError> {
    let mut text = String::from_str(alloc, front)?;
    text.push_str("main = ")?;
    for _ in 0..times {
        text.push_str(open)?;
    }
    text.push_str(body)?;
    for _ in 0..times {
        text.push_str(close)?;
    }
    text.push_str(";")?;
    Ok(text)
}

/// The bytes that a command writes for the text of a file; none where it refuses it.
fn written(alloc: Global, command: &str, file: &str) -> Result<Vec<u8>, AllocError> {
    let ended = Outside::of(file.as_bytes()).run(alloc, &["grinc", command, "a"])?;
    Vec::from_slice(alloc, ended.bytes())
}

/// Whether a run of the text that a command writes for the text of a file is answered so. Where the
/// command refuses it, an empty text is run, which `run` refuses.
pub(crate) fn written_answers(
    alloc: Global,
    command: &str,
    file: &str,
    input: &str,
    code: u8,
    out: &str,
    err: &str,
) -> Result<bool, AllocError> {
    let written = written(alloc, command, file)?;
    let outside = Outside::with_input(&written, input.as_bytes());
    outside.answers(alloc, &RUN, code, out, err)
}
