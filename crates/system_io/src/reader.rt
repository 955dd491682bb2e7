//! Readers as sources.

ghost use Rattle.std.specs.Prelude.{◌≡◌, false, true, [], OnOk};
ghost use Rattle.std.specs.Option.{ForSome};
ghost use Rattle.std.specs.Io.KnownBytes.{Keeps, prepend_known};
ghost use Rattle.grin_io.specs.Causes.{FaultsAreCounted};
ghost use Rattle.system_io.specs.Ends.{end_left};

use crate::ahead::Ahead;
use grin_io::{Failed, Source};
use std::io::Read;
use std::rt::Stdin;

/// What gives the bytes of a reader: those that were read ahead, then those that are left of the
/// reader, where it tells them. It is read again only where all that was read ahead was given, so
/// that a fault comes behind every byte that was read before it. Once a read met its end it isn't
/// read again, so that the end stays also where more would come, as at a terminal.
#[derive(Drop)]
pub struct ReaderSource<R: Read> {
    reader: R,
    ahead: Ahead,
    over: bool,
    faults: u64,
    ghost emptied: { over ≡ true → ahead ≡ [] },
    ghost at_end: { over ≡ true → ForSome (R.remaining reader) (λ bytes. bytes ≡ []) },
}

impl<R: Read> ReaderSource<R> {
    /// All bytes of this reader, of which no read has failed.
    pub fn over(reader: R) -> ReaderSource<R>
        ensures reader { result.reader ≡ reader }
        ensures ahead { result.ahead ≡ [] }
        ensures faults { result.faults ≡ 0 }
        ensures begins { result.over ≡ false }
    {
        ReaderSource {
            reader,
            ahead: Ahead::new(),
            over: false,
            faults: 0,
        }
    }

    /// Reads once where all that was read ahead was given and the end wasn't met.
    fn look_ahead(&mut self) -> Result<(), Failed>
        ensures kept { Keeps (prepend_known self.old.ahead (R.remaining self.old.reader))
            (prepend_known self.new.ahead (R.remaining self.new.reader)) }
        ensures met { OnOk result (self.new.ahead ≡ [] → self.new.over ≡ true) }
        ensures stays { self.old.over ≡ true → self.new ≡ self.old }
        ensures cause { FaultsAreCounted self.old.faults self.new.faults result }
    {
        if self.over || !self.ahead.is_empty() {
            return Ok(());
        }
        self.ahead.refill(&mut self.reader, &mut self.faults)?;
        self.over = self.ahead.is_empty();
        Ok(())
    }
}

impl<R: Read> Source for ReaderSource<R> {
    ghost left = { λ s. prepend_known s.ahead (R.remaining s.reader) };

    ghost is_over = { λ s. s.over ≡ true };

    ghost faults = { λ s. s.faults };

    ghost ends = { λ s over. end_left s.ahead (R.remaining s.reader) (s.emptied over) (s.at_end over) };

    fn read(&mut self, buf: &mut [u8]) -> Result<usize, Failed> {
        if buf.is_empty() {
            return Ok(0);
        }
        self.look_ahead()?;
        Ok(self.ahead.give(buf))
    }
}

/// The standard input of a program, of which no read has failed.
pub fn std_in(runtime: &HostRuntime) -> ReaderSource<Stdin>
    ensures ahead { result.ahead ≡ [] }
    ensures faults { result.faults ≡ 0 }
    ensures begins { result.over ≡ false }
{
    ReaderSource::over(runtime.stdin())
}
