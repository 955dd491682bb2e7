ghost use Rattle.std.specs.Prelude.{◌≡◌, ℕ, ◌≤◌, Bool, true, List, [], Option, length, is_ok, is_some, IfOk, IfSome};
ghost use Rattle.std.specs.Result.{result_ok};
ghost use Rattle.grin_io.specs.Causes.{FaultsAreCounted};
ghost use Rattle.grin_io.specs.Content.{Files, OpensFile, ReadsFile, Reads, bytes_read, EndIsFinal, PutTakesPrefix};

/// An opening, a read or a put failed.
#[derive(Clone, Copy, PartialEq, Eq, Debug, Drop)]
pub struct Failed;

/// Which side of a run failed: its input or its output.
#[derive(Clone, Copy, PartialEq, Eq, Debug, Drop)]
pub enum Fault {
    Read,
    Write,
}

/// Named files, of which at most one is open.
pub trait Shelf {
    /// The files, and which one is open at which place, where the shelf tells them. No call changes
    /// the files.
    ghost content: { Self → Option Files };

    /// Whether a file is open. Every shelf tells this.
    ghost is_open: { Self → Bool };

    /// The names that may be opened.
    ghost permitted: { List ℕ → Type 0 };

    /// How many faults there were. No call lowers it.
    ghost faults: { Self → ℕ };

    /// All that this kind of shelf says of an opening: the shelf before, the name, whether it went
    /// well, the shelf after.
    ghost open_gives: { Self → List ℕ → Bool → Self → Type 0 } = { λ _ _ _ _. Unit {0} };

    /// All that this kind of shelf says of a read: the shelf before, the room in bytes, the bytes
    /// read, the shelf after.
    ghost read_gives: { Self → ℕ → Option ℕ → Self → Type 0 } = { λ _ _ _ _. Unit {0} };

    /// Opens a file at its start, in place of the one that was open. After `Failed` no file is
    /// open.
    fn open(&mut self, name: &str) -> Result<(), Failed>
        requires { permitted name.now }
        ensures content { OpensFile (content self.old) (content self.new) name.now result }
        ensures opened { is_open self.new ≡ is_ok result }
        ensures cause { FaultsAreCounted (faults self.old) (faults self.new) result }
        ensures exactly { open_gives self.old name.now (is_ok result) self.new };

    /// Reads the next bytes of the open file into the front of the buffer; their number, which is 0
    /// for a buffer that isn't empty exactly at the file's end. After `Failed` the place in the
    /// file is unchanged.
    fn read(&mut self, buf: &mut [u8]) -> Result<usize, Failed>
        requires { is_open self.old ≡ true }
        ensures content { ReadsFile (content self.old) (content self.new) buf.old buf.new result }
        ensures within { IfOk result (λ k. k ≤ length buf.old) }
        ensures opened { is_open self.new ≡ is_open self.old }
        ensures cause { FaultsAreCounted (faults self.old) (faults self.new) result }
        ensures exactly { read_gives self.old (length buf.old) (result_ok result) self.new };

    /// The content tells of an open file exactly where there is one.
    ghost told: { (s : Self) → IfSome (content s) (λ c. is_some c.opened ≡ is_open s) };
}

/// What gives bytes, up to an end that stays.
pub trait Source {
    /// The bytes that are left, where the source tells them.
    ghost left: { Self → Option (List ℕ) };

    /// Whether the end was met. Every source tells this.
    ghost is_over: { Self → Type 0 };

    /// How many faults there were. No call lowers it.
    ghost faults: { Self → ℕ };

    /// All that this kind of source says of a read: the source before, the room in bytes, the bytes
    /// that were read, the source after.
    ghost read_gives: { Self → ℕ → Option (List ℕ) → Self → Type 0 } = { λ _ _ _ _. Unit {0} };

    /// Reads the next bytes into the front of the buffer; their number, which is 0 for a buffer
    /// that isn't empty exactly where none is left. After `Failed` all bytes are still left.
    fn read(&mut self, buf: &mut [u8]) -> Result<usize, Failed>
        ensures content { Reads (left self.old) (left self.new) buf.old buf.new result }
        ensures within { IfOk result (λ k. k ≤ length buf.old) }
        ensures end { EndIsFinal (is_over self.old) (is_over self.new) (length buf.old) result }
        ensures cause { FaultsAreCounted (faults self.old) (faults self.new) result }
        ensures exactly { read_gives self.old (length buf.old) (bytes_read result buf.new) self.new };

    /// Behind the end no byte is left.
    ghost ends: { (s : Self) → is_over s → IfSome (left s) (λ bytes. bytes ≡ []) };
}

/// What takes bytes.
pub trait Sink {
    /// The bytes that were taken, where the sink tells them.
    ghost taken: { Self → Option (List ℕ) };

    /// How many faults there were. No call lowers it.
    ghost faults: { Self → ℕ };

    /// All that this kind of sink says of a put: the sink before, the piece, whether it was taken
    /// whole, the sink after.
    ghost put_gives: { Self → List ℕ → Bool → Self → Type 0 } = { λ _ _ _ _. Unit {0} };

    /// Takes a piece. After `Failed` some of it, from its front on, was taken, maybe nothing and
    /// maybe all.
    fn put(&mut self, piece: &[u8]) -> Result<(), Failed>
        ensures content { PutTakesPrefix (taken self.old) (taken self.new) piece.now result }
        ensures cause { FaultsAreCounted (faults self.old) (faults self.new) result }
        ensures exactly { put_gives self.old piece.now (is_ok result) self.new };
}
