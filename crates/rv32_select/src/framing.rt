// Which procedures have the return address in the frame all along.
#![tactic(auto)]

use low_code::{LowArm, LowBlock, LowEnd, LowStmt};

/// What is counted of a block: the pieces that need x1, the ends at which the procedure is left,
/// the fewest and the most of those pieces on a way through the block, and whether one of them is a
/// call of the procedure itself.
#[derive(Clone, Copy)]
struct Tally {
    pieces: u32,
    ends: u32,
    least: u32,
    most: u32,
    recursive: bool,
}

/// So many pieces, one after another.
fn straight(pieces: u32) -> Tally {
    Tally {
        pieces,
        ends: 0,
        least: pieces,
        most: pieces,
        recursive: false,
    }
}

/// One end of the procedure.
fn leaves() -> Tally {
    Tally {
        pieces: 0,
        ends: 1,
        least: 0,
        most: 0,
        recursive: false,
    }
}

/// A call of a procedure.
fn calls(itself: bool) -> Tally {
    Tally {
        pieces: 1,
        ends: 0,
        least: 1,
        most: 1,
        recursive: itself,
    }
}

impl Tally {
    /// Whether this block or another one calls the procedure.
    fn is_recursive(self, other: Tally) -> bool {
        if self.recursive {
            return true;
        }
        other.recursive
    }

    /// And then another block.
    fn then(self, next: Tally) -> Tally {
        Tally {
            pieces: self.pieces.saturating_add(next.pieces),
            ends: next.ends,
            least: self.least.saturating_add(next.least),
            most: self.most.saturating_add(next.most),
            recursive: self.is_recursive(next),
        }
    }

    /// Or another one instead.
    fn or(self, other: Tally) -> Tally {
        Tally {
            pieces: self.pieces.saturating_add(other.pieces),
            ends: self.ends.saturating_add(other.ends),
            least: self.least.min(other.least),
            most: self.most.max(other.most),
            recursive: self.is_recursive(other),
        }
    }

    /// The loads and stores of a return address that is in the frame all along.
    fn framed_words(self) -> u32 {
        self.ends.saturating_add(1)
    }

    /// Those of one that is there only round the pieces that need x1.
    fn other_words(self) -> u32 {
        self.pieces.saturating_mul(2)
    }
}

#[cycle(tallies)]
fn of_stmt(proc: u32, stmt: &LowStmt) -> Tally {
    match stmt {
        LowStmt::Set(_, _) => straight(0),
        LowStmt::Prim(_, _, _, _) => straight(0),
        LowStmt::Load(_, _, _) => straight(0),
        LowStmt::Save(_, _, _) => straight(0),
        LowStmt::Take(_) => straight(0),
        LowStmt::Put(_) => straight(1),
        LowStmt::Get(_) => straight(1),
        LowStmt::Call(f, _, _, _) => calls(*f == proc),
        LowStmt::Join(_, block) => of_block(proc, block),
    }
}

#[cycle(tallies)]
fn of_arms(proc: u32, arms: &[LowArm], otherwise: &LowBlock) -> Tally {
    let mut tally = of_block(proc, otherwise);
    for arm in arms {
        tally = tally.or(of_block(proc, &arm.block));
    }
    tally
}

#[cycle(tallies)]
fn of_end(proc: u32, end: &LowEnd) -> Tally {
    match end {
        LowEnd::Give(_) => leaves(),
        LowEnd::Tail(_, _, _) => leaves(),
        LowEnd::Choose(arms, otherwise) => of_arms(proc, arms.as_slice(), otherwise),
        LowEnd::Fail => Tally {
            pieces: 0,
            ends: 0,
            least: 4294967295,
            most: 0,
            recursive: false,
        },
    }
}

#[cycle(tallies)]
fn of_block(proc: u32, block: &LowBlock) -> Tally {
    let mut before = straight(0);
    for stmt in block.stmts.as_slice() {
        before = before.then(of_stmt(proc, stmt));
    }
    before.then(of_end(proc, &block.last))
}

/// The words that a stack's base that lasts spares: one for each entry, but for two of the start.
pub(crate) fn words_spared_by_base(lasting: bool, procs: u32) -> u32 {
    if lasting { procs.saturating_sub(2) } else { 0 }
}

/// Whether the return address is to be in the frame from the entry to the end. It stays in x1 where
/// a way through the procedure has no piece that needs x1 and none more than two, and its loads and
/// stores are no more then. A recursive procedure may have more, and others one, where earlier ones
/// have spared them.
pub(crate) fn is_framed(spared: &mut u32, proc: u32, body: &LowBlock) -> bool {
    let tally = of_block(proc, body);
    if tally.least > 0 {
        return true;
    }
    if tally.most > 2 {
        return true;
    }
    let framed = tally.framed_words();
    let other = tally.other_words();
    if other > spared.saturating_add(framed) {
        return true;
    }
    if other > framed.saturating_add(1) {
        if !tally.recursive {
            return true;
        }
    }
    *spared = spared.saturating_add(framed).saturating_sub(other);
    false
}
