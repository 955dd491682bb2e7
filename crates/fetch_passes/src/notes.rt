// What is noted of a procedure: where its variables are used, and where its pieces begin and end.
#![tactic(auto, using(grin_syntax::proofs::TreeOf::tree_of))]

ghost use Rattle.std.specs.Prelude.{◌≡◌, ◌+◌, ◌<◌, IfOk};
ghost use Rattle.grin_syntax.specs.Tree.{Code, case, Arms, code_of};
ghost use Rattle.pass_ground.specs.Uses.{code_uses};
ghost use Rattle.fetch_passes.specs.Notes.{Here, with_own_size, act_trace, code_trace, arms_trace, size_at, inside, IsPlaceAfterPiece, Answers};
ghost use Rattle.fetch_passes.specs.Asked.{SpanCoversBlock, Follows};
ghost use Rattle.grin_syntax.specs.declared.program.Val.{Val};

use crate::scan::{Scan, as_u32};
use grin_syntax::{Block, VarId};
use std::alloc::{AllocError, Global};
use std::marker::Model;
use variable_uses::Uses;

/// How many uses a piece has, and how many pieces are in it.
#[derive(Clone, Copy, Debug)]
pub(crate) struct Size {
    pub uses: u32,
    pub pieces: u32,
}

/// Where a walk stands: the position of the next use, and the number of the next piece.
#[derive(Clone, Copy, Debug)]
pub(crate) struct Place {
    pub at: u32,
    pub piece: u32,
}

/// Where the rest of a block begins, and the position at which it ends.
#[derive(Clone, Copy, Debug)]
pub(crate) struct Span {
    pub place: Place,
    pub end: u32,
}

/// What is noted of a procedure.
#[derive(Drop)]
pub(crate) struct Notes {
    used: Vec<u32>,
    sizes: Vec<Size>,
    uses: Uses,
}

impl Model for Notes {
    ghost use Rattle.fetch_passes.specs.Notes.{Trace};
    ghost use Rattle.variable_uses.specs.Uses.{AreUses};

    ghost Value = { Trace };

    ghost view = { λ n. record { used = n.used.items; sizes = n.sizes.items } };

    ghost invariant = { λ n. AreUses n.used.items n.uses };
}

/// A sum of 32 bits; past those there is none, which counts as want of memory.
fn sum(a: u32, b: u32) -> Result<u32, AllocError>
    ensures { IfOk result (λ n. n ≡ a + b) }
{
    match a.checked_add(b) {
        Some(n) => Ok(n),
        None => Err(AllocError),
    }
}

impl Place {
    /// Where the first piece begins that is in the piece here.
    pub(crate) fn inside(self) -> Result<Place, AllocError>
        ensures { IfOk result (λ p. inside self p) }
    {
        let piece = sum(self.piece, 1)?;
        Ok(Place { at: self.at, piece })
    }
}

impl Notes {
    /// Notes the body of a procedure.
    pub(crate) fn of(alloc: Global, body: &Block) -> Result<Notes, AllocError>
        ensures { IfOk result (λ n. n ≡ with_own_size (code_trace (code_of body.now))) }
    {
        let mut scan = Scan::new(alloc);
        scan.inner(body)?;
        let Scan { used, sizes } = scan;
        as_u32(used.len())?;
        let uses = Uses::new(alloc, used.as_slice())?;
        Ok(Notes { used, sizes, uses })
    }

    fn size_at(&self, piece: u32) -> Size
        ensures { result ≡ size_at self.now.sizes piece }
    {
        match self.sizes.get(piece as usize) {
            Some(size) => *size,
            None => Size { uses: 0, pieces: 0 },
        }
    }

    /// Where the piece ends that begins here, and the next one begins.
    pub(crate) fn past(&self, here: Place) -> Result<Place, AllocError>
        ensures { IfOk result (λ p. IsPlaceAfterPiece self.now here p) }
    {
        let size = self.size_at(here.piece);
        let at = sum(here.at, size.uses)?;
        let piece = sum(sum(here.piece, size.pieces)?, 1)?;
        Ok(Place { at, piece })
    }

    /// Where the block stands that begins here.
    pub(crate) fn block(&self, here: Place) -> Result<Span, AllocError>
        ensures spans { IfOk result (λ s. (b : Code) → Here self.now here (with_own_size (code_trace b))
            → SpanCoversBlock self.now s b) }
        ensures inside { IfOk result (λ s. inside here s.place) }
    {
        let place = here.inside()?;
        let next = self.past(here)?;
        Ok(Span {
            place,
            end: next.at,
        })
    }

    /// Where the rest of a block stands, past its first piece.
    pub(crate) fn rest(&self, span: Span) -> Result<Span, AllocError>
        ensures follows { IfOk result (λ s. Follows self.now span s) }
        ensures past { IfOk result (λ s. IsPlaceAfterPiece self.now span.place s.place) }
    {
        let place = self.past(span.place)?;
        Ok(Span {
            place,
            end: span.end,
        })
    }

    /// Where the alternatives begin of the case that begins here.
    pub(crate) fn alts(&self, here: Place) -> Result<Place, AllocError>
        ensures alts { IfOk result (λ p. (v : Val) (as' : Arms)
            → Here self.now here (with_own_size (act_trace (case v as')))
            → Here self.now p (arms_trace as')) }
        ensures later { IfOk result (λ p. here.piece < p.piece) }
    {
        let value = here.inside()?;
        let first = self.past(value)?;
        Ok(first)
    }

    /// Whether a variable is used between two positions.
    pub(crate) fn within(&self, x: VarId, from: u32, to: u32) -> bool
        ensures { Answers self.now x.0 from to result }
    {
        self.uses.within(x.0, from, to)
    }

    /// Whether the block that begins here uses a variable.
    pub(crate) fn block_uses(&self, x: VarId, body: &Block, here: Place) -> Result<bool, AllocError>
        requires { Here self.now here (with_own_size (code_trace (code_of body.now))) }
        ensures { IfOk result (λ used. used ≡ code_uses x.0 (code_of body.now)) }
    {
        let next = self.past(here)?;
        Ok(self.within(x, here.at, next.at))
    }
}
