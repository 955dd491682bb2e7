//! Terms as a solution leaves them, each in a row.

ghost use Rattle.std.specs.Prelude.{◌≡◌, ◌<◌, ℕ, length, IfOk, MatchOption};
ghost use Rattle.unification.specs.Pieces.{pieces, head_piece};
ghost use Rattle.unification.specs.Shown.{AreClasses, ShowsTrees, kept_of};
ghost use Rattle.unification.specs.Terms.{AreEarlier};
ghost use Rattle.unification.specs.Trees.{Tree};

use crate::classes::Classes;
use crate::term::{Symbol, Term, arguments_at, symbol_at};
use std::alloc::{AllocError, Global};

/// A piece of a tree in a row.
#[derive(Clone, Copy, Debug)]
pub enum Piece {
    /// A variable by its number.
    Open(usize),
    /// A symbol, with the number of its arguments.
    Made(Symbol, usize),
}

/// What the tree of a class begins with, by the term that the class keeps.
fn first_of(terms: &[Term], classes: &Classes, class: usize, kept: usize) -> Piece
    requires { kept ≡ kept_of classes.now class }
    ensures { result ≡ head_piece terms.now classes.now class }
{
    match symbol_at(terms, kept) {
        Some(symbol) => Piece::Made(symbol, arguments_at(terms, kept).len()),
        None => Piece::Open(class),
    }
}

/// The tree that the class of a term stands for, in a row: each symbol before its arguments, of
/// which the last one comes first. `None` where the tree has more pieces than there is room for. It
/// can have 2^n of them, since what is shared is written more than once.
pub fn tree_pieces(
    alloc: Global,
    terms: &[Term],
    classes: &Classes,
    at: usize,
    room: usize,
) -> Result<Option<Vec<Piece>>, AllocError>
    requires earlier { AreEarlier terms.now }
    requires classes { AreClasses (length terms.now) classes.now }
    requires within { at < length terms.now }
    ensures { IfOk result (λ written. (v : ℕ → Tree) → ShowsTrees terms.now classes.now v
        → MatchOption written (room < length (pieces (v at))) (λ row. row.items ≡ pieces (v at))) }
{
    let mut row = Vec::new(alloc);
    let mut left = Vec::new(alloc);
    left.push(at)?;
    'writing: while let Some(place) = left.pop() {
        if row.len() >= room {
            return Ok(None);
        }
        let class = classes.class_of(place);
        let kept = classes.kept_of(class);
        row.push(first_of(terms, classes, class, kept))?;
        left.extend_from_slice(arguments_at(terms, kept))?;
    }
    Ok(Some(row))
}
