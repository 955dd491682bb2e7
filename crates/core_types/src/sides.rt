//! The types of the two sides of a constraint.

ghost use Rattle.std.specs.Prelude.{◌≡◌, ◌∷◌, [], ◌<◌, ℕ, List, Some, IfOk, map, length, slice_get, take};
ghost use Rattle.unification.specs.Pieces.{pieces};
ghost use Rattle.unification.specs.Shown.{AreClasses, ShowsTrees};
ghost use Rattle.unification.specs.Terms.{AreEarlier};
ghost use Rattle.unification.specs.Solutions.{Substitution, Solves};
ghost use Rattle.unification.specs.Trees.{Tree, Made};
ghost use Rattle.core_types.specs.Typing.{Typed, Arrow, Constraint};
ghost use Rattle.core_types.specs.Nodes.{TakesArguments, HaveTheirArguments, IsSound};
ghost use Rattle.core_types.specs.Building.{Stands, equations_of};
ghost use Rattle.core_types.specs.Sides.{type_of, typed_of, trees_from, IsTypeTree, HasReadArguments, read_piece, AreSides};

use crate::building::ConstraintBuilder;
use core_reader::NameId;
use seq::Seq;
use std::alloc::{AllocError, Global};
use unification::{Classes, Piece, Symbol, Term, solve, tree_pieces};

/// The most pieces of a side.
const MOST_PIECES: usize = 1000000;

/// The most types around a piece of a side, since types are dropped and written by recursion.
const MOST_DEEP: usize = 4096;

/// A type as the most general solution of constraints leaves it.
#[derive(Drop)]
#[cycle(ty)]
pub enum Ty {
    /// The integers.
    Int,
    /// A variable, by its number in the solution.
    Open(usize),
    /// A variable of the signature of a function, by the function's name and its own.
    Rigid(NameId, NameId),
    /// A type by its name, with its arguments.
    Named(NameId, Seq<Ty>),
    /// The functions from one type to another one.
    Arrow(Box<Ty>, Box<Ty>),
}

/// The functions between the types of a list of two.
#[tactic(auto, using(crate::proofs::Sided::types))]
fn arrow(alloc: Global, args: Seq<Ty>) -> Result<Ty, AllocError>
    requires { length args ≡ 2 }
    ensures { IfOk result (λ t. (u v : Typed) × (map type_of args ≡ u ∷ v ∷ []) × (type_of t ≡ Arrow u v)) }
{
    let mut args = args;
    let Some(to) = args.pop() else { unreachable!() };
    let Some(from) = args.pop() else {
        unreachable!()
    };
    let from = Box::new(alloc, from)?;
    let to = Box::new(alloc, to)?;
    Ok(Ty::Arrow(from, to))
}

/// A symbol with its arguments, as many as it has in types.
fn made(alloc: Global, symbol: Symbol, args: Seq<Ty>) -> Result<Ty, AllocError>
    requires { TakesArguments symbol (length args) }
    ensures { IfOk result (λ t. (ts : List Tree) → map type_of args ≡ map typed_of ts
        → type_of t ≡ typed_of (Made symbol (trees_from ts))) }
{
    match symbol {
        Symbol::Named(name) => Ok(Ty::Named(NameId(name), args)),
        Symbol::Arrow => arrow(alloc, args),
        Symbol::Integer => Ok(Ty::Int),
        Symbol::Rigid(function, variable) => Ok(Ty::Rigid(NameId(function), NameId(variable))),
    }
}

/// Reads one more piece of a row, from its end: a variable, or a symbol whose arguments were read
/// last.
fn read_piece(alloc: Global, read: &mut Vec<Ty>, piece: Piece) -> Result<(), AllocError>
    requires { HasReadArguments piece (length read.old.items) }
    ensures { IfOk result (λ _. (ts : List Tree) → map type_of read.old.items ≡ map typed_of ts
        → map type_of read.new.items ≡ map typed_of (read_piece piece ts)) }
{
    match piece {
        Piece::Open(number) => {
            read.push(Ty::Open(number))?;
            Ok(())
        }
        Piece::Made(symbol, count) => {
            let length = read.len();
            let args = read.split_off(length - count)?;
            let ty = made(alloc, symbol, Seq::from_vec(args))?;
            read.push(ty)?;
            Ok(())
        }
    }
}

/// The type of a row.
fn read_row(alloc: Global, row: Vec<Piece>) -> Result<Ty, AllocError>
    requires { (t : Tree) × (row.items ≡ pieces t) × IsTypeTree t }
    ensures { IfOk result (λ ty. (t : Tree) → row.items ≡ pieces t → type_of ty ≡ typed_of t) }
{
    let mut row = row;
    let mut read = Vec::new(alloc);
    'reading: while let Some(piece) = row.pop() {
        read_piece(alloc, &mut read, piece)?;
    }
    let Some(ty) = read.pop() else { unreachable!() };
    Ok(ty)
}

/// Whether more types stand around a piece of a row than the most.
fn is_deep(alloc: Global, row: &[Piece]) -> Result<bool, AllocError> {
    let mut levels = Vec::new(alloc);
    levels.push(0usize)?;
    for piece in row {
        let level = levels.pop().unwrap_or(0);
        if level > MOST_DEEP {
            return Ok(true);
        }
        if let Piece::Made(_, count) = piece {
            let Some(length) = levels.len().checked_add(*count) else {
                return Ok(true);
            };
            levels.resize(length, level + 1)?;
        }
    }
    Ok(false)
}

/// What a term becomes under the solution that classes show. More pieces than the most, and deeper
/// ones, count as want of memory.
fn side(alloc: Global, terms: &[Term], classes: &Classes, at: usize) -> Result<Ty, AllocError>
    requires earlier { AreEarlier terms.now }
    requires classes { AreClasses (length terms.now) classes.now }
    requires within { at < length terms.now }
    requires formed { HaveTheirArguments terms.now }
    requires shows { (v : ℕ → Tree) × ShowsTrees terms.now classes.now v }
    ensures { IfOk result (λ ty. (v : ℕ → Tree) → ShowsTrees terms.now classes.now v
        → type_of ty ≡ typed_of (v at)) }
{
    let row = tree_pieces(alloc, terms, classes, at, MOST_PIECES)?;
    let Some(row) = row else {
        return Err(AllocError);
    };
    if is_deep(alloc, row.as_slice())? {
        return Err(AllocError);
    }
    read_row(alloc, row)
}

/// The terms of the constraint of this number.
fn pair_at(builder: &ConstraintBuilder, number: usize) -> Option<(usize, usize)>
    ensures { result ≡ slice_get builder.now.pairs.items number }
{
    builder.pairs.as_slice().get(number).copied()
}

/// The sides of the constraint of this number, as the most general solution of those before it
/// leaves them.
pub fn sides(
    alloc: Global,
    builder: &ConstraintBuilder,
    number: usize,
) -> Result<(Ty, Ty), AllocError>
    requires sound { IsSound builder.now.nodes }
    requires stands { (cs : List Constraint) × Stands builder.now cs }
    requires within { number < length builder.now.pairs.items }
    requires solvable { (σ : Substitution) × Solves σ (take number (equations_of builder.now)) }
    ensures { IfOk result (λ tys. (cs : List Constraint) (c : Constraint) → Stands builder.now cs
        → slice_get cs number ≡ Some c
        → AreSides (take number cs) c (type_of tys.0) (type_of tys.1)) }
{
    let terms = builder.nodes.terms.as_slice();
    let pairs = builder.pairs.as_slice();
    let Some(pair) = pair_at(builder, number) else {
        unreachable!()
    };
    let before = solve(alloc, terms, &pairs[..number])?;
    let Some(classes) = before else {
        unreachable!()
    };
    let left = side(alloc, terms, &classes, pair.0)?;
    let right = side(alloc, terms, &classes, pair.1)?;
    Ok((left, right))
}
