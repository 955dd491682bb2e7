//! Types as a user writes them.

ghost use Rattle.std.specs.Prelude.{◌≡◌, ◌++◌, map, slice_get, OnOk, IfOk};
ghost use Rattle.std.specs.List.{position_or_len};
ghost use Rattle.seq.specs.Lists.{or_empty};
ghost use Rattle.core_types.specs.Shown.{with_mark_if_new, with_marks, marks, marks_all, same_mark, is_arrow, is_compound, text_if, variable_text, type_text, args_text, shown_sides};
ghost use Rattle.core_types.specs.Sides.{type_of, types_from};

use crate::sides::Ty;
use core_reader::NameId;
use indexmap::IndexSet;
use itoa::Buffer;
use seq::Seq;
use std::alloc::{AllocError, Global};
use std::marker::Model;

/// A variable, as three numbers that no other one has.
type VariableMark = (usize, usize, usize);

/// The variable of this number in a solution.
fn solution_mark(number: usize) -> VariableMark
    ensures { result ≡ (4, number, 0) }
{
    (4, number, 0)
}

/// A variable of the signature of a function.
fn signature_mark(function: NameId, variable: NameId) -> VariableMark
    ensures { result ≡ (5, function.0, variable.0) }
{
    (5, function.0 as usize, variable.0 as usize)
}

/// Puts a variable at the end where it is new.
fn enter_mark(seen: &mut IndexSet<VariableMark>, mark: VariableMark) -> Result<(), AllocError>
    ensures { OnOk result (seen.new.keys ≡ with_mark_if_new seen.old.keys mark) }
{
    seen.insert(mark)?;
    Ok(())
}

/// Puts the new variables of a type at the end, in the order in which they appear.
#[tactic(auto, using(crate::proofs::Sided::types, crate::proofs::Showing::more_marks))]
#[cycle(enter)]
fn enter(seen: &mut IndexSet<VariableMark>, ty: &Ty) -> Result<(), AllocError>
    ensures { OnOk result (seen.new.keys ≡ with_marks seen.old.keys (marks (type_of ty.now))) }
{
    match ty {
        Ty::Int => Ok(()),
        Ty::Open(number) => enter_mark(seen, solution_mark(*number)),
        Ty::Rigid(function, variable) => enter_mark(seen, signature_mark(*function, *variable)),
        Ty::Named(_, args) => enter_all(seen, args.as_slice()),
        Ty::Arrow(from, to) => {
            enter(seen, from)?;
            enter(seen, to)
        }
    }
}

#[tactic(auto, using(crate::proofs::Sided::types, crate::proofs::Showing::more_marks))]
#[cycle(enter)]
fn enter_all(seen: &mut IndexSet<VariableMark>, tys: &[Ty]) -> Result<(), AllocError>
    ensures { OnOk result (seen.new.keys
        ≡ with_marks seen.old.keys (marks_all (types_from (map type_of tys.now)))) }
{
    for ty in tys {
        enter(seen, ty)?;
    }
    Ok(())
}

/// The place of a variable among those that were seen, or their number where it was not.
fn place(seen: &IndexSet<VariableMark>, mark: VariableMark) -> usize
    ensures { result ≡ position_or_len (same_mark mark) seen.now.keys }
{
    match seen.get_index_of(&mark) {
        Some(place) => place,
        None => seen.len(),
    }
}

#[tactic(auto, using(crate::proofs::Sided::types))]
fn is_arrow(ty: &Ty) -> bool
    ensures { result ≡ is_arrow (type_of ty.now) }
{
    match ty {
        Ty::Arrow(_, _) => true,
        Ty::Int | Ty::Open(_) | Ty::Rigid(_, _) | Ty::Named(_, _) => false,
    }
}

/// Whether a type is an arrow or has arguments.
#[tactic(auto, using(crate::proofs::Sided::types))]
fn is_compound(ty: &Ty) -> bool
    ensures { result ≡ is_compound (type_of ty.now) }
{
    match ty {
        Ty::Arrow(_, _) => true,
        Ty::Named(_, args) => !args.is_empty(),
        Ty::Int | Ty::Open(_) | Ty::Rigid(_, _) => false,
    }
}

/// A text of types as it grows.
#[derive(Drop)]
struct Text {
    bytes: Vec<u8>,
}

impl Model for Text {
    ghost use Rattle.std.specs.Prelude.{List, ℕ};

    ghost Value = { List ℕ };

    ghost view = { λ t. t.bytes.items };
}

impl Text {
    fn put(&mut self, piece: &[u8]) -> Result<(), AllocError>
        ensures { OnOk result (self.new ≡ self.old ++ piece.now) }
    {
        self.bytes.extend_from_slice(piece)
    }

    fn put_if(&mut self, wanted: bool, piece: &[u8]) -> Result<(), AllocError>
        ensures { OnOk result (self.new ≡ self.old ++ text_if wanted piece.now) }
    {
        if wanted {
            self.put(piece)?;
        }
        Ok(())
    }

    fn name(&mut self, names: &[Seq<u8>], name: NameId) -> Result<(), AllocError>
        ensures { OnOk result (self.new ≡ self.old ++ or_empty (slice_get names.now name.0)) }
    {
        match names.get(name.0 as usize) {
            Some(name) => self.put(name.as_slice()),
            None => Ok(()),
        }
    }

    /// A variable, by its place among those that were seen.
    fn variable(
        &mut self,
        seen: &IndexSet<VariableMark>,
        mark: VariableMark,
    ) -> Result<(), AllocError>
        ensures { OnOk result (self.new ≡ self.old ++ variable_text seen.now.keys mark) }
    {
        self.put(b"v")?;
        let mut buffer = Buffer::new();
        self.put(buffer.format(place(seen, mark)).as_bytes())
    }

    #[tactic(auto, using(crate::proofs::Sided::types))]
    #[cycle(show)]
    fn ty(
        &mut self,
        names: &[Seq<u8>],
        seen: &IndexSet<VariableMark>,
        ty: &Ty,
    ) -> Result<(), AllocError>
        ensures { OnOk result (self.new
            ≡ self.old ++ type_text names.now seen.now.keys (type_of ty.now)) }
    {
        match ty {
            Ty::Int => self.put(b"Int"),
            Ty::Open(number) => self.variable(seen, solution_mark(*number)),
            Ty::Rigid(function, variable) => {
                self.variable(seen, signature_mark(*function, *variable))
            }
            Ty::Named(name, args) => {
                self.name(names, *name)?;
                self.args(names, seen, args.as_slice())
            }
            Ty::Arrow(from, to) => {
                let bracketed = is_arrow(from);
                self.put_if(bracketed, b"(")?;
                self.ty(names, seen, from)?;
                self.put_if(bracketed, b")")?;
                self.put(b" -> ")?;
                self.ty(names, seen, to)
            }
        }
    }

    /// The arguments of a type, each behind a space.
    #[tactic(auto, using(crate::proofs::Sided::types))]
    #[cycle(show)]
    fn args(
        &mut self,
        names: &[Seq<u8>],
        seen: &IndexSet<VariableMark>,
        args: &[Ty],
    ) -> Result<(), AllocError>
        ensures { OnOk result (self.new ≡ self.old
            ++ args_text names.now seen.now.keys (types_from (map type_of args.now))) }
    {
        for arg in args {
            let bracketed = is_compound(arg);
            self.put(b" ")?;
            self.put_if(bracketed, b"(")?;
            self.ty(names, seen, arg)?;
            self.put_if(bracketed, b")")?;
        }
        Ok(())
    }
}

/// Two types, with one numbering of their variables, in the order in which they appear. Time and
/// memory are linear in the text.
#[tactic(auto, using(crate::proofs::Showing::more_marks))]
pub fn shown_sides(
    alloc: Global,
    names: &[Seq<u8>],
    left: &Ty,
    right: &Ty,
) -> Result<Vec<u8>, AllocError>
    ensures shown { IfOk result (λ bytes.
        bytes.items ≡ shown_sides names.now (type_of left.now) (type_of right.now)) }
{
    let mut seen = IndexSet::new(alloc);
    enter(&mut seen, left)?;
    enter(&mut seen, right)?;
    let mut text = Text {
        bytes: Vec::new(alloc),
    };
    text.ty(names, &seen, left)?;
    text.put(b" and ")?;
    text.ty(names, &seen, right)?;
    Ok(text.bytes)
}
