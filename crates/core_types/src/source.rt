//! Programs with types, as they were read.

ghost use Rattle.std.specs.Prelude.{◌≡◌, ◌++◌, map, IfOk};
ghost use Rattle.std.specs.List.{flat_map};
ghost use Rattle.core_reader.specs.Tree.{data_of as core_data};
ghost use Rattle.core_types.specs.Source.{data_in};
ghost use Rattle.core_types.specs.SourceOf.{type_of};

use core_reader::{Binder, Core, Data};
use seq::Seq;
use std::alloc::{AllocError, Global};

/// A type as it is written.
#[derive(Drop)]
#[cycle(written)]
pub enum Written {
    /// A variable.
    Var(Binder),
    /// A type by its name, with its arguments.
    Named(Binder, Seq<Written>),
    /// The functions from one type to another one.
    Arrow(Box<Written>, Box<Written>),
}

/// A constructor.
#[derive(Drop)]
pub struct Constructor {
    /// Its name.
    pub name: Binder,
    /// The types of its fields, in text order.
    pub fields: Seq<Written>,
}

/// A type with its constructors.
#[derive(Drop)]
pub struct TypeDecl {
    /// Its name.
    pub name: Binder,
    /// Its parameters, in text order.
    pub params: Seq<Binder>,
    /// Its constructors, in text order.
    pub constructors: Seq<Constructor>,
}

/// The type of a function.
#[derive(Drop)]
pub struct Signature {
    /// The name of the function.
    pub function: Binder,
    /// The types before the arrows, in text order.
    pub args: Seq<Written>,
    /// The type behind the last arrow.
    pub result: Written,
}

/// A program with types.
#[derive(Drop)]
pub struct Source {
    /// The types, in text order.
    pub types: Seq<TypeDecl>,
    /// The signatures, in text order.
    pub signatures: Seq<Signature>,
    /// The program without its types: its names, its functions, and of each constructor the number
    /// of its fields.
    pub core: Core,
}

/// The constructors of a type, behind others, without the types of their fields.
#[tactic(auto, using(crate::proofs::TreeOf::count_types))]
fn constructors_of(declared: &TypeDecl, erased: &mut Vec<Data>) -> Result<(), AllocError>
    ensures { IfOk result (λ _. map core_data erased.new.items
        ≡ map core_data erased.old.items ++ data_in (type_of declared.now)) }
{
    for constructor in declared.constructors.as_slice() {
        let Ok(fields) = u32::try_from(constructor.fields.len()) else {
            return Err(AllocError);
        };
        erased.push(Data {
            name: constructor.name.name,
            fields,
            at: constructor.name.at,
        })?;
    }
    Ok(())
}

/// The constructors of all types, without the types of their fields. Want of numbers for fields
/// counts as want of memory.
pub fn constructors(alloc: Global, types: &[TypeDecl]) -> Result<Seq<Data>, AllocError>
    ensures { IfOk result (λ cs. map core_data cs ≡ flat_map data_in (map type_of types.now)) }
{
    let mut erased = Vec::new(alloc);
    for declared in types {
        constructors_of(declared, &mut erased)?;
    }
    Ok(Seq::from_vec(erased))
}
