//! What the names of a program stand for, outside of its functions.

ghost use Rattle.std.specs.Prelude.{◌≡◌, ℕ, IfOk, map};
ghost use Rattle.arity_check.specs.Known.{is_nameless, is_reserved, global};
ghost use Rattle.arity_check.specs.Tables.{known};
ghost use Rattle.std.specs.Ordering.{nat_cmp};
ghost use Rattle.std.specs.BTreeMap.{get};
ghost use Rattle.core_reader.specs.Tree.{data_of, function as function_of, program};
ghost use Rattle.arity_check.specs.Whole.{known_of, kind_of, function_at, constructor_at, main_kind, int_kind, nil_kind, cons_kind};

use crate::meaning::Meaning;
use crate::normal::PrimOp;
use core_reader::{Core, Data, Function, NameId};
use seq::Seq;
use std::alloc::{AllocError, Global};
use std::collections::BTreeMap;

/// What is special about the text of a name.
#[derive(Clone, Copy, Debug)]
pub enum NameKind {
    Nameless,
    Primitive(PrimOp),
    Main,
    Int,
    Nil,
    Cons,
    Plain,
}

/// The kind of each name; of each function its number and its number of parameters; of each
/// constructor its number and its number of fields.
#[derive(Drop)]
pub struct Globals {
    pub kinds: Vec<NameKind>,
    pub functions: BTreeMap<u32, (u32, usize)>,
    pub constructors: BTreeMap<u32, (u32, u32)>,
}

impl Globals {
    /// The kind of a name.
    pub fn kind(&self, name: NameId) -> NameKind
        ensures { result ≡ (known self.now).kind name.0 }
    {
        match self.kinds.get(name.0 as usize) {
            Some(kind) => *kind,
            None => NameKind::Plain,
        }
    }

    /// Whether a name binds nothing.
    pub fn is_nameless(&self, name: NameId) -> bool
        ensures { result ≡ is_nameless (known self.now) name.0 }
    {
        match self.kind(name) {
            NameKind::Nameless => true,
            _ => false,
        }
    }

    /// Whether a name is a primitive's.
    pub fn is_reserved(&self, name: NameId) -> bool
        ensures { result ≡ is_reserved (known self.now) name.0 }
    {
        match self.kind(name) {
            NameKind::Primitive(_) => true,
            _ => false,
        }
    }

    /// The number of fields of a constructor.
    pub fn fields(&self, name: NameId) -> Option<u32>
        ensures { result ≡ (known self.now).fields name.0 }
    {
        let (_, fields) = self.constructors.get(&name.0).copied()?;
        Some(fields)
    }

    /// The number of a constructor.
    pub fn number(&self, name: NameId) -> Option<u32>
        ensures { result ≡ (known self.now).number name.0 }
    {
        let (number, _) = self.constructors.get(&name.0).copied()?;
        Some(number)
    }

    /// What a name stands for where no local hides it.
    pub fn global(&self, name: NameId) -> Meaning
        ensures { result ≡ global (known self.now) name.0 }
    {
        match self.functions.get(&name.0).copied() {
            Some((number, params)) => Meaning::Function(number, params),
            None => Meaning::Unbound,
        }
    }

    /// Whether a name is `main`.
    pub fn is_main(&self, name: NameId) -> bool
        ensures { result ≡ main_kind ((known self.now).kind name.0) }
    {
        match self.kind(name) {
            NameKind::Main => true,
            _ => false,
        }
    }

    /// Whether a name is `Int`.
    pub fn is_int(&self, name: NameId) -> bool
        ensures { result ≡ int_kind ((known self.now).kind name.0) }
    {
        match self.kind(name) {
            NameKind::Int => true,
            _ => false,
        }
    }

    /// Whether a name is `Nil`.
    pub fn is_nil(&self, name: NameId) -> bool
        ensures { result ≡ nil_kind ((known self.now).kind name.0) }
    {
        match self.kind(name) {
            NameKind::Nil => true,
            _ => false,
        }
    }

    /// Whether a name is `Cons`.
    pub fn is_cons(&self, name: NameId) -> bool
        ensures { result ≡ cons_kind ((known self.now).kind name.0) }
    {
        match self.kind(name) {
            NameKind::Cons => true,
            _ => false,
        }
    }

    /// The tables of a program.
    pub fn new(alloc: Global, core: &Core) -> Result<Globals, AllocError>
        ensures { IfOk result (λ globals. known globals ≡ known_of (program core.now)) }
    {
        Ok(Globals {
            kinds: kinds(alloc, core.names.texts())?,
            functions: functions(alloc, core.functions.as_slice())?,
            constructors: constructors(alloc, core.constructors.as_slice())?,
        })
    }
}

/// The kind of a text.
fn kind_of(text: &[u8]) -> NameKind
    ensures { result ≡ kind_of text.now }
{
    match text {
        b"add" => NameKind::Primitive(PrimOp::Add),
        b"sub" => NameKind::Primitive(PrimOp::Sub),
        b"mul" => NameKind::Primitive(PrimOp::Mul),
        b"quot" => NameKind::Primitive(PrimOp::Quot),
        b"rem" => NameKind::Primitive(PrimOp::Rem),
        b"eq" => NameKind::Primitive(PrimOp::Eq),
        b"lt" => NameKind::Primitive(PrimOp::Lt),
        b"_" => NameKind::Nameless,
        b"main" => NameKind::Main,
        b"Int" => NameKind::Int,
        b"Nil" => NameKind::Nil,
        b"Cons" => NameKind::Cons,
        _ => NameKind::Plain,
    }
}

/// The kind of each name.
fn kinds(alloc: Global, names: &[Seq<u8>]) -> Result<Vec<NameKind>, AllocError>
    ensures { IfOk result (λ v. v.items ≡ map kind_of names.now) }
{
    let mut kinds = Vec::new(alloc);
    for name in names {
        kinds.push(kind_of(name.as_slice()))?;
    }
    Ok(kinds)
}

/// The number of each function and its number of parameters, by its name. The first of a name
/// stands.
fn functions(
    alloc: Global,
    functions: &[Function],
) -> Result<BTreeMap<u32, (u32, usize)>, AllocError>
    ensures { IfOk result (λ m. (x : ℕ) → get nat_cmp m x
        ≡ function_at (map function_of functions.now) 0 x) }
{
    let mut table = BTreeMap::new(alloc);
    for (i, function) in functions.iter().enumerate() {
        if !table.contains_key(&function.name.0) {
            let Ok(number) = u32::try_from(i) else {
                return Err(AllocError);
            };
            table.insert(function.name.0, (number, function.params.as_slice().len()))?;
        }
    }
    Ok(table)
}

/// The number of each constructor and its number of fields, by its name. The first of a name
/// stands.
fn constructors(
    alloc: Global,
    constructors: &[Data],
) -> Result<BTreeMap<u32, (u32, u32)>, AllocError>
    ensures { IfOk result (λ m. (c : ℕ) → get nat_cmp m c
        ≡ constructor_at (map data_of constructors.now) 0 c) }
{
    let mut table = BTreeMap::new(alloc);
    for (i, con) in constructors.iter().enumerate() {
        if !table.contains_key(&con.name.0) {
            let Ok(number) = u32::try_from(i) else {
                return Err(AllocError);
            };
            table.insert(con.name.0, (number, con.fields))?;
        }
    }
    Ok(table)
}
