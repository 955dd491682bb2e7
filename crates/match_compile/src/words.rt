//! The numbers of the names that the program of equations has.

ghost use Rattle.std.specs.Prelude.{◌≡◌, ◌+◌, IfOk};
ghost use Rattle.std.specs.List.{position_or_len};
ghost use Rattle.match_compile.specs.Rules.{text_in};
ghost use Rattle.match_compile.specs.Translated as translated;

use core_reader::{NameId, Names};
use seq::Seq;
use std::alloc::AllocError;
use std::marker::Model;

/// The names of a text, the number of `_`, that of the first new name, and how many new ones there
/// are for equations and for parameters.
#[derive(Drop)]
pub struct Words {
    names: Names,
    nameless: u32,
    first: u32,
    equations: u32,
    columns: u32,
}

impl Model for Words {
    ghost use Rattle.match_compile.specs.Translated as translated;
    ghost use Rattle.match_compile.specs.WordsOf.{name_supply_in, NewNamesAreNumbered};

    ghost Value = { translated.Words };

    ghost view = { name_supply_in };

    ghost invariant = { NewNamesAreNumbered };
}

/// Whether a text is `_` or that of a primitive.
fn is_kept(text: &[u8]) -> bool
    ensures { result ≡ translated.is_kept text.now }
{
    match text {
        b"_" => true,
        b"add" => true,
        b"sub" => true,
        b"mul" => true,
        b"quot" => true,
        b"rem" => true,
        b"eq" => true,
        b"lt" => true,
        _ => false,
    }
}

/// The number of `_`, which stands behind all names where it isn't among them.
pub fn nameless(names: &[Seq<u8>]) -> usize
    ensures { result ≡ position_or_len translated.is_nameless names.now }
{
    'names: for (k, text) in names.iter().enumerate() {
        if text.as_slice() == b"_".as_slice() {
            return k;
        }
    }
    names.len()
}

/// The sum of two numbers, where it is a number.
pub fn checked_sum(a: u32, b: u32) -> Result<u32, AllocError>
    ensures { IfOk result (λ n. n ≡ a + b) }
{
    match a.checked_add(b) {
        None => Err(AllocError),
        Some(n) => Ok(n),
    }
}

impl Words {
    /// The names of a text with so many equations, which have so many patterns at most.
    pub fn new(names: Names, equations: u32, columns: u32) -> Result<Words, AllocError>
        ensures names { IfOk result (λ words. words.names ≡ names) }
        ensures equations { IfOk result (λ words. words.equations ≡ equations) }
        ensures columns { IfOk result (λ words. words.columns ≡ columns) }
    {
        let count = u32::try_from(names.texts().len()).map_err(|_| AllocError)?;
        let nameless = u32::try_from(nameless(names.texts())).map_err(|_| AllocError)?;
        let first = if nameless < count {
            count
        } else {
            checked_sum(count, 1)?
        };
        Ok(Words {
            names,
            nameless,
            first,
            equations,
            columns,
        })
    }

    /// The names of the text.
    pub fn into_names(self) -> Names
        ensures { result ≡ self.names }
    {
        let Words {
            names,
            nameless,
            first,
            equations,
            columns,
        } = self;
        names
    }

    /// The number of `_`.
    pub fn nameless(&self) -> NameId
        ensures { result.0 ≡ translated.nameless self.now }
    {
        NameId(self.nameless)
    }

    /// Whether a name is `_`.
    pub fn is_nameless(&self, name: u32) -> bool
        ensures { result ≡ translated.is_nameless (text_in self.now.names name) }
    {
        match self.names.texts().get(name as usize) {
            Some(text) => text.as_slice() == b"_".as_slice(),
            None => false,
        }
    }

    /// Whether a name never stands for a local.
    pub fn keeps(&self, name: u32) -> bool
        ensures { result ≡ translated.keeps self.now name }
    {
        match self.names.texts().get(name as usize) {
            Some(text) => is_kept(text.as_slice()),
            None => false,
        }
    }

    /// The name of the equation of this number.
    pub fn equation_name(&self, number: u32) -> Result<NameId, AllocError>
        ensures { IfOk result (λ name. name.0 ≡ translated.equation_name self.now number) }
    {
        let name = checked_sum(self.first, number)?;
        Ok(NameId(name))
    }

    /// The new name of a place, where the parameters are so many.
    pub fn place_name(&self, params: u32, place: u32) -> Result<NameId, AllocError>
        ensures { IfOk result (λ name. name.0 ≡ translated.place_name self.now params place) }
    {
        let first = checked_sum(self.first, self.equations)?;
        let number = if place < params {
            place
        } else {
            checked_sum(self.columns, place - params)?
        };
        let name = checked_sum(first, number)?;
        Ok(NameId(name))
    }
}
