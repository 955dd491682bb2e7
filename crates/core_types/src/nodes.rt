//! Types as terms in a vector.

ghost use Rattle.std.specs.Prelude.{◌≡◌, ℕ, Bool, IfOk, IfSome, IsTrue, Some, length, slice_get};
ghost use Rattle.unification.specs.declared.term.Term.TheVariants as term;
ghost use Rattle.core_types.specs.Nodes.{key_of, number_of, is_use, IsInRange, entry_of, entered, index_of_key, IsSound, IsSymbolAt, TakesArguments, AreBelow, Denotes, DenoteAll, ExtendsNodes, AddsTermForType};
ghost use Rattle.core_types.specs.Typing.{Typed, Types, Int, Open, Rigid, Named, Arrow};

use seq::Seq;
use std::alloc::{AllocError, Global};
use std::collections::BTreeMap;
use unification::term::{arguments_at, is_same, symbol_at};
use unification::{Symbol, Term};

/// What a variable of types is named by, with its place.
#[derive(Clone, Copy, Debug)]
pub enum TypeVariableKey {
    /// A binder.
    Binder(u32),
    /// The result of a function.
    Result(u32),
    /// A bracket with arguments.
    Bracket(u32),
    /// The first pattern of a case.
    Scrutinee(u32),
    /// A variable of what is used at a place.
    Use(u32, u32),
}

/// The kinds of keys other than uses.
const KINDS: u64 = 4;

/// How many names there are at most.
const NAMES: u64 = 4294967296;

/// The most terms. A program has at most 16,384 names, constructors and integers, so this is enough
/// where signatures have sixteen parts that differ.
const MOST_TERMS: usize = 262144;

/// A large odd number, by which marks of terms are spread.
const SPREAD: u64 = 6364136223846793005;

/// A number for a symbol.
fn symbol_mark(symbol: Symbol) -> u64 {
    match symbol {
        Symbol::Integer => 0,
        Symbol::Arrow => 1,
        Symbol::Named(name) => u64::from(name).wrapping_add(2),
        Symbol::Rigid(function, variable) => u64::from(function)
            .wrapping_mul(SPREAD)
            .wrapping_sub(u64::from(variable)),
    }
}

/// A number for a symbol with arguments, by which a term that was made is looked for.
fn mark_of(symbol: Symbol, arguments: &[usize]) -> u64 {
    let mut mark = symbol_mark(symbol);
    for argument in arguments {
        mark = mark.wrapping_add(*argument as u64).wrapping_mul(SPREAD);
    }
    mark
}

/// Whether the term at a place has this symbol and these arguments.
fn is_made(terms: &[Term], at: usize, symbol: Symbol, arguments: &[usize]) -> bool
    ensures { IsTrue result → slice_get terms.now at ≡ Some (term.Made symbol arguments.now) }
{
    match symbol_at(terms, at) {
        None => false,
        Some(found) => {
            if !is_same(found, symbol) {
                return false;
            }
            arguments_at(terms, at) == arguments
        }
    }
}

impl TypeVariableKey {
    /// The number of a key among the uses, or among the others.
    fn number(self) -> u64
        ensures number { result ≡ number_of (key_of self) }
        ensures range { IsInRange (key_of self) }
    {
        match self {
            TypeVariableKey::Binder(at) => u64::from(at) * KINDS,
            TypeVariableKey::Result(at) => u64::from(at) * KINDS + 1,
            TypeVariableKey::Bracket(at) => u64::from(at) * KINDS + 2,
            TypeVariableKey::Scrutinee(at) => u64::from(at) * KINDS + 3,
            TypeVariableKey::Use(at, variable) => u64::from(at) * NAMES + u64::from(variable),
        }
    }

    /// Whether a key is a use's.
    fn is_use(self) -> bool
        ensures { result ≡ is_use (key_of self) }
    {
        match self {
            TypeVariableKey::Binder(_)
            | TypeVariableKey::Result(_)
            | TypeVariableKey::Bracket(_)
            | TypeVariableKey::Scrutinee(_) => false,
            TypeVariableKey::Use(_, _) => true,
        }
    }
}

/// Types as terms. Each variable stands once, and so does each symbol with the same arguments, as
/// far as it is found by its mark.
#[derive(Drop)]
pub struct Nodes {
    /// The terms, each behind its arguments.
    pub terms: Vec<Term>,
    /// What each variable among them is named by.
    pub keys: Vec<Option<TypeVariableKey>>,
    /// The places of the variables of uses by the numbers of their keys, and those of the others.
    pub uses: BTreeMap<u64, usize>,
    pub places: BTreeMap<u64, usize>,
    /// The place of the last symbol with arguments of each mark.
    pub marked: BTreeMap<u64, usize>,
}

impl Nodes {
    /// No terms.
    pub fn new(alloc: Global) -> Nodes
        ensures { IsSound result }
    {
        Nodes {
            terms: Vec::new(alloc),
            keys: Vec::new(alloc),
            uses: BTreeMap::new(alloc),
            places: BTreeMap::new(alloc),
            marked: BTreeMap::new(alloc),
        }
    }

    /// The place of a symbol with arguments, where one with this mark is the same.
    fn again(&self, mark: u64, symbol: Symbol, arguments: &[usize]) -> Option<usize>
        ensures { IfSome result (λ x. IsSymbolAt self.now x symbol arguments.now) }
    {
        match self.marked.get(&mark) {
            None => None,
            Some(at) => {
                if !is_made(self.terms.as_slice(), *at, symbol, arguments) {
                    return None;
                }
                Some(*at)
            }
        }
    }

    /// A symbol with arguments, which is added where it does not stand there yet. More terms than
    /// the most count as want of memory.
    fn made(&mut self, symbol: Symbol, arguments: Seq<usize>) -> Result<usize, AllocError>
        ensures grows { IfOk result (λ x. IsSound self.old → AreBelow self.old arguments
            → TakesArguments symbol (length arguments) → ExtendsNodes self.old self.new) }
        ensures made { IfOk result (λ x. IsSound self.old → IsSymbolAt self.new x symbol arguments) }
    {
        let mark = mark_of(symbol, arguments.as_slice());
        let again = self.again(mark, symbol, arguments.as_slice());
        if let Some(at) = again {
            return Ok(at);
        }
        let at = self.terms.len();
        if at >= MOST_TERMS {
            return Err(AllocError);
        }
        self.marked.insert(mark, at)?;
        self.terms.push(Term::Made(symbol, arguments))?;
        self.keys.push(None)?;
        Ok(at)
    }

    /// The integers.
    pub fn integer(&mut self, alloc: Global) -> Result<usize, AllocError>
        ensures { IfOk result (λ x. IsSound self.old → AddsTermForType self.old self.new Int x) }
    {
        self.made(Symbol::Integer, Seq::new(alloc))
    }

    /// A variable that nothing is put for, of a function.
    pub fn rigid(
        &mut self,
        alloc: Global,
        function: u32,
        variable: u32,
    ) -> Result<usize, AllocError>
        ensures { IfOk result (λ x. IsSound self.old
            → AddsTermForType self.old self.new (Rigid function variable) x) }
    {
        self.made(Symbol::Rigid(function, variable), Seq::new(alloc))
    }

    /// A type by its name.
    pub fn named(&mut self, name: u32, arguments: Seq<usize>) -> Result<usize, AllocError>
        ensures { IfOk result (λ x. (ts : Types) → IsSound self.old
            → DenoteAll self.old ts arguments → AddsTermForType self.old self.new (Named name ts) x) }
    {
        self.made(Symbol::Named(name), arguments)
    }

    /// The functions from one type to another one.
    pub fn arrow(&mut self, alloc: Global, from: usize, to: usize) -> Result<usize, AllocError>
        ensures { IfOk result (λ x. (t u : Typed) → IsSound self.old → Denotes self.old t from
            → Denotes self.old u to → AddsTermForType self.old self.new (Arrow t u) x) }
    {
        let mut arguments = Seq::new(alloc);
        arguments.push(from)?;
        arguments.push(to)?;
        self.made(Symbol::Arrow, arguments)
    }

    /// The place of a key's variable.
    fn find(&self, key: TypeVariableKey) -> Option<usize>
        ensures found { result ≡ index_of_key self.now (key_of key) }
        ensures range { IsInRange (key_of key) }
    {
        let number = key.number();
        if key.is_use() {
            return self.uses.get(&number).copied();
        }
        self.places.get(&number).copied()
    }

    /// A key is found at a place from here on.
    fn enter(&mut self, key: TypeVariableKey, at: usize) -> Result<(), AllocError>
        ensures terms { IfOk result (λ _. self.new.terms.items ≡ self.old.terms.items) }
        ensures keys { IfOk result (λ _. self.new.keys.items ≡ self.old.keys.items) }
        ensures entered { IfOk result (λ _. (used : Bool) (number : ℕ)
            → entry_of self.new used number ≡ entered self.old (key_of key) at used number) }
        ensures range { IsInRange (key_of key) }
    {
        let number = key.number();
        if key.is_use() {
            self.uses.insert(number, at)?;
        } else {
            self.places.insert(number, at)?;
        }
        Ok(())
    }

    /// The variable of a key.
    pub fn variable(&mut self, key: TypeVariableKey) -> Result<usize, AllocError>
        ensures { IfOk result (λ x. IsSound self.old
            → AddsTermForType self.old self.new (Open (key_of key)) x) }
    {
        let found = self.find(key);
        if let Some(at) = found {
            return Ok(at);
        }
        let at = self.terms.len();
        if at >= MOST_TERMS {
            return Err(AllocError);
        }
        self.enter(key, at)?;
        self.terms.push(Term::Variable)?;
        self.keys.push(Some(key))?;
        Ok(at)
    }
}
