//! Terms as nodes in a vector.

ghost use Rattle.std.specs.Prelude.{◌≡◌, ◌↔◌, IsTrue};
ghost use Rattle.unification.specs.Terms.{symbol_of, arguments_of};

use seq::Seq;

/// What a term that is no variable begins with.
#[derive(Clone, Copy, Debug)]
pub enum Symbol {
    /// The integers.
    Integer,
    /// A variable that nothing is put for, by its function and its number there.
    Rigid(u32, u32),
    /// A type by its name.
    Named(u32),
    /// Functions.
    Arrow,
}

/// A variable, which is another one at each place, or a symbol with its arguments by their places.
#[derive(Debug, Drop)]
pub enum Term {
    Variable,
    Made(Symbol, Seq<usize>),
}

/// Whether two symbols are the same.
pub fn is_same(a: Symbol, b: Symbol) -> bool
    ensures { IsTrue result ↔ (a ≡ b) }
{
    match (a, b) {
        (Symbol::Integer, Symbol::Integer) => true,
        (Symbol::Rigid(f, n), Symbol::Rigid(g, m)) => f == g && n == m,
        (Symbol::Named(n), Symbol::Named(m)) => n == m,
        (Symbol::Arrow, Symbol::Arrow) => true,
        _ => false,
    }
}

/// The symbol at a place, where there is one.
pub fn symbol_at(terms: &[Term], at: usize) -> Option<Symbol>
    ensures { result ≡ symbol_of terms.now at }
{
    match terms.get(at) {
        Some(Term::Made(symbol, _)) => Some(*symbol),
        _ => None,
    }
}

/// The arguments at a place. A variable has none.
pub fn arguments_at(terms: &[Term], at: usize) -> &[usize]
    ensures { result.now ≡ arguments_of terms.now at }
{
    match terms.get(at) {
        Some(Term::Made(_, arguments)) => arguments.as_slice(),
        _ => &[],
    }
}
