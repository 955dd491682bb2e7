// Values that are the same, or the front of each other.

ghost use Rattle.std.specs.Prelude.{◌≡◌};
ghost use Rattle.case_simplify.specs.Simple.{same_word, is_prefix, same_words, same_val, is_prefix_val};

use grin_syntax::{Val, Word};

fn same_word(a: Word, b: Word) -> bool
    ensures { result ≡ same_word a b }
{
    match a {
        Word::Lit(i) => match b {
            Word::Lit(j) => i == j,
            Word::Var(_) => false,
            Word::Global(_) => false,
            Word::TagWord(_) => false,
        },
        Word::Var(x) => match b {
            Word::Lit(_) => false,
            Word::Var(y) => x.0 == y.0,
            Word::Global(_) => false,
            Word::TagWord(_) => false,
        },
        Word::Global(i) => match b {
            Word::Lit(_) => false,
            Word::Var(_) => false,
            Word::Global(j) => i == j,
            Word::TagWord(_) => false,
        },
        Word::TagWord(t) => match b {
            Word::Lit(_) => false,
            Word::Var(_) => false,
            Word::Global(_) => false,
            Word::TagWord(u) => t.0 == u.0,
        },
    }
}

// Whether the first words are the front of the second ones.
fn is_prefix(front: &[Word], words: &[Word]) -> bool
    ensures { result ≡ is_prefix front.now words.now }
{
    match front.split_first() {
        Some((word, front)) => match words.split_first() {
            Some((other, words)) => same_word(*word, *other) && is_prefix(front, words),
            None => false,
        },
        None => true,
    }
}

fn same_words(a: &[Word], b: &[Word]) -> bool
    ensures { result ≡ same_words a.now b.now }
{
    is_prefix(a, b) && is_prefix(b, a)
}

/// Whether two values are written alike.
pub(crate) fn same_val(a: &Val, b: &Val) -> bool
    ensures { result ≡ same_val a.now b.now }
{
    match a {
        Val::NodeVar(x) => match b {
            Val::NodeVar(y) => x.0 == y.0,
            Val::Node(_, _) => false,
            Val::Vector(_) => false,
            Val::One(_) => false,
        },
        Val::Node(t, ws) => match b {
            Val::NodeVar(_) => false,
            Val::Node(u, us) => t.0 == u.0 && same_words(ws.as_slice(), us.as_slice()),
            Val::Vector(_) => false,
            Val::One(_) => false,
        },
        Val::Vector(ws) => match b {
            Val::NodeVar(_) => false,
            Val::Node(_, _) => false,
            Val::Vector(us) => same_words(ws.as_slice(), us.as_slice()),
            Val::One(_) => false,
        },
        Val::One(x) => match b {
            Val::NodeVar(_) => false,
            Val::Node(_, _) => false,
            Val::Vector(_) => false,
            Val::One(y) => same_word(*x, *y),
        },
    }
}

/// Whether `u` is `v`, or the first words of a vector `v`.
pub(crate) fn is_prefix_val(u: &Val, v: &Val) -> bool
    ensures { result ≡ is_prefix_val u.now v.now }
{
    match u {
        Val::Vector(us) => match v {
            Val::Vector(ws) => is_prefix(us.as_slice(), ws.as_slice()),
            Val::NodeVar(_) => false,
            Val::Node(_, _) => false,
            Val::One(_) => false,
        },
        Val::NodeVar(_) => same_val(u, v),
        Val::Node(_, _) => same_val(u, v),
        Val::One(_) => same_val(u, v),
    }
}
