// Sets of variables.
#![tactic(auto)]

ghost use Rattle.std.specs.Prelude.{◌≡◌, ℕ, ◌++◌, ◌∷◌, [], IfOk, OnOk};
ghost use Rattle.pass_ground.specs.Uses.{words_use};
ghost use Rattle.pass_cells.specs.Entries.{has, AddsVariables};

use grin_syntax::Word;
use std::alloc::{AllocError, Global};
use std::collections::BTreeSet;

fn put(word: Word, set: &mut BTreeSet<u32>) -> Result<(), AllocError>
    ensures { OnOk result (AddsVariables set.old.keys (word ∷ []) set.new.keys) }
{
    match word {
        Word::Var(x) => {
            set.insert(x.0)?;
            Ok(())
        }
        Word::Lit(_) => Ok(()),
        Word::Global(_) => Ok(()),
        Word::TagWord(_) => Ok(()),
    }
}

/// The variables among these words.
pub(crate) fn variables(alloc: Global, words: &[Word]) -> Result<BTreeSet<u32>, AllocError>
    ensures { IfOk result (λ set. (x : ℕ) → has set.keys x ≡ words_use x words.now) }
{
    let mut set = BTreeSet::new(alloc);
    for word in words {
        put(*word, &mut set)?;
    }
    Ok(set)
}
