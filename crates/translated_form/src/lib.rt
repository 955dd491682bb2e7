//! The translation of a valid program is formed: each variable is bound before its uses, and all
//! that is named is there.
//!
//! It has laws about the definitions of other crates. They stand in the contracts of functions
//! without a body.
#![tactic(auto)]

ghost use Rattle.translated_form.specs.Laws.{ValidTranslationsAreFormed, ValidTranslationsCanStart, ValidTranslationsHaveFewWords};

use arity_check::laws::new_bindings_are_numbered;

/// The translation of a valid program is formed. Its global cells have no fields, and the argument
/// of the start is one of them.
pub fn valid_translations_are_formed()
    ensures formed { ValidTranslationsAreFormed }
    ensures started { ValidTranslationsCanStart }
{
    // The law that the locals of a normal form are numbered in order: so each is bound once.
    new_bindings_are_numbered();
}

/// In the translation of a valid program a procedure has few parameters, and a tag has few fields.
pub fn valid_translations_have_few_words()
    ensures { ValidTranslationsHaveFewWords }
{}
