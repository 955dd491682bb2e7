//! Laws of the normal form.

ghost use Rattle.arity_check.specs.Numbered.{NewBindingsAreNumbered};
ghost use Rattle.arity_check.specs.One.{FlatFormIsUnique, NormalFormIsUnique, NormalFormExists, RefusalIsUnique};

/// The new bindings of an application are numbered in order.
pub fn new_bindings_are_numbered()
    ensures { NewBindingsAreNumbered }
{}

/// An application has one flat form.
pub fn flat_form_is_unique()
    ensures { FlatFormIsUnique }
{}

/// A program that breaks no rule has a normal form.
pub fn normal_form_exists()
    ensures { NormalFormExists }
{}

/// A program has one normal form at most.
pub fn normal_form_is_unique()
    ensures { NormalFormIsUnique }
{}

/// One broken rule at one place is the first, and so refusals exclude one another.
pub fn refusal_is_unique()
    ensures { RefusalIsUnique }
{}
