//! The names of a text, and which of them stand for locals.

ghost use Rattle.std.specs.Prelude.{◌≡◌, [], IfOk, length};
ghost use Rattle.arity_check.specs.Known.{entered, all_entered};
ghost use Rattle.arity_check.specs.Tables.{known};
ghost use Rattle.lambda_lift.specs.Headers.{within, stands_for_local, is_local};
ghost use Rattle.lambda_lift.specs.Gathered.{program_of_names};

use arity_check::globals::Globals;
use arity_check::meaning::{Meaning, meaning_of_name};
use arity_check::scope::Scope;
use core_reader::{Binder, Core, NameId, Names};
use seq::Seq;
use std::alloc::{AllocError, Global};
use std::marker::Model;

/// The names of a text, which contracts see as the list of their bytes, and what is special about
/// each.
#[derive(Drop)]
pub struct Words {
    names: Names,
    globals: Globals,
}

impl Model for Words {
    ghost use Rattle.std.specs.Prelude.{◌≡◌, List, ℕ};
    ghost use Rattle.arity_check.specs.Tables.{known};
    ghost use Rattle.arity_check.specs.Whole.{known_of};
    ghost use Rattle.lambda_lift.specs.Headers.{program_headers};
    ghost use Rattle.lambda_lift.specs.Gathered.{program_of_names};

    ghost Value = { List (List ℕ) };

    ghost view = { λ w. w.names };

    ghost invariant = { λ w. known w.globals ≡ known_of (program_headers (program_of_names w.names)) };
}

impl Words {
    /// The names of a text.
    pub fn new(alloc: Global, names: Names) -> Result<Words, AllocError>
        ensures { IfOk result (λ words. words ≡ names) }
    {
        let core = Core {
            names,
            constructors: Seq::new(alloc),
            functions: Seq::new(alloc),
        };
        let globals = Globals::new(alloc, &core)?;
        Ok(Words {
            names: core.names,
            globals,
        })
    }

    /// The names, as they were given.
    pub fn into_names(self) -> Names
        ensures { result ≡ self }
    {
        let Words { names, globals } = self;
        names
    }

    /// The number of names.
    pub fn len(&self) -> usize
        ensures { result ≡ length self.now }
    {
        self.names.texts().len()
    }

    /// Whether a name stands for a local of this scope.
    pub fn is_local(&self, scope: &Scope, name: NameId) -> bool
        ensures { result ≡ is_local (program_of_names self.now) scope.now name.0 }
    {
        is_a_local(meaning_of_name(&self.globals, scope, name))
    }

    /// The names of binders stand for locals from here on.
    pub fn enter_all(&self, scope: &mut Scope, binders: &[Binder]) -> Result<(), AllocError>
        ensures { IfOk result (λ _. scope.new
            ≡ within (program_of_names self.now) binders.now scope.old) }
    {
        enter_all(scope, &self.globals, binders)?;
        Ok(())
    }
}

/// Whether a name with this meaning stands for a local.
fn is_a_local(meaning: Meaning) -> bool
    ensures { result ≡ stands_for_local (program_of_names []) meaning }
{
    match meaning {
        Meaning::Local(_) => true,
        Meaning::Function(_, _) => false,
        Meaning::Primitive(_) => false,
        Meaning::Unbound => false,
    }
}

/// A binder's name stands for a local from here on.
fn enter(scope: &mut Scope, globals: &Globals, binder: &Binder) -> Result<(), AllocError>
    ensures { IfOk result (λ _. scope.new ≡ entered (known globals.now) binder.now scope.old) }
{
    if !globals.is_nameless(binder.name) {
        scope.bind(binder.name.0, binder.name.0)?;
    }
    Ok(())
}

/// The names of binders stand for locals from here on.
fn enter_all(scope: &mut Scope, globals: &Globals, binders: &[Binder]) -> Result<(), AllocError>
    ensures { IfOk result (λ _. scope.new
        ≡ all_entered (known globals.now) binders.now scope.old) }
{
    for binder in binders {
        enter(scope, globals, binder)?;
    }
    Ok(())
}
