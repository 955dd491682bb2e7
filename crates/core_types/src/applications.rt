//! The constraints of applications.

ghost use Rattle.std.specs.Prelude.{◌≡◌, IfOk, map};
ghost use Rattle.core_reader.specs.Tree.{term as term_of, application as application_of, terms_of};
ghost use Rattle.core_types.specs.Source.{Source};
ghost use Rattle.core_types.specs.Typing.{Locals, within_term, within_terms, of_app};
ghost use Rattle.core_types.specs.Building.{IsContextOf, HasLocalsInScope, WhereTyped, Adds};

use crate::building::ConstraintBuilder;
use crate::context::Context;
use crate::nodes::TypeVariableKey;
use core_reader::{App, Atom};
use std::alloc::{AllocError, Global};

impl ConstraintBuilder {
    /// Adds the constraints of an application with an expected type.
    #[cycle(applications)]
    pub fn application(
        &mut self,
        alloc: Global,
        context: &Context<'_>,
        expected: usize,
        app: &App,
    ) -> Result<(), AllocError>
        ensures { IfOk result (λ _. WhereTyped context.now self.old expected (λ s ls t.
            Adds self.old self.new (of_app s ls t (application_of app.now)))) }
    {
        if app.args.is_empty() {
            match &app.head {
                Atom::Bracket(inner, _) => {
                    self.application(alloc, context, expected, inner)?;
                    return Ok(());
                }
                Atom::Name(_, _) | Atom::Con(_, _) | Atom::Int(_, _) => {
                    self.applied(alloc, context, expected, app)?;
                    return Ok(());
                }
            }
        }
        self.applied(alloc, context, expected, app)?;
        self.within_term(alloc, context, &app.head)?;
        self.within_terms(alloc, context, app.args.as_slice())?;
        Ok(())
    }

    /// Adds the constraints of the brackets with arguments in a head or an argument.
    #[cycle(applications)]
    fn within_term(
        &mut self,
        alloc: Global,
        context: &Context<'_>,
        atom: &Atom,
    ) -> Result<(), AllocError>
        ensures { IfOk result (λ _. (s : Source) (ls : Locals) → IsContextOf context.now s
            → HasLocalsInScope self.old ls → Adds self.old self.new (within_term s ls (term_of atom.now))) }
    {
        match atom {
            Atom::Bracket(app, at) => {
                if app.args.is_empty() {
                    self.within_term(alloc, context, &app.head)?;
                    return Ok(());
                }
                let expected = self.nodes.variable(TypeVariableKey::Bracket(*at))?;
                self.application(alloc, context, expected, app)?;
                Ok(())
            }
            Atom::Name(_, _) | Atom::Con(_, _) | Atom::Int(_, _) => Ok(()),
        }
    }

    /// Adds the constraints of the brackets with arguments in arguments.
    #[cycle(applications)]
    fn within_terms(
        &mut self,
        alloc: Global,
        context: &Context<'_>,
        atoms: &[Atom],
    ) -> Result<(), AllocError>
        ensures { IfOk result (λ _. (s : Source) (ls : Locals) → IsContextOf context.now s
            → HasLocalsInScope self.old ls
            → Adds self.old self.new (within_terms s ls (terms_of (map term_of atoms.now)))) }
    {
        for atom in atoms {
            self.within_term(alloc, context, atom)?;
        }
        Ok(())
    }
}
