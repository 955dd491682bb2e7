//! The constraints of expressions.

ghost use Rattle.std.specs.Prelude.{◌≡◌, IfOk, List, map};
ghost use Rattle.core_reader.specs.Tree.{bind as bind_of, expr as expr_of, alternative, alts_of};
ghost use Rattle.core_types.specs.Source.{Source};
ghost use Rattle.core_types.specs.Typing.{Typed, Locals, binds, binds_all, with_group, with_pattern, of_group, of_pattern, of_expr, of_alts, scrutinee};
ghost use Rattle.core_types.specs.Nodes.{IsSound, Denotes, DenoteEach, AddsTermForType};
ghost use Rattle.core_types.specs.Building.{IsContextOf, HasLocalsInScope, WhereTyped, Adds, EntersLocals};

use crate::building::ConstraintBuilder;
use crate::context::{Context, constructor};
use crate::instances::{Instance, applied, read_all};
use crate::nodes::{Nodes, TypeVariableKey};
use core_reader::{Alt, Bind, Binder, Expr, Pattern};
use std::alloc::{AllocError, Global};

/// The type of what is tested, by the first pattern.
fn scrutinee(alloc: Global, nodes: &mut Nodes, alts: &[Alt]) -> Result<usize, AllocError>
    ensures { IfOk result (λ x. (s : Source) → IsSound nodes.old
        → AddsTermForType nodes.old nodes.new (scrutinee s (alts_of (map alternative alts.now))) x) }
{
    let Some(first) = alts.first() else {
        let term = nodes.integer(alloc)?;
        return Ok(term);
    };
    let at = match &first.pattern {
        Pattern::Con(name, _) => name.at,
        Pattern::Int(_, at) => *at,
        Pattern::Default(binder) => binder.at,
    };
    let term = nodes.variable(TypeVariableKey::Scrutinee(at))?;
    Ok(term)
}

impl ConstraintBuilder {
    /// A binder's name has a type from here on, but `_` has none.
    fn bind(&mut self, context: &Context<'_>, binder: Binder, term: usize) -> Result<(), AllocError>
        ensures { IfOk result (λ _. WhereTyped context.now self.old term (λ s ls t.
            EntersLocals self.old self.new (binds s binder t ls))) }
    {
        if context.globals.is_nameless(binder.name) {
            return Ok(());
        }
        let Ok(local) = u32::try_from(term) else {
            return Err(AllocError);
        };
        self.scope.bind(binder.name.0, local)?;
        Ok(())
    }

    /// The names of a group have types from here on.
    fn bind_group(&mut self, context: &Context<'_>, group: &[Bind]) -> Result<(), AllocError>
        ensures { IfOk result (λ _. (s : Source) (ls : Locals) → IsContextOf context.now s
            → HasLocalsInScope self.old ls
            → EntersLocals self.old self.new (with_group s (map bind_of group.now) ls)) }
    {
        for member in group {
            let term = self
                .nodes
                .variable(TypeVariableKey::Binder(member.binder.at))?;
            self.bind(context, member.binder, term)?;
        }
        Ok(())
    }

    /// Adds the constraints of the members of a group.
    fn group(
        &mut self,
        alloc: Global,
        context: &Context<'_>,
        group: &[Bind],
    ) -> Result<(), AllocError>
        ensures { IfOk result (λ _. (s : Source) (ls : Locals) → IsContextOf context.now s
            → HasLocalsInScope self.old ls
            → Adds self.old self.new (of_group s ls (map bind_of group.now))) }
    {
        for member in group {
            let term = self
                .nodes
                .variable(TypeVariableKey::Binder(member.binder.at))?;
            self.application(alloc, context, term, &member.app)?;
        }
        Ok(())
    }

    /// Names have these types from here on, as far as there are types.
    pub fn bind_all(
        &mut self,
        context: &Context<'_>,
        binders: &[Binder],
        terms: &[usize],
    ) -> Result<(), AllocError>
        ensures { IfOk result (λ _. (s : Source) (ls : Locals) (ts : List Typed)
            → IsContextOf context.now s → HasLocalsInScope self.old ls
            → DenoteEach self.old.nodes ts terms.now
            → EntersLocals self.old self.new (binds_all s binders.now ts ls)) }
    {
        for (i, binder) in binders.iter().enumerate() {
            let Some(term) = terms.get(i) else {
                return Ok(());
            };
            self.bind(context, *binder, *term)?;
        }
        Ok(())
    }

    /// Adds the constraint of a pattern of a value of a type.
    fn pattern(
        &mut self,
        alloc: Global,
        context: &Context<'_>,
        scrutinee: usize,
        pattern: &Pattern,
    ) -> Result<(), AllocError>
        ensures { IfOk result (λ _. WhereTyped context.now self.old scrutinee (λ s ls u.
            Adds self.old self.new (of_pattern s u pattern.now))) }
    {
        match pattern {
            Pattern::Con(name, _) => {
                let Some(found) = constructor(context, name.name) else {
                    return Ok(());
                };
                let right = applied(alloc, &mut self.nodes, name.at, found.declared)?;
                self.equate(name.at, scrutinee, right)?;
                Ok(())
            }
            Pattern::Int(_, at) => {
                let right = self.nodes.integer(alloc)?;
                self.equate(*at, scrutinee, right)?;
                Ok(())
            }
            Pattern::Default(_) => Ok(()),
        }
    }

    /// The names in a pattern of a value of a type enter the scope.
    fn enter_pattern(
        &mut self,
        alloc: Global,
        context: &Context<'_>,
        scrutinee: usize,
        pattern: &Pattern,
    ) -> Result<(), AllocError>
        ensures { IfOk result (λ _. WhereTyped context.now self.old scrutinee (λ s ls u.
            EntersLocals self.old self.new (with_pattern s u pattern.now ls))) }
    {
        match pattern {
            Pattern::Con(name, binders) => {
                let Some(found) = constructor(context, name.name) else {
                    return Ok(());
                };
                let instance = Instance::Used(name.at);
                let fields = found.constructor.fields.as_slice();
                let terms = read_all(alloc, context.globals, &mut self.nodes, instance, fields)?;
                self.bind_all(context, binders.as_slice(), &terms)?;
                Ok(())
            }
            Pattern::Int(_, _) => Ok(()),
            Pattern::Default(binder) => {
                self.bind(context, *binder, scrutinee)?;
                Ok(())
            }
        }
    }

    /// Adds the constraints of an expression with an expected type.
    #[cycle(expressions)]
    pub fn expression(
        &mut self,
        alloc: Global,
        context: &Context<'_>,
        expected: usize,
        expr: &Expr,
    ) -> Result<(), AllocError>
        ensures { IfOk result (λ _. WhereTyped context.now self.old expected (λ s ls t.
            Adds self.old self.new (of_expr s ls t (expr_of expr.now)))) }
    {
        match expr {
            Expr::App(app) => {
                self.application(alloc, context, expected, app)?;
                Ok(())
            }
            Expr::Let(group, body) => {
                let depth = self.scope.len();
                self.bind_group(context, group.as_slice())?;
                self.group(alloc, context, group.as_slice())?;
                self.expression(alloc, context, expected, body)?;
                self.scope.leave(depth);
                Ok(())
            }
            Expr::Case(tested, alts) => {
                let scrutinee = scrutinee(alloc, &mut self.nodes, alts.as_slice())?;
                self.expression(alloc, context, scrutinee, tested)?;
                self.alternatives(alloc, context, scrutinee, expected, alts.as_slice())?;
                Ok(())
            }
        }
    }

    /// Adds the constraints of alternatives for a value of one type, each of another.
    #[cycle(expressions)]
    fn alternatives(
        &mut self,
        alloc: Global,
        context: &Context<'_>,
        scrutinee: usize,
        expected: usize,
        alts: &[Alt],
    ) -> Result<(), AllocError>
        ensures { IfOk result (λ _. (s : Source) (ls : Locals) (u t : Typed)
            → IsContextOf context.now s → HasLocalsInScope self.old ls → Denotes self.old.nodes u scrutinee
            → Denotes self.old.nodes t expected
            → Adds self.old self.new (of_alts s ls u t (alts_of (map alternative alts.now)))) }
    {
        for alt in alts {
            self.pattern(alloc, context, scrutinee, &alt.pattern)?;
            let depth = self.scope.len();
            self.enter_pattern(alloc, context, scrutinee, &alt.pattern)?;
            self.expression(alloc, context, expected, &alt.body)?;
            self.scope.leave(depth);
        }
        Ok(())
    }
}
