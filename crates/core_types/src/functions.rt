//! The constraints of functions and of a whole program.

ghost use Rattle.std.specs.Prelude.{◌≡◌, [], IfOk};
ghost use Rattle.core_reader.specs.Tree.{function as function_tree};
ghost use Rattle.core_types.specs.Source.{Source};
ghost use Rattle.core_types.specs.Typing.{of_signature, of_function, constraints};
ghost use Rattle.core_types.specs.Nodes.{IsSound};
ghost use Rattle.core_types.specs.Building.{IsContextOf, HasLocalsInScope, Stands, Adds};

use crate::building::{ConstraintBuilder, own_type, param_types, result_type};
use crate::context::{Context, signature};
use crate::instances::{Instance, signed};
use crate::nodes::Nodes;
use arity_check::scope::Scope;
use core_reader::Function;
use std::alloc::{AllocError, Global};

impl ConstraintBuilder {
    /// No constraints, and no locals in scope.
    fn new(alloc: Global) -> ConstraintBuilder
        ensures { HasLocalsInScope result [] × Stands result [] }
    {
        ConstraintBuilder {
            nodes: Nodes::new(alloc),
            pairs: Vec::new(alloc),
            places: Vec::new(alloc),
            scope: Scope::new(alloc),
        }
    }

    /// Adds the constraint of the signature of a function, where it has one.
    fn signed(
        &mut self,
        alloc: Global,
        context: &Context<'_>,
        function: &Function,
    ) -> Result<(), AllocError>
        ensures { IfOk result (λ _. (s : Source) → IsContextOf context.now s
            → IsSound self.old.nodes
            → Adds self.old self.new (of_signature s (function_tree function.now))) }
    {
        let Some(signature) = signature(context, function.name) else {
            return Ok(());
        };
        let instance = Instance::Rigid(function.name.0);
        let left = signed(alloc, context.globals, &mut self.nodes, instance, signature)?;
        let right = own_type(alloc, context, &mut self.nodes, function)?;
        self.equate(function.at, left, right)?;
        Ok(())
    }

    /// Adds the constraints of a function.
    fn function(
        &mut self,
        alloc: Global,
        context: &Context<'_>,
        function: &Function,
    ) -> Result<(), AllocError>
        ensures { IfOk result (λ _. (s : Source) → IsContextOf context.now s → HasLocalsInScope self.old []
            → Adds self.old self.new (of_function s (function_tree function.now))) }
    {
        self.signed(alloc, context, function)?;
        let depth = self.scope.len();
        let params = param_types(alloc, context, &mut self.nodes, function)?;
        let result = result_type(alloc, context, &mut self.nodes, function)?;
        self.bind_all(context, function.params.as_slice(), &params)?;
        self.expression(alloc, context, result, &function.body)?;
        self.scope.leave(depth);
        Ok(())
    }
}

/// The constraints of a program, by place.
pub fn program_constraints(
    alloc: Global,
    context: &Context<'_>,
) -> Result<ConstraintBuilder, AllocError>
    ensures { IfOk result (λ b. (s : Source) → IsContextOf context.now s
        → IsSound b.nodes × Stands b (constraints s)) }
{
    let mut builder = ConstraintBuilder::new(alloc);
    for function in context.source.core.functions.as_slice() {
        builder.function(alloc, context, function)?;
    }
    Ok(builder)
}
