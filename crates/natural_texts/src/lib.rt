//! Evaluation by need as a relation, for texts with lambdas and for equations: both are languages
//! whose functions are entered by a few moves, of which `natural_semantics` has the relation once.
//!
//! It has definitions and their laws, and no call of the compiler. The laws stand in the contracts
//! of functions without a body.
#![tactic(auto)]

ghost use Rattle.natural_texts.specs.Laws.{RelationOfLambdas, RelationOfEquations};

/// A text with lambdas has an output and an end within some number of units exactly where the
/// relation derives them, and goes on exactly where it derives no end.
pub fn relation_of_lambdas()
    ensures { RelationOfLambdas }
{}

/// So do equations.
pub fn relation_of_equations()
    ensures { RelationOfEquations }
{}
