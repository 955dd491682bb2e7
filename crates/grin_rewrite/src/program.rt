// Programs by a rule.
#![tactic(auto)]

ghost use Rattle.std.specs.Prelude.{◌≡◌, IfOk, OnOk};
ghost use Rattle.grin_syntax.specs.Tree.{program_of};
ghost use Rattle.grin_meaning.specs.Rewritten.{rewritten};
ghost use Rattle.grin_rewrite.specs.Rewriting.{rewrite_code};
ghost use Rattle.grin_rewrite.specs.WithFacts.{walk_code};

use crate::blocks::block;
use crate::fact_blocks::block_with_facts;
use crate::fact_rule::FactRule;
use crate::rule::Rule;
use grin_syntax::{Grin, Proc};
use seq::Seq;
use std::alloc::{AllocError, Global};

/// A program in which the rule says what becomes of each operation without a block.
pub fn rewrite<R: Rule>(alloc: Global, rule: &R, g: Grin) -> Result<Grin, AllocError>
    ensures { IfOk result (λ h. program_of h
        ≡ rewritten (rewrite_code (R.becomes rule.now)) (program_of g)) }
{
    let mut procs = Seq::new(alloc);
    for proc in g.procs.into_vec() {
        let body = block(alloc, rule, proc.body)?;
        procs.push(Proc { body, ..proc })?;
    }
    Ok(Grin { procs, ..g })
}

/// A program in which the rule says what becomes of each piece, by what is known where it stands.
pub fn rewrite_with_facts<R: FactRule>(
    alloc: Global,
    rule: &R,
    facts: &mut R::Facts,
    g: Grin,
) -> Result<Grin, AllocError>
    ensures tree { IfOk result (λ h. program_of h
        ≡ rewritten (walk_code (R.rule rule.now) (R.known facts.old)) (program_of g)) }
    ensures facts { OnOk result (facts.new ≡ facts.old) }
{
    let mut procs = Seq::new(alloc);
    for proc in g.procs.into_vec() {
        let body = block_with_facts(alloc, rule, facts, proc.body)?;
        procs.push(Proc { body, ..proc })?;
    }
    Ok(Grin { procs, ..g })
}
