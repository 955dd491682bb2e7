// What is known of the variables at a place of a program.
#![tactic(auto)]

ghost use Rattle.std.specs.Prelude.{◌≡◌, [], take, length, OnOk};
ghost use Rattle.grin_rewrite.specs.Table.{facts_of, note, AppendsFacts};

use grin_syntax::VarId;
use std::alloc::{AllocError, Global};
use std::marker::Model;

/// What is known of a variable, and what was known of it before.
#[derive(Clone, Copy, Debug)]
pub struct Fact<T> {
    pub var: VarId,
    pub known: T,
    pub before: Option<T>,
}

/// What is known at a place: facts, of which the latest of a variable counts. It is found at once,
/// and the latest facts can be taken back.
#[derive(Drop)]
pub struct FactTable<T> {
    facts: Vec<Fact<T>>,
    // by the number of a variable
    table: Vec<Option<T>>,
}

impl<T> Model for FactTable<T> {
    ghost use Rattle.std.specs.Prelude.{List};
    ghost use Rattle.grin_rewrite.specs.declared.fact_table.Fact.{Fact};

    ghost Value = { List (Fact T) };

    ghost use Rattle.grin_rewrite.specs.Table.{facts_code, TableMatchesFacts};

    ghost coded = { facts_code T.code };

    ghost view = { λ t. t.facts.items };

    ghost invariant = { λ t. TableMatchesFacts t.facts.items t.table.items };
}

impl<T: Copy> FactTable<T> {
    /// Nothing is known.
    #[tactic(auto, using(crate::proofs::Tables::table_none))]
    pub fn new(alloc: Global) -> FactTable<T>
        ensures { result ≡ [] }
    {
        FactTable {
            facts: Vec::new(alloc),
            table: Vec::new(alloc),
        }
    }

    /// How many facts there are.
    pub fn count(&self) -> usize
        ensures { result ≡ length self.now }
    {
        self.facts.len()
    }

    /// What is known of a variable.
    pub fn known_of(&self, x: VarId) -> Option<T>
        ensures { result ≡ facts_of self.now x.0 }
    {
        match self.table.get(x.0 as usize) {
            Some(known) => *known,
            None => None,
        }
    }

    /// A fact more.
    pub fn note(&mut self, var: VarId, known: T) -> Result<(), AllocError>
        ensures facts { OnOk result (facts_of self.new ≡ note var known (facts_of self.old)) }
        ensures adds { OnOk result (AppendsFacts self.old self.new) }
    {
        let before = self.known_of(var);
        let at = var.0 as usize;
        for _ in self.table.len()..(at + 1) {
            self.table.push(None)?;
        }
        self.facts.push(Fact { var, known, before })?;
        self.table[at] = Some(known);
        Ok(())
    }

    /// Only the first so many facts stay.
    pub fn keep(&mut self, count: usize)
        ensures { self.new ≡ take count self.old }
    {
        for _ in count..self.facts.len() {
            match self.facts.pop() {
                Some(fact) => self.table[fact.var.0 as usize] = fact.before,
                None => {}
            }
        }
    }
}
