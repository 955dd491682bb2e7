// What is told of a variable, and words with it.
#![tactic(auto, using(grin_syntax::proofs::TreeOf::tree_of))]

ghost use Rattle.std.specs.Prelude.{◌≡◌, map, IfOk};
ghost use Rattle.std.specs.Option.{option_map};
ghost use Rattle.flow_system.specs.declared.fact.Place.TheVariants.{Var as var};
ghost use Rattle.flow_system.specs.declared.fact.Part.TheVariants.{Word as word};
ghost use Rattle.points_to.specs.Found.{found};
ghost use Rattle.grin_rewrite.specs.Table.{facts_of};
ghost use Rattle.pass_known.specs.Telling.{known_solution};
ghost use Rattle.pass_known.specs.Told.{sole, only_tag, told_of, literal_of, known_word, known_words, known_val, known_cell, known_cells};

use case_simplify::Known;
use flow_system::{Part, Place};
use grin_rewrite::FactTable;
use grin_syntax::{Cell, TagId, Val, VarId, Word};
use points_to::Flow;
use seq::Seq;
use std::alloc::{AllocError, Global};

/// What is told at a place of a program.
#[derive(Drop)]
pub(crate) struct Told<'a> {
    /// How many tags the program has.
    pub count: usize,
    /// A solution of its flow system, if one is read.
    pub flow: Option<&'a Flow>,
}

// The tag that is all that a variable may stand for.
fn sole(alloc: Global, flow: &Flow, x: VarId) -> Result<Option<TagId>, AllocError>
    ensures { IfOk result (λ o. option_map (λ t. t.0) o ≡ sole (found flow.now (var x.0) (word 0))) }
{
    if flow.holds_number(x) {
        return Ok(None);
    }
    let [] = flow.locs_of(x) else {
        return Ok(None);
    };
    let tags = flow.tags_in(alloc, Place::Var(x.0), Part::Word(0))?;
    let is_alone = tags.len() == 1;
    if !is_alone {
        return Ok(None);
    }
    Ok(Some(tags.as_slice()[0]))
}

impl Told<'_> {
    // The tag that is all that a variable may stand for, where a solution tells that.
    fn sole(&self, alloc: Global, x: VarId) -> Result<Option<TagId>, AllocError>
        ensures { IfOk result (λ o. option_map (λ t. t.0) o
            ≡ sole (known_solution self.now (var x.0) (word 0))) }
    {
        match self.flow {
            Some(flow) => sole(alloc, flow, x),
            None => Ok(None),
        }
    }

    fn only_tag(&self, alloc: Global, x: VarId) -> Result<Option<Known>, AllocError>
        ensures { IfOk result (λ k. k ≡ only_tag self.now.count (known_solution self.now) x.0) }
    {
        match self.sole(alloc, x)? {
            Some(tag) => {
                if (tag.0 as usize) < self.count {
                    Ok(Some(Known::Tag(tag)))
                } else {
                    Ok(None)
                }
            }
            None => Ok(None),
        }
    }

    // What is told of a variable, where these facts are known.
    fn told_of(
        &self,
        alloc: Global,
        facts: &FactTable<Known>,
        x: VarId,
    ) -> Result<Option<Known>, AllocError>
        ensures { IfOk result (λ k. k ≡ told_of self.now.count (known_solution self.now)
            (facts_of facts.now) x.0) }
    {
        match facts.known_of(x) {
            Some(known) => Ok(Some(known)),
            None => self.only_tag(alloc, x),
        }
    }

    /// A word, or the literal that is told of it.
    pub(crate) fn word(
        &self,
        alloc: Global,
        facts: &FactTable<Known>,
        word: Word,
    ) -> Result<Word, AllocError>
        ensures { IfOk result (λ w. w ≡ known_word self.now.count (known_solution self.now)
            (facts_of facts.now) word) }
    {
        match word {
            Word::Lit(k) => Ok(Word::Lit(k)),
            Word::Var(x) => match self.told_of(alloc, facts, x)? {
                Some(known) => Ok(literal_of(known)),
                None => Ok(Word::Var(x)),
            },
            Word::Global(i) => Ok(Word::Global(i)),
            Word::TagWord(t) => Ok(Word::TagWord(t)),
        }
    }

    pub(crate) fn words(
        &self,
        alloc: Global,
        facts: &FactTable<Known>,
        words: &[Word],
    ) -> Result<Seq<Word>, AllocError>
        ensures { IfOk result (λ ws. ws ≡ known_words self.now.count (known_solution self.now)
            (facts_of facts.now) words.now) }
    {
        let mut made = Seq::new(alloc);
        'words: for word in words {
            made.push(self.word(alloc, facts, *word)?)?;
        }
        Ok(made)
    }

    pub(crate) fn val(
        &self,
        alloc: Global,
        facts: &FactTable<Known>,
        v: Val,
    ) -> Result<Val, AllocError>
        ensures { IfOk result (λ u. u ≡ known_val self.now.count (known_solution self.now)
            (facts_of facts.now) v) }
    {
        match v {
            Val::NodeVar(x) => Ok(Val::NodeVar(x)),
            Val::Node(t, words) => { Ok(Val::Node(t, self.words(alloc, facts, words.as_slice())?)) }
            Val::Vector(words) => Ok(Val::Vector(self.words(alloc, facts, words.as_slice())?)),
            Val::One(word) => Ok(Val::One(self.word(alloc, facts, word)?)),
        }
    }

    pub(crate) fn known_cells(
        &self,
        alloc: Global,
        facts: &FactTable<Known>,
        cells: Seq<Cell>,
    ) -> Result<Seq<Cell>, AllocError>
        ensures { IfOk result (λ cs. cs ≡ known_cells self.now.count (known_solution self.now)
            (facts_of facts.now) cells) }
    {
        let mut made = Seq::new(alloc);
        'cells: for cell in cells.into_vec() {
            made.push(self.cell(alloc, facts, cell)?)?;
        }
        Ok(made)
    }

    fn cell(&self, alloc: Global, facts: &FactTable<Known>, cell: Cell) -> Result<Cell, AllocError>
        ensures { IfOk result (λ c. c ≡ known_cell self.now.count (known_solution self.now)
            (facts_of facts.now) cell) }
    {
        let val = self.val(alloc, facts, cell.val)?;
        Ok(Cell { val, ..cell })
    }
}

fn literal_of(known: Known) -> Word
    ensures { result ≡ literal_of known }
{
    match known {
        Known::Tag(tag) => Word::TagWord(tag),
        Known::Number(k) => Word::Lit(k),
    }
}
