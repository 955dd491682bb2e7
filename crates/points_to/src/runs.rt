// Words, items and facts in runs: those of a block of 64 words together.

ghost use Rattle.std.specs.Prelude.{◌≡◌, [], ◌∷◌, ◌++◌, OnOk};
ghost use Rattle.std.specs.List.{flat_map};
ghost use Rattle.points_to.specs.Held.{item, in_part};
ghost use Rattle.points_to.specs.Asked.{facts_at};
ghost use Rattle.points_to.specs.Bits.{block_words};
ghost use Rattle.points_to.specs.Rows.{GainsMembers, words_in};
ghost use Rattle.points_to.specs.Runs.{items_of_item_run, facts_of_run};

use crate::bits::{Bits, Block, block_of, word_of};
use flow_system::fact::{Element, Part, Place};
use seq::Seq;
use std::alloc::{AllocError, Global};
use std::marker::Model;

/// The words of a block, in a part.
#[derive(Clone, Copy, Debug)]
pub struct ItemRun {
    pub part: Part,
    pub block: (u32, u64),
}

/// That the words of a block stand in a part of a place.
#[derive(Clone, Copy, Debug)]
pub struct FactRun {
    pub place: Place,
    pub items: ItemRun,
}

/// Words in blocks, in any order; a word stands there as often as it was put there.
#[derive(Drop)]
pub struct WordRuns {
    blocks: Vec<(u32, u64)>,
}

impl Model for WordRuns {
    ghost use Rattle.std.specs.Prelude.{List};
    ghost use Rattle.std.specs.List.{flat_map};
    ghost use Rattle.flow_system.specs.declared.fact.Element.{Element as AWord};
    ghost use Rattle.points_to.specs.Bits.{block_words};

    ghost Value = { List AWord };

    ghost view = { λ s. flat_map block_words s.blocks.items };
}

impl WordRuns {
    /// No words.
    pub fn new(alloc: Global) -> WordRuns
        ensures { result ≡ [] }
    {
        WordRuns {
            blocks: Vec::new(alloc),
        }
    }

    /// The blocks.
    pub fn blocks(&self) -> &[(u32, u64)]
        ensures { flat_map block_words result.now ≡ self.now }
    {
        self.blocks.as_slice()
    }

    /// Takes all words away.
    pub fn clear(&mut self)
        ensures { self.new ≡ [] }
    {
        self.blocks.clear();
    }

    /// Puts a word at the end.
    pub fn push(&mut self, word: Element) -> Result<(), AllocError>
        ensures { OnOk result (self.new ≡ self.old ++ word ∷ []) }
    {
        self.push_block(block_of(word))
    }

    /// Puts the words of a block at the end.
    pub fn push_block(&mut self, block: (u32, u64)) -> Result<(), AllocError>
        ensures { OnOk result (self.new ≡ self.old ++ block_words block) }
    {
        self.blocks.push(block)?;
        Ok(())
    }

    /// Puts the words of blocks at the end.
    pub fn push_blocks(&mut self, blocks: &[(u32, u64)]) -> Result<(), AllocError>
        ensures { OnOk result (self.new ≡ self.old ++ flat_map block_words blocks.now) }
    {
        self.blocks.extend_from_slice(blocks)?;
        Ok(())
    }

    /// Puts the words into a set. Their first block is looked for near a place; it says at which
    /// place the last one stands.
    pub fn put_into(&self, set: &mut Bits, near: usize) -> Result<usize, AllocError>
        ensures { OnOk result (GainsMembers (words_in set.old) (words_in set.new) self.now) }
    {
        set.add_all(self.blocks.as_slice(), near)
    }

    /// Puts the words, one by one, at the end of a list.
    pub fn list(&self, out: &mut Seq<Element>) -> Result<(), AllocError>
        ensures { OnOk result (out.new ≡ out.old ++ self.now) }
    {
        list_blocks(self.blocks.as_slice(), out)
    }
}

/// Puts the words of a block, one by one, at the end of a list.
pub fn list_block(block: (u32, u64), out: &mut Seq<Element>) -> Result<(), AllocError>
    ensures { OnOk result (out.new ≡ out.old ++ block_words block) }
{
    let mut left = Block::new(block.0, block.1);
    'words: while let Some(n) = left.next() {
        out.push(word_of(n)?)?;
    }
    Ok(())
}

/// Puts the words of blocks, one by one, at the end of a list.
pub fn list_blocks(blocks: &[(u32, u64)], out: &mut Seq<Element>) -> Result<(), AllocError>
    ensures { OnOk result (out.new ≡ out.old ++ flat_map block_words blocks.now) }
{
    for block in blocks {
        list_block(*block, out)?;
    }
    Ok(())
}

/// Items in runs, in any order; an item stands there as often as it was put there.
#[derive(Drop)]
pub struct ItemRuns {
    runs: Vec<ItemRun>,
}

impl Model for ItemRuns {
    ghost use Rattle.std.specs.Prelude.{List};
    ghost use Rattle.std.specs.List.{flat_map};
    ghost use Rattle.points_to.specs.Runs.{items_of_item_run};
    ghost use Rattle.points_to.specs.declared.facts.Item.{Item as AnItem};

    ghost Value = { List AnItem };

    ghost view = { λ s. flat_map items_of_item_run s.runs.items };
}

impl ItemRuns {
    /// No items.
    pub fn new(alloc: Global) -> ItemRuns
        ensures { result ≡ [] }
    {
        ItemRuns {
            runs: Vec::new(alloc),
        }
    }

    /// The runs.
    pub fn as_slice(&self) -> &[ItemRun]
        ensures { flat_map items_of_item_run result.now ≡ self.now }
    {
        self.runs.as_slice()
    }

    /// Puts a run at the end.
    pub fn push(&mut self, run: ItemRun) -> Result<(), AllocError>
        ensures { OnOk result (self.new ≡ self.old ++ items_of_item_run run) }
    {
        self.runs.push(run)?;
        Ok(())
    }

    /// Puts all runs of another list at the end.
    pub fn push_all(&mut self, others: &ItemRuns) -> Result<(), AllocError>
        ensures { OnOk result (self.new ≡ self.old ++ others.now) }
    {
        for run in others.as_slice() {
            self.push(*run)?;
        }
        Ok(())
    }

    /// Puts the words of a block, in a part, at the end.
    pub fn push_block(&mut self, part: Part, block: (u32, u64)) -> Result<(), AllocError>
        ensures { OnOk result (self.new ≡ self.old ++ in_part part (block_words block)) }
    {
        self.push(ItemRun { part, block })
    }

    /// Puts a word in a part at the end.
    pub fn push_word(&mut self, part: Part, word: Element) -> Result<(), AllocError>
        ensures { OnOk result (self.new ≡ self.old ++ item part word ∷ []) }
    {
        self.push_block(part, block_of(word))
    }
}

/// Facts in runs, in any order; a fact stands there as often as it was put there.
#[derive(Drop)]
pub struct FactRuns {
    runs: Vec<FactRun>,
}

impl Model for FactRuns {
    ghost use Rattle.std.specs.Prelude.{List};
    ghost use Rattle.std.specs.List.{flat_map};
    ghost use Rattle.points_to.specs.Runs.{facts_of_run};
    ghost use Rattle.points_to.specs.declared.facts.Fact.{Fact as AFact};

    ghost Value = { List AFact };

    ghost view = { λ s. flat_map facts_of_run s.runs.items };
}

impl FactRuns {
    /// No facts.
    pub fn new(alloc: Global) -> FactRuns
        ensures { result ≡ [] }
    {
        FactRuns {
            runs: Vec::new(alloc),
        }
    }

    /// The runs.
    pub fn as_slice(&self) -> &[FactRun]
        ensures { flat_map facts_of_run result.now ≡ self.now }
    {
        self.runs.as_slice()
    }

    /// Puts items, at a place, at the end.
    pub fn push(&mut self, place: Place, items: ItemRun) -> Result<(), AllocError>
        ensures { OnOk result (self.new ≡ self.old ++ facts_at place (items_of_item_run items)) }
    {
        self.runs.push(FactRun { place, items })?;
        Ok(())
    }
}
