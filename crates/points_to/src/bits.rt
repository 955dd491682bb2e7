// Sets of words as sparse rows of bits, over a numbering of the words.

ghost use Rattle.std.specs.Prelude.{◌≡◌, ◌≢◌, ℕ, ◌^◌, ◌<◌, max, [], ◌∷◌, ◌↔◌, IsTrue, IfOk, OnOk, false};
ghost use Rattle.std.specs.List.{flat_map};
ghost use Rattle.std.specs.Int.{bit_at};
ghost use Rattle.std.proofs.Props.{props};
ghost use Rattle.flow_system.specs.declared.fact.Element.{Element as Element'};
ghost use Rattle.points_to.specs.Held.{In};
ghost use Rattle.points_to.specs.Bits.{Ascending, BitsAt, Finds, IsPlace, StandsAt, Takes, number_of, word_of, block_numbers, block_words};

use crate::truth::either;
use flow_system::fact::Element;
use std::alloc::{AllocError, Global};
use std::marker::Model;

/// The number of a word. Blocks of cells and blocks of other words take turns, so that a block has
/// words of one kind.
pub fn number_of(word: Element) -> u64
    ensures number { result ≡ number_of word }
    ensures below { result < 2 ^ 38 }
{
    match word {
        Element::Cell(s) => s as u64 / 64 * 128 + 64 + s as u64 % 64,
        Element::Tag(t) => (t as u64 + 1) / 64 * 128 + (t as u64 + 1) % 64,
        Element::Number => 0,
    }
}

/// The word with a number. Where the number is too large for one, that is want of memory.
pub fn word_of(n: u64) -> Result<Element, AllocError>
    ensures { IfOk result (λ w. w ≡ word_of n) }
{
    let nth = n / 128 * 64 + n % 64;
    if nth > u32::MAX as u64 {
        return Err(AllocError);
    }
    if n % 128 >= 64 {
        return Ok(Element::Cell(nth as u32));
    }
    if nth == 0 {
        return Ok(Element::Number);
    }
    Ok(Element::Tag(nth as u32 - 1))
}

/// The block of one word alone: its number and its bits.
pub fn block_of(word: Element) -> (u32, u64)
    ensures { block_words result ≡ word ∷ [] }
{
    let n = number_of(word);
    ((n / 64) as u32, with_bit(0, (n % 64) as u32))
}

/// What is left to go over of a block of 64 numbers: a bit for each, the lowest for 64 times the
/// block's number.
#[derive(Debug, Drop)]
pub struct Block {
    number: u32,
    bits: u64,
}

impl Model for Block {
    ghost use Rattle.std.specs.Prelude.{List, ℕ};
    ghost use Rattle.points_to.specs.Bits.{block_numbers};

    ghost Value = { List ℕ };

    ghost view = { λ b. block_numbers (b.number, b.bits) };
}

impl Block {
    /// A whole block.
    pub fn new(number: u32, bits: u64) -> Block
        ensures { result ≡ block_numbers (number, bits) }
    {
        Block { number, bits }
    }

    /// The least number that is left, if there is one.
    pub fn next(&mut self) -> Option<u64>
        ensures { Takes self.old self.new result }
    {
        if self.bits == 0 {
            return None;
        }
        let lowest = self.bits.trailing_zeros();
        self.bits = without_bit(self.bits, lowest);
        Some(self.number as u64 * 64 + lowest as u64)
    }
}

fn has_bit(bits: u64, k: u32) -> bool
    requires { k < 64 }
    ensures { IsTrue result ↔ (bit_at bits k ≡ 1) }
{
    bits & (1 << k) != 0
}

pub(crate) fn with_bit(bits: u64, k: u32) -> u64
    requires { k < 64 }
    ensures set { bit_at result k ≡ 1 }
    ensures others { (i : ℕ) → i ≢ k → bit_at result i ≡ bit_at bits i }
{
    bits | (1 << k)
}

pub(crate) fn without_bit(bits: u64, k: u32) -> u64
    requires { k < 64 }
    ensures clear { bit_at result k ≡ 0 }
    ensures others { (i : ℕ) → i < 64 → i ≢ k → bit_at result i ≡ bit_at bits i }
{
    bits & !(1 << k)
}

// The bits of both.
fn union(a: u64, b: u64) -> u64
    ensures { (i : ℕ) → bit_at result i ≡ max (bit_at a i) (bit_at b i) }
{
    a | b
}

// Whether all bits of a are among those of b.
fn is_within(a: u64, b: u64) -> bool
    ensures { IsTrue result → (i : ℕ) → bit_at a i ≡ 1 → bit_at b i ≡ 1 }
{
    a & b == a
}

/// A set of numbers: each block that has a member, as its number and its bits, in the order of
/// their numbers.
#[derive(Drop)]
pub struct Bits {
    pub(crate) blocks: Vec<(u32, u64)>,
    ghost ascending: { Ascending blocks.items } by { Prim.hlevel props },
}

impl Bits {
    ghost use Rattle.points_to.specs.Rows.{numbers_in, GainsMembers};

    /// No numbers.
    pub fn new(alloc: Global) -> Bits
        ensures { numbers_in result ≡ [] }
    {
        Bits {
            blocks: Vec::new(alloc),
        }
    }

    /// Whether a number is there.
    pub fn has(&self, n: u64) -> bool
        requires { n < 2 ^ 38 }
        ensures { IsTrue result ↔ In n (numbers_in self.now) }
    {
        has_bit(
            bits_at(self.blocks.as_slice(), (n / 64) as u32),
            (n % 64) as u32,
        )
    }

    /// Puts the numbers of a block there, and says whether some of them may be new. Where none is,
    /// nothing changes.
    pub fn add_new(&mut self, block: (u32, u64)) -> Result<bool, AllocError>
        ensures gets { OnOk result (GainsMembers (numbers_in self.old) (numbers_in self.new)
            (block_numbers block)) }
        ensures still { IfOk result (λ added. added ≡ false → self.new ≡ self.old) }
    {
        let found = find(self.blocks.as_slice(), block.0);
        if has_at(self.blocks.as_slice(), block, found) {
            return Ok(false);
        }
        Self::put_at(&mut self.blocks, block, found)?;
        Ok(true)
    }

    /// Puts the numbers of blocks there. The first block is looked for near a place; it says at
    /// which place the last one stands.
    pub fn add_all(&mut self, blocks: &[(u32, u64)], near: usize) -> Result<usize, AllocError>
        ensures { OnOk result (GainsMembers (numbers_in self.old) (numbers_in self.new)
            (flat_map block_numbers blocks.now)) }
    {
        let mut place = near;
        for block in blocks {
            place = self.add_near(*block, place)?;
        }
        Ok(place)
    }

    /// Puts the numbers of blocks there, and says whether some of them may be new.
    pub fn gain_all(&mut self, blocks: &[(u32, u64)]) -> Result<bool, AllocError>
        ensures { OnOk result (GainsMembers (numbers_in self.old) (numbers_in self.new)
            (flat_map block_numbers blocks.now)) }
    {
        let mut place = 0;
        let mut added = false;
        for block in blocks {
            let gained = self.gain_near(*block, place)?;
            place = gained.0;
            added = either(added, gained.1);
        }
        Ok(added)
    }

    // Puts the numbers of a block there, which is looked for near a place first, and says at which
    // place it stands and whether some of them may be new.
    fn gain_near(&mut self, block: (u32, u64), near: usize) -> Result<(usize, bool), AllocError>
        ensures { OnOk result (GainsMembers (numbers_in self.old) (numbers_in self.new)
            (block_numbers block)) }
    {
        let found = find_near(self.blocks.as_slice(), block.0, near);
        let there = has_at(self.blocks.as_slice(), block, found);
        let place = Self::put_at(&mut self.blocks, block, found)?;
        Ok((place, !there))
    }

    // Puts the numbers of a block there, which is looked for near a place first, and says at which
    // place it stands.
    fn add_near(&mut self, block: (u32, u64), near: usize) -> Result<usize, AllocError>
        ensures { OnOk result (GainsMembers (numbers_in self.old) (numbers_in self.new)
            (block_numbers block)) }
    {
        let found = find_near(self.blocks.as_slice(), block.0, near);
        Self::put_at(&mut self.blocks, block, found)
    }

    // Puts the numbers of a block where it was found or where it would go, and says at which place
    // it stands.
    fn put_at(
        blocks: &mut Vec<(u32, u64)>,
        block: (u32, u64),
        found: Result<usize, usize>,
    ) -> Result<usize, AllocError>
        requires ascending { Ascending blocks.old.items }
        requires finds { Finds blocks.old.items block.0 found }
        ensures ascending { Ascending blocks.new.items }
        ensures gets { OnOk result (GainsMembers (flat_map block_numbers blocks.old.items)
            (flat_map block_numbers blocks.new.items) (block_numbers block)) }
    {
        match found {
            Ok(place) => {
                let old = blocks[place].1;
                let bits = union(old, block.1);
                blocks[place] = (block.0, bits);
                Ok(place)
            }
            Err(place) => {
                blocks.insert(place, block)?;
                Ok(place)
            }
        }
    }
}

// Whether all numbers of a block are there, which was looked for. Where it says no, some may be
// missing.
fn has_at(blocks: &[(u32, u64)], block: (u32, u64), found: Result<usize, usize>) -> bool
    requires ascending { Ascending blocks.now }
    requires finds { Finds blocks.now block.0 found }
    ensures { IsTrue result → (n : ℕ) → In n (block_numbers block)
        → In n (flat_map block_numbers blocks.now) }
{
    match found {
        Ok(place) => is_within(block.1, blocks[place].1),
        Err(_) => block.1 == 0,
    }
}

pub(crate) fn bits_at(blocks: &[(u32, u64)], number: u32) -> u64
    requires { Ascending blocks.now }
    ensures { BitsAt blocks.now number result }
{
    match find(blocks, number) {
        Ok(place) => blocks[place].1,
        Err(_) => 0,
    }
}

// Whether the block with a number stands at a place.
fn stands_at(blocks: &[(u32, u64)], place: usize, number: u32) -> bool
    ensures { IsTrue result → StandsAt blocks.now number place }
{
    if place >= blocks.len() {
        return false;
    }
    number == blocks[place].0
}

// Whether a block stands at a place, with all bits of another one.
fn has_block(blocks: &[(u32, u64)], place: usize, block: (u32, u64)) -> bool
    ensures { IsTrue result → (u : Element') → In u (block_words block)
        → In u (flat_map block_words blocks.now) }
{
    if !stands_at(blocks, place, block.0) {
        return false;
    }
    is_within(block.1, blocks[place].1)
}

/// The bits of the block with a number, where it stands at a place, and none elsewhere.
pub fn bits_there(blocks: &[(u32, u64)], place: usize, number: u32) -> u64 {
    if !stands_at(blocks, place, number) {
        return 0;
    }
    blocks[place].1
}

/// The first place from one on where a block doesn't stand before the one with this number; from
/// the front, where the place is past it.
pub fn place_from(blocks: &[(u32, u64)], place: usize, number: u32) -> usize {
    let mut at = place;
    if at >= blocks.len() || blocks[at].0 > number {
        at = 0;
    }
    'passing: while at < blocks.len() && blocks[at].0 < number {
        at += 1;
    }
    at
}

/// Whether all words of blocks are among those of others. Where the others don't ascend, it may say
/// no though they are.
pub fn are_within(blocks: &[(u32, u64)], others: &[(u32, u64)]) -> bool
    ensures { IsTrue result → (u : Element') → In u (flat_map block_words blocks.now)
        → In u (flat_map block_words others.now) }
{
    let mut place = 0;
    for block in blocks {
        place = place_from(others, place, block.0);
        if !has_block(others, place, *block) {
            return false;
        }
    }
    true
}

// The same as `find`, which looks at a place and at the next one first: blocks mostly come in their
// order.
fn find_near(blocks: &[(u32, u64)], number: u32, near: usize) -> Result<usize, usize>
    requires { Ascending blocks.now }
    ensures { Finds blocks.now number result }
{
    if stands_at(blocks, near, number) {
        return Ok(near);
    }
    if near >= blocks.len() {
        return find(blocks, number);
    }
    if stands_at(blocks, near + 1, number) {
        return Ok(near + 1);
    }
    find(blocks, number)
}

// The place of the block with a number, or the place where it would go.
fn find(blocks: &[(u32, u64)], number: u32) -> Result<usize, usize>
    requires { Ascending blocks.now }
    ensures { Finds blocks.now number result }
{
    let place = place_of(blocks, number);
    if place == blocks.len() {
        return Err(place);
    }
    if blocks[place].0 == number {
        return Ok(place);
    }
    Err(place)
}

// The place of the first block that doesn't stand before the one with this number.
fn place_of(blocks: &[(u32, u64)], number: u32) -> usize
    requires { Ascending blocks.now }
    ensures { IsPlace blocks.now number result result }
{
    let mut low = 0;
    let mut high = blocks.len();
    'halving: while low < high {
        let middle = low + (high - low) / 2;
        if blocks[middle].0 < number {
            low = middle + 1;
        } else {
            high = middle;
        }
    }
    low
}
