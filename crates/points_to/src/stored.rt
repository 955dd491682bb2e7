// The values that reach cells.

ghost use Rattle.std.specs.Prelude.{◌≡◌, ℕ, ◌<◌, ◌≤◌, ◌++◌, [], ◌∷◌, length, false, IsTrue, OnOk, IfOk};
ghost use Rattle.std.specs.List.{flat_map};
ghost use Rattle.points_to.specs.Bits.{block_numbers};
ghost use Rattle.points_to.specs.Held.{In};
ghost use Rattle.points_to.specs.Rows.{numbers_in, GainsMembers};
ghost use Rattle.points_to.specs.Stored.{sets_at, stored_at, cell_stored, PutsAtSite};

use crate::bits::{Bits, Block, are_within, with_bit};
use flow_system::fact::Element;
use seq::Seq;
use std::alloc::{AllocError, Global};

/// For each site the numbers of the inclusions whose values reach its cells.
#[derive(Drop)]
pub struct Stored {
    at: Vec<Bits>,
}

impl Stored {
    /// No value reaches a cell.
    pub fn new(alloc: Global) -> Stored
        ensures { (s : ℕ) → stored_at result s ≡ [] }
    {
        Stored {
            at: Vec::new(alloc),
        }
    }

    /// The numbers at a site, in blocks.
    pub fn at(&self, site: u32) -> &[(u32, u64)]
        ensures { flat_map block_numbers result.now ≡ stored_at self.now site }
    {
        blocks_at(self.at.as_slice(), site)
    }

    /// Whether a number is at a site.
    pub fn has(&self, site: u32, n: u32) -> bool
        ensures { IsTrue result → In n (stored_at self.now site) }
    {
        match self.at.get(site as usize) {
            Some(numbers) => numbers.has(n as u64),
            None => false,
        }
    }

    /// Past the sites that values reach. More than can be numbered are want of memory.
    pub fn sites(&self) -> Result<u32, AllocError>
        ensures { IfOk result (λ n. (m : ℕ) → n ≤ m → stored_at self.now m ≡ []) }
    {
        if self.at.len() > u32::MAX as usize {
            return Err(AllocError);
        }
        Ok(self.at.len() as u32)
    }

    /// Puts a number at a site, and says whether it may be new. Where it is not, nothing changes.
    pub fn add(&mut self, alloc: Global, site: u32, n: u32) -> Result<bool, AllocError>
        ensures stores { OnOk result (PutsAtSite (stored_at self.old) (stored_at self.new) site n) }
        ensures still { IfOk result (λ added. added ≡ false → self.new ≡ self.old) }
    {
        if (site as usize) < self.at.len() {
            return add_there(&mut self.at, site, n);
        }
        grow(alloc, &mut self.at, site)?;
        add_there(&mut self.at, site, n)?;
        Ok(true)
    }

    /// Puts the numbers at a cell into a set.
    pub fn put_met(&self, cell: Element, met: &mut Bits) -> Result<(), AllocError>
        ensures { OnOk result (GainsMembers (numbers_in met.old) (numbers_in met.new)
            (cell_stored self.now cell)) }
    {
        match cell {
            Element::Cell(s) => put_all(self.at(s), met),
            Element::Tag(_) => Ok(()),
            Element::Number => Ok(()),
        }
    }
}

/// The numbers in the set of a site, in blocks.
pub fn blocks_at(sets: &[Bits], site: u32) -> &[(u32, u64)]
    ensures { flat_map block_numbers result.now ≡ sets_at sets.now site }
{
    match sets.get(site as usize) {
        Some(numbers) => numbers.blocks.as_slice(),
        None => &[],
    }
}

/// Puts the numbers of blocks into a set. Mostly they are there already.
pub fn put_all(blocks: &[(u32, u64)], met: &mut Bits) -> Result<(), AllocError>
    ensures { OnOk result (GainsMembers (numbers_in met.old) (numbers_in met.new)
        (flat_map block_numbers blocks.now)) }
{
    if are_within(blocks, met.blocks.as_slice()) {
        return Ok(());
    }
    met.add_all(blocks, 0)?;
    Ok(())
}

fn list_block(block: (u32, u64), out: &mut Seq<u32>) -> Result<(), AllocError>
    ensures { OnOk result (out.new ≡ out.old ++ block_numbers block) }
{
    let mut left = Block::new(block.0, block.1);
    'numbers: while let Some(n) = left.next() {
        if n > u32::MAX as u64 {
            return Err(AllocError);
        }
        out.push(n as u32)?;
    }
    Ok(())
}

/// Puts the numbers of blocks, one by one, at the end of a list. Where one is too large, that is
/// want of memory.
pub fn list_numbers(blocks: &[(u32, u64)], out: &mut Seq<u32>) -> Result<(), AllocError>
    ensures { OnOk result (out.new ≡ out.old ++ flat_map block_numbers blocks.now) }
{
    for block in blocks {
        list_block(*block, out)?;
    }
    Ok(())
}

/// The block of one number alone.
pub fn number_block(n: u32) -> (u32, u64)
    ensures { block_numbers result ≡ n ∷ [] }
{
    (n / 64, with_bit(0, n % 64))
}

// Makes empty sets up to the one with this number.
fn grow(alloc: Global, sets: &mut Vec<Bits>, n: u32) -> Result<(), AllocError>
    ensures there { OnOk result (n < length sets.new.items) }
    ensures same { OnOk result (sets_at sets.new.items ≡ sets_at sets.old.items) }
{
    'growing: while sets.len() <= n as usize {
        sets.push(Bits::new(alloc))?;
    }
    Ok(())
}

// Puts a number into the set of a site, which is there.
fn add_there(sets: &mut Vec<Bits>, site: u32, n: u32) -> Result<bool, AllocError>
    requires { site < length sets.old.items }
    ensures stores { OnOk result (PutsAtSite (sets_at sets.old.items) (sets_at sets.new.items) site n) }
    ensures still { IfOk result (λ added. added ≡ false → sets.new ≡ sets.old) }
{
    sets[site as usize].add_new(number_block(n))
}
