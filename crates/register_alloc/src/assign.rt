// Places for the variables of a program: registers for all procedures.

ghost use Rattle.std.specs.Prelude.{◌≡◌, ◌⊎◌, ◌↔◌, ◌≤◌, ◌<◌, ◌+◌, ◌++◌, ◌∷◌, [], ℕ, List, true, false, length, map, IfOk, OnOk, Some, slice_get, slice_index_or};
ghost use Rattle.std.specs.Int.{bit_at};
ghost use Rattle.parallel_move.specs.declared.Spot.TheVariants.{Reg};
ghost use Rattle.low_code.specs.Tree.{procedure_of, program_of};
ghost use Rattle.low_code.specs.Formed.{Formed};
ghost use Rattle.register_alloc.specs.Gathered.{HaveFewResults, HaveFewParameters, IsGathered, AddsProcedure, IsOwnMask, procs_of, AreSpots, PlacesVariable, IsSavedOf, SavesMatchCalls, AddsSavesOfCall, calls_of_walks, longest_at, frames_of};
ghost use Rattle.register_alloc.specs.Fits.{Fits, UsesRegisters, IsPlace};
ghost use Rattle.register_alloc.specs.Results.{result_mask};
ghost use Rattle.register_alloc.specs.declared.registers.CallSite.{CallSite};

use crate::Places;
use crate::registers::{CallSite, Given, Registers, sum, walked};
use crate::scan::number;
use crate::written::{least, mask_at};
use low_code::{Low, LowProc};
use parallel_move::Spot;
use seq::Seq;
use std::alloc::{AllocError, Global};

/// What is gathered of the procedures of a program: the walk of each, the places of all variables,
/// the registers of each procedure's own variables and results as a mask, and the procedures that
/// it calls.
#[derive(Drop)]
pub struct Gathered {
    pub walks: Vec<Registers>,
    pub given: Vec<Given>,
    pub own: Vec<u32>,
    pub calls: Vec<Seq<u32>>,
}

/// The registers x10 and up in which so many results are given, at most 13, as a mask.
fn result_mask(results: u32) -> u32
    ensures { result ≡ result_mask results }
{
    let few = results.min(13);
    ((1u32 << few) - 1) << 10
}

/// A mask of one register, or of none for a slot.
#[tactic(auto, using(crate::proofs::Tables::spot_mask, crate::proofs::Tables::slot_mask, crate::proofs::Tables::scratch_mask))]
fn mask_of_spot(spot: Spot) -> u32
    ensures { (r : ℕ) → IsPlace spot → (bit_at result r ≡ 1) ↔ (spot ≡ Reg r) }
{
    match spot {
        Spot::Reg(register) => one_register(register),
        Spot::Slot(_) => 0,
        Spot::Scratch => 0,
    }
}

#[tactic(auto, using(crate::proofs::Tables::one_bit))]
fn one_register(register: u8) -> u32
    ensures { register < 32 → (r : ℕ) → (bit_at result r ≡ 1) ↔ (register ≡ r) }
{
    if register < 32 { 1u32 << register } else { 0 }
}

/// A mask with the registers of these variables.
fn own_mask(mask: u32, given: &[Given]) -> u32
    ensures { IsOwnMask mask given.now result }
{
    let mut all = mask;
    for place in given {
        all |= mask_of_spot(place.spot);
    }
    all
}

/// The procedures that are called.
fn callees(alloc: Global, calls: &[CallSite]) -> Result<Seq<u32>, AllocError>
    ensures { IfOk result (λ gs. gs ≡ procs_of calls.now) }
{
    let mut procs = Seq::new(alloc);
    for call in calls {
        procs.push(call.proc)?;
    }
    Ok(procs)
}

impl Gathered {
    fn new(alloc: Global) -> Gathered
        ensures { IsGathered result [] }
    {
        Gathered {
            walks: Vec::new(alloc),
            given: Vec::new(alloc),
            own: Vec::new(alloc),
            calls: Vec::new(alloc),
        }
    }

    /// Adds a procedure. `AllocError` where memory is wanting, or where numbers of 32 bits don't
    /// reach.
    fn add(&mut self, alloc: Global, proc: &LowProc) -> Result<(), AllocError>
        ensures { OnOk result (AddsProcedure (procedure_of proc.now) self.old self.new) }
    {
        let walk = walked(alloc, proc)?;
        let called = callees(alloc, walk.calls.as_slice())?;
        let own = own_mask(result_mask(proc.results), walk.given.as_slice());
        self.given.extend_from_slice(walk.given.as_slice())?;
        self.own.push(own)?;
        self.calls.push(called)?;
        self.walks.push(walk)?;
        Ok(())
    }
}

fn gather(alloc: Global, procs: &[LowProc]) -> Result<Gathered, AllocError>
    ensures { IfOk result (λ g. IsGathered g (map procedure_of procs.now)) }
{
    let mut all = Gathered::new(alloc);
    for proc in procs {
        all.add(alloc, proc)?;
    }
    Ok(all)
}

/// Gives a variable its place.
fn put(spots: &mut Vec<Spot>, variable: u32, spot: Spot) -> Result<(), AllocError>
    ensures { OnOk result (PlacesVariable spots.old.items variable spot spots.new.items) }
{
    let at = variable as usize;
    if spots.len() <= at {
        spots.resize(at + 1, Spot::Slot(0))?;
    }
    spots[at] = spot;
    Ok(())
}

/// The place of each variable, by its number.
fn spots(alloc: Global, given: &[Given]) -> Result<Vec<Spot>, AllocError>
    ensures { IfOk result (λ spots. AreSpots given.now spots.items) }
{
    let mut spots = Vec::new(alloc);
    for place in given {
        put(&mut spots, place.variable, place.spot)?;
    }
    Ok(spots)
}

fn is_in(mask: u32, register: u8) -> bool
    ensures { register < 32 → (result ≡ true) ↔ (bit_at mask register ≡ 1) }
{
    if register < 32 {
        (mask >> register) % 2 == 1
    } else {
        false
    }
}

/// Adds a register where it is in a mask.
fn save_one(saved: &mut Seq<u8>, register: u8, mask: u32) -> Result<(), AllocError>
    ensures there { OnOk result (register < 32 → bit_at mask register ≡ 1 → saved.new ≡ saved.old
        ++ (register ∷ [])) }
    ensures not { OnOk result (register < 32 → (bit_at mask register ≡ 1 → ⊥) → saved.new
        ≡ saved.old) }
{
    if is_in(mask, register) {
        saved.push(register)?;
    }
    Ok(())
}

/// Those of these registers that are in a mask.
fn saved(alloc: Global, live: &[u8], mask: u32) -> Result<Seq<u8>, AllocError>
    ensures { IfOk result (IsSavedOf live.now mask) }
{
    let mut saved = Seq::new(alloc);
    for register in live {
        save_one(&mut saved, *register, mask)?;
    }
    Ok(saved)
}

/// Adds empty lists until there is one for the site.
fn reach(alloc: Global, saves: &mut Vec<Seq<u8>>, site: u32) -> Result<(), AllocError>
    ensures reached { OnOk result (site < length saves.new.items) }
    ensures more { OnOk result ((s : ℕ) (rs : List ℕ) → slice_get saves.old.items s ≡ Some rs
        → slice_get saves.new.items s ≡ Some rs) }
    ensures empty { OnOk result ((s : ℕ) (rs : List ℕ) → slice_get saves.new.items s ≡ Some rs
        → (slice_get saves.old.items s ≡ Some rs) ⊎ (rs ≡ [])) }
{
    let at = site as usize;
    while saves.len() <= at {
        saves.push(Seq::new(alloc))?;
    }
    Ok(())
}

/// Notes the registers that are saved at a call.
fn save(
    alloc: Global,
    saves: &mut Vec<Seq<u8>>,
    call: &CallSite,
    masks: &[u32],
) -> Result<(), AllocError>
    ensures { OnOk result (AddsSavesOfCall masks.now call.now saves.old.items saves.new.items) }
{
    reach(alloc, saves, call.site)?;
    let registers = saved(alloc, call.live.as_slice(), mask_at(masks, call.proc))?;
    saves[call.site as usize] = registers;
    Ok(())
}

/// Notes those of each of these calls.
fn save_all(
    alloc: Global,
    saves: &mut Vec<Seq<u8>>,
    calls: &[CallSite],
    masks: &[u32],
) -> Result<(), AllocError>
    ensures { OnOk result ((done : List CallSite) → SavesMatchCalls masks.now done saves.old.items
        → SavesMatchCalls masks.now (done ++ calls.now) saves.new.items) }
{
    for call in calls {
        save(alloc, saves, call, masks)?;
    }
    Ok(())
}

/// The registers that are saved at each site.
fn saves(alloc: Global, walks: &[Registers], masks: &[u32]) -> Result<Vec<Seq<u8>>, AllocError>
    ensures { IfOk result (λ saves. SavesMatchCalls masks.now (calls_of_walks walks.now) saves.items) }
{
    let mut saves = Vec::new(alloc);
    for walk in walks {
        save_all(alloc, &mut saves, walk.calls.as_slice(), masks)?;
    }
    Ok(saves)
}

/// The length of the list of registers that are saved at a site.
fn many_saved(saves: &[Seq<u8>], site: u32) -> usize
    ensures { result ≡ length (slice_index_or saves.now site []) }
{
    match saves.get(site as usize) {
        Some(saved) => saved.len(),
        None => 0,
    }
}

/// The length of the longest of the lists of registers that are saved at these calls.
fn most_saved(saves: &[Seq<u8>], calls: &[CallSite]) -> usize
    ensures { result ≡ longest_at saves.now calls.now }
{
    let mut most = 0;
    for call in calls {
        most = most.max(many_saved(saves, call.site));
    }
    most
}

/// The words of a frame: one for the return address, its slots, and so many saved registers.
fn frame(slots: u32, saved: usize) -> Result<u32, AllocError>
    ensures { IfOk result (λ words. words ≡ 1 + slots + saved) }
{
    let own = number(saved)?;
    let both = sum(slots, own)?;
    sum(1, both)
}

/// The words of each procedure's frame.
fn frames(alloc: Global, walks: &[Registers], saves: &[Seq<u8>]) -> Result<Vec<u32>, AllocError>
    ensures { IfOk result (λ frames. frames.items ≡ frames_of saves.now walks.now) }
{
    let mut frames = Vec::new(alloc);
    for walk in walks {
        let words = frame(walk.slots, most_saved(saves, walk.calls.as_slice()))?;
        frames.push(words)?;
    }
    Ok(frames)
}

/// Places for the variables of a program. They fit a program that is formed and whose procedures
/// take at most 16 words and give at most 13 words each, and use every register before a slot.
/// `AllocError` where memory is wanting.
pub fn allocate(alloc: Global, low: &Low) -> Result<Places, AllocError>
    ensures fits { IfOk result (λ a. Formed (program_of low.now)
        → HaveFewParameters (program_of low.now).procs → HaveFewResults (program_of low.now).procs
        → Fits (program_of low.now) a) }
    ensures uses { IfOk result (λ a. Formed (program_of low.now)
        → HaveFewParameters (program_of low.now).procs → HaveFewResults (program_of low.now).procs
        → UsesRegisters (program_of low.now) a) }
{
    let all = gather(alloc, low.procs.as_slice())?;
    let places = spots(alloc, all.given.as_slice())?;
    let masks = least(all.own, all.calls.as_slice());
    let kept = saves(alloc, all.walks.as_slice(), masks.as_slice())?;
    let words = frames(alloc, all.walks.as_slice(), kept.as_slice())?;
    Ok(Places {
        spots: places,
        masks,
        saves: kept,
        frames: words,
    })
}
