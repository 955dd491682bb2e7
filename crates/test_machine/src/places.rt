//! Places of small programs of low code, worked by hand.

ghost use Rattle.std.specs.Prelude.{◌<◌, ◌≤◌, ◌-◌, length};
ghost use Rattle.low_code.specs.Tree.{program_of};
ghost use Rattle.test_machine.specs.Lows.{IsAsked};

use crate::lows::{arms, crowded, dead_target, two};
use low_code::Low;
use parallel_move::Spot;
use register_alloc::{Places, allocate};
use std::alloc::{AllocError, Global};
use std::process::Abort;

/// The variables from x0 on stand at these spots.
fn spots_are(rt: &impl Abort, places: &Places, wanted: &[Spot])
    requires few { length wanted.now ≤ 32 }
    requires there { length wanted.now ≤ length places.now.spots }
{
    for variable in 0..wanted.len() {
        let spot = places.place(variable as u32);
        assert_eq!(rt; spot, wanted[variable], "the place of {variable}");
    }
}

/// The registers that each procedure may change, as a mask, and the words of its frame.
fn procedures_are(rt: &impl Abort, places: &Places, wanted: &[(u32, u32)])
    requires few { length wanted.now ≤ 32 }
    requires masks { length wanted.now ≤ length places.now.masks }
    requires frames { length wanted.now ≤ length places.now.frames }
{
    for procedure in 0..wanted.len() {
        let (mask, words) = wanted[procedure];
        assert_eq!(rt;
            places.written(procedure as u32),
            mask,
            "what {procedure} changes"
        );
        assert_eq!(rt;
            places.frame_words(procedure as u32),
            words,
            "the frame of {procedure}"
        );
    }
}

/// What is allotted to a program: the spots of its variables, the registers saved at the site 0,
/// and of each procedure the registers that it may change and the words of its frame.
fn allots(
    rt: &impl Abort,
    alloc: Global,
    low: &Low,
    spots: &[Spot],
    saved: &[u8],
    procedures: &[(u32, u32)],
) -> Result<(), AllocError>
    requires some { 0 < length spots.now }
    requires few_spots { length spots.now ≤ 32 }
    requires few_procedures { length procedures.now ≤ 32 }
    requires asked { IsAsked (program_of low.now) (length spots.now - 1) (length procedures.now) }
{
    let places = allocate(alloc, low)?;
    spots_are(rt, &places, spots);
    assert_eq!(rt; places.saved(0), saved);
    procedures_are(rt, &places, procedures);
    Ok(())
}

/// x0 comes in x10. 7 is live across the call and given second, so it waits in x11; results come in
/// x10 and x12, and the one that nothing uses, as x11 is taken, in x8, the first that is free. The
/// called procedure changes x11, which is saved.
#[test]
fn a_call_saves_what_the_callee_changes(rt: HostRuntime) -> Result<(), AllocError> {
    let low = two(rt.alloc())?;
    let spots = [
        Spot::Reg(10),
        Spot::Reg(11),
        Spot::Reg(10),
        Spot::Reg(8),
        Spot::Reg(10),
        Spot::Reg(12),
    ];
    let procedures = [(0x1D00, 2), (0x1C00, 1)];
    allots(&rt, rt.alloc(), &low, &spots, &[11], &procedures)
}

/// Each of x8 to x31 has a variable, and the 25th that is live at once has a slot. They stand where
/// the tail call wants them as arguments, as long as there are registers from x10 on, and the next
/// two in x8 and x9.
#[test]
fn the_25th_of_those_live_at_once_has_a_slot(rt: HostRuntime) -> Result<(), AllocError> {
    let low = crowded(rt.alloc())?;
    let spots = [
        Spot::Reg(10),
        Spot::Reg(11),
        Spot::Reg(12),
        Spot::Reg(13),
        Spot::Reg(14),
        Spot::Reg(15),
        Spot::Reg(16),
        Spot::Reg(17),
        Spot::Reg(18),
        Spot::Reg(19),
        Spot::Reg(20),
        Spot::Reg(21),
        Spot::Reg(22),
        Spot::Reg(23),
        Spot::Reg(24),
        Spot::Reg(25),
        Spot::Reg(26),
        Spot::Reg(27),
        Spot::Reg(28),
        Spot::Reg(29),
        Spot::Reg(30),
        Spot::Reg(31),
        Spot::Reg(8),
        Spot::Reg(9),
        Spot::Slot(0),
    ];
    allots(&rt, rt.alloc(), &low, &spots, &[], &[(0xFFFFFF00, 2)])
}

/// x0 stays in x10 across the call, and is saved there; the dead target has no register of a live
/// one.
#[test]
fn a_dead_target_is_apart_from_live_ones(rt: HostRuntime) -> Result<(), AllocError> {
    let low = dead_target(rt.alloc())?;
    let spots = [Spot::Reg(10), Spot::Reg(8), Spot::Reg(11), Spot::Reg(10)];
    allots(&rt, rt.alloc(), &low, &spots, &[10], &[(0xD00, 2)])
}

/// x4 is dead, and x3 is live to the end of the join; in the other arm x1 is dead and x7 has its
/// register. The join's target has the register of x6, which the first end gives, and the sum
/// stands where the tail call wants it.
#[test]
fn arms_free_registers_for_each_other(rt: HostRuntime) -> Result<(), AllocError> {
    let low = arms(rt.alloc())?;
    let spots = [
        Spot::Reg(10),
        Spot::Reg(8),
        Spot::Reg(9),
        Spot::Reg(11),
        Spot::Reg(12),
        Spot::Reg(8),
        Spot::Reg(8),
        Spot::Reg(8),
        Spot::Reg(9),
        Spot::Reg(8),
        Spot::Reg(10),
    ];
    allots(&rt, rt.alloc(), &low, &spots, &[], &[(0x1F00, 1)])
}
