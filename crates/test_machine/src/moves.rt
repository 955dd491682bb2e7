//! Moves that are meant at once, and the steps that do them.

ghost use Rattle.std.specs.Prelude.{◌<◌};

use parallel_move::{Move, Spot, order};
use std::alloc::AllocError;
use std::process::Abort;

// The place of a spot among the words of a test: 40 registers, 31 slots and the scratch spot.
fn place(spot: Spot) -> usize
    ensures { result < 72 }
{
    match spot {
        Spot::Reg(r) => (r % 40) as usize,
        Spot::Slot(k) => 40 + (k % 31) as usize,
        Spot::Scratch => 71,
    }
}

// The words 0, 1, 2 and so on, one at each place.
fn start() -> [usize; 72] {
    let mut words = [0; 72];
    for i in 0..72 {
        words[i] = i;
    }
    words
}

// The steps, done one after another, leave what the moves do at once, but for the scratch spot; and
// there are so many.
fn shows(rt: &impl Abort, moves: &[Move], steps: &[Move], count: usize) {
    assert_eq!(rt; steps.len(), count);
    let mut words = start();
    for step in steps {
        words[place(step.to)] = words[place(step.from)];
    }
    let mut wanted = start();
    for step in moves {
        wanted[place(step.to)] = place(step.from);
    }
    wanted[71] = words[71];
    assert_eq!(rt; words.as_slice(), wanted.as_slice());
}

#[test]
fn rows(rt: HostRuntime) -> Result<(), AllocError> {
    let alloc = rt.alloc();
    let exchange = [
        Move {
            to: Spot::Reg(8),
            from: Spot::Reg(9),
        },
        Move {
            to: Spot::Reg(9),
            from: Spot::Reg(8),
        },
    ];
    shows(&rt, &exchange, order(alloc, &exchange)?.as_slice(), 3);
    let with_slot = [
        Move {
            to: Spot::Slot(0),
            from: Spot::Reg(8),
        },
        Move {
            to: Spot::Reg(8),
            from: Spot::Slot(0),
        },
    ];
    shows(&rt, &with_slot, order(alloc, &with_slot)?.as_slice(), 3);
    let itself = [Move {
        to: Spot::Reg(8),
        from: Spot::Reg(8),
    }];
    shows(&rt, &itself, order(alloc, &itself)?.as_slice(), 0);
    shows(&rt, &[], order(alloc, &[])?.as_slice(), 0);
    Ok(())
}

#[test]
fn chain_through_slots(rt: HostRuntime) -> Result<(), AllocError> {
    let moves = [
        Move {
            to: Spot::Slot(1),
            from: Spot::Reg(8),
        },
        Move {
            to: Spot::Slot(2),
            from: Spot::Slot(1),
        },
        Move {
            to: Spot::Reg(9),
            from: Spot::Slot(2),
        },
        Move {
            to: Spot::Slot(3),
            from: Spot::Slot(2),
        },
        Move {
            to: Spot::Reg(10),
            from: Spot::Reg(9),
        },
    ];
    shows(&rt, &moves, order(rt.alloc(), &moves)?.as_slice(), 5);
    Ok(())
}

#[test]
fn ring_of_registers(rt: HostRuntime) -> Result<(), AllocError> {
    let moves = [
        Move {
            to: Spot::Reg(8),
            from: Spot::Reg(9),
        },
        Move {
            to: Spot::Reg(9),
            from: Spot::Reg(10),
        },
        Move {
            to: Spot::Reg(10),
            from: Spot::Reg(11),
        },
        Move {
            to: Spot::Reg(11),
            from: Spot::Reg(12),
        },
        Move {
            to: Spot::Reg(12),
            from: Spot::Reg(13),
        },
        Move {
            to: Spot::Reg(13),
            from: Spot::Reg(14),
        },
        Move {
            to: Spot::Reg(14),
            from: Spot::Reg(15),
        },
        Move {
            to: Spot::Reg(15),
            from: Spot::Reg(16),
        },
        Move {
            to: Spot::Reg(16),
            from: Spot::Reg(17),
        },
        Move {
            to: Spot::Reg(17),
            from: Spot::Reg(18),
        },
        Move {
            to: Spot::Reg(18),
            from: Spot::Reg(19),
        },
        Move {
            to: Spot::Reg(19),
            from: Spot::Reg(20),
        },
        Move {
            to: Spot::Reg(20),
            from: Spot::Reg(21),
        },
        Move {
            to: Spot::Reg(21),
            from: Spot::Reg(22),
        },
        Move {
            to: Spot::Reg(22),
            from: Spot::Reg(23),
        },
        Move {
            to: Spot::Reg(23),
            from: Spot::Reg(24),
        },
        Move {
            to: Spot::Reg(24),
            from: Spot::Reg(25),
        },
        Move {
            to: Spot::Reg(25),
            from: Spot::Reg(26),
        },
        Move {
            to: Spot::Reg(26),
            from: Spot::Reg(27),
        },
        Move {
            to: Spot::Reg(27),
            from: Spot::Reg(28),
        },
        Move {
            to: Spot::Reg(28),
            from: Spot::Reg(29),
        },
        Move {
            to: Spot::Reg(29),
            from: Spot::Reg(30),
        },
        Move {
            to: Spot::Reg(30),
            from: Spot::Reg(31),
        },
        Move {
            to: Spot::Reg(31),
            from: Spot::Reg(8),
        },
    ];
    shows(&rt, &moves, order(rt.alloc(), &moves)?.as_slice(), 25);
    Ok(())
}
