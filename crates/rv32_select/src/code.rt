// Pieces of code: numbers, spots, moves and operands.
#![tactic(auto, using(crate::proofs::Plain::plain_append), unfolding(crate::specs::Emit::plain))]

ghost use Rattle.std.specs.Prelude.{◌≡◌, ◌++◌, [], ◌∷◌, ◌<◌, OnOk, IfOk, true};
ghost use Rattle.rv32_select.specs.Emit.{plain, is_short as short_number, upper as upper_part, load_constant as number_code, add_to as add_code, copy as copy_code, slot_bytes as bytes_of_slot, slot_base as base_of_slot, reach as reach_code, load_slot as load_slot_code, store_slot as store_slot_code, from_spot as from_spot_code, slot_from as slot_from_code, move_to as move_code, moves_code, target as target_of, keep as keep_code, held as held_in, hold as hold_code, number_into as number_into_code};
ghost use Rattle.rv32_select.specs.Ranges.{in_range, IsSource};
ghost use Rattle.parallel_move.specs.Moves.{AllMoveEnds};
ghost use Rattle.rv32_items.specs.declared.Item.{Item};
ghost use Rattle.rv32_isa.specs.declared.instr.Instr.{Instr};
ghost use Rattle.rv32_machine.specs.Arithmetic.{negated as negated_number};
ghost use Rattle.rv32_isa.specs.Bits.{lower as lower_part};

use crate::source::Source;
use parallel_move::{Move, Spot};
use rv32_isa::{Imm12, Imm20, ImmKind, Instr, LoadKind, OpKind, Reg, StoreKind};
use rv32_items::Item;
use seq::Seq;
use std::alloc::{AllocError, Global};
use std::marker::Model;

/// Whether a word is a signed number of 12 bits.
pub(crate) fn is_short(n: u32) -> bool
    ensures { result ≡ short_number n }
{
    n < 2048 || n > 4294965247
}

/// The signed number of the lower 12 bits.
pub(crate) fn lower(n: u64) -> Imm12
    ensures { result ≡ lower_part n }
{
    let low = (n % 4096) as i32;
    if low < 2048 {
        Imm12(low)
    } else {
        Imm12(low - 4096)
    }
}

/// What the upper 20 bits are beside that number.
fn upper(n: u64) -> Imm20
    requires { n < 18446744073709549568 }
    ensures { result ≡ upper_part n }
{
    Imm20(((n + 2048) / 4096 % 1048576) as u32)
}

/// The pattern of the negative of a number.
pub(crate) fn negated(n: u32) -> u32
    ensures { result ≡ negated_number n }
{
    n.wrapping_neg()
}

pub(crate) fn add_immediate(to: Reg, from: Reg, n: Imm12) -> Instr
    ensures { result ≡ Instr.OpImm ImmKind.Addi to from n }
{
    Instr::OpImm(ImmKind::Addi, to, from, n)
}

/// How many bytes past x2 a slot stands: word 0 of a frame is the return address.
fn slot_bytes(k: u32) -> u64
    ensures { result ≡ bytes_of_slot k }
{
    4 * (1 + k as u64)
}

/// The register of a result for a place, `r` where the place is none.
pub(crate) fn target(r: Reg, place: Spot) -> Reg
    requires { in_range place ≡ true }
    ensures { result ≡ target_of r place }
{
    match place {
        Spot::Reg(q) => Reg(q),
        Spot::Slot(_) => r,
        Spot::Scratch => r,
    }
}

/// The register in which an operand is read, `r` where it isn't in one.
pub(crate) fn held(r: Reg, source: Source) -> Reg
    requires { IsSource source }
    ensures { result ≡ held_in r source }
{
    match source {
        Source::At(Spot::Reg(q)) => Reg(q),
        Source::At(Spot::Slot(_)) => r,
        Source::At(Spot::Scratch) => Reg(5),
        Source::Number(n) => { if n == 0 { Reg(0) } else { r } }
    }
}

/// Items that grow at their end.
#[derive(Drop)]
pub(crate) struct Code {
    items: Vec<Item>,
}

impl Model for Code {
    ghost use Rattle.std.specs.Prelude.{List};
    ghost use Rattle.rv32_items.specs.declared.Item.{Item};

    ghost Value = { List Item };

    ghost view = { λ c. c.items.items };
}

impl Code {
    pub(crate) fn new(alloc: Global) -> Code
        ensures { result ≡ [] }
    {
        Code {
            items: Vec::new(alloc),
        }
    }

    pub(crate) fn into_items(self) -> Seq<Item>
        ensures { result ≡ self }
    {
        Seq::from_vec(self.items)
    }

    pub(crate) fn put(&mut self, item: Item) -> Result<(), AllocError>
        ensures { OnOk result (self.new ≡ self.old ++ item ∷ []) }
    {
        // The proof of the push knows what a plain item holds only where its type is named.
        if let Item::Plain(instr) = item {
            return self.instr(instr);
        }
        self.items.push(item)?;
        Ok(())
    }

    pub(crate) fn instr(&mut self, instr: Instr) -> Result<(), AllocError>
        ensures { OnOk result (self.new ≡ self.old ++ plain (instr ∷ [])) }
    {
        self.items.push(Item::Plain(instr))?;
        Ok(())
    }

    /// A register gets a number.
    pub(crate) fn load_constant(&mut self, r: Reg, n: u32) -> Result<(), AllocError>
        ensures { OnOk result (self.new ≡ self.old ++ plain (number_code r n)) }
    {
        if is_short(n) {
            return self.instr(add_immediate(r, Reg(0), lower(n as u64)));
        }
        self.instr(Instr::Lui(r, upper(n as u64)))?;
        if n % 4096 != 0 {
            self.instr(add_immediate(r, r, lower(n as u64)))?;
        }
        Ok(())
    }

    /// A register gets the sum of another one and a number.
    pub(crate) fn add_to(&mut self, r: Reg, q: Reg, n: u32) -> Result<(), AllocError>
        ensures { OnOk result (self.new ≡ self.old ++ plain (add_code r q n)) }
    {
        if is_short(n) {
            return self.instr(add_immediate(r, q, lower(n as u64)));
        }
        self.load_constant(Reg(5), n)?;
        self.instr(Instr::Op(OpKind::Add, r, q, Reg(5)))
    }

    /// A register gets what another one has.
    pub(crate) fn copy(&mut self, r: Reg, q: Reg) -> Result<(), AllocError>
        ensures { OnOk result (self.new ≡ self.old ++ plain (copy_code r q)) }
    {
        if r == q {
            return Ok(());
        }
        self.instr(add_immediate(r, q, Imm12(0)))
    }

    /// Gives the register from which a slot is reached: x2, or x7, which gets a far slot's address.
    fn reach(&mut self, k: u32) -> Result<Reg, AllocError>
        ensures { IfOk result (λ base. (self.new ≡ self.old ++ plain (reach_code k))
            × (base ≡ base_of_slot k)) }
    {
        if slot_bytes(k) < 2048 {
            return Ok(Reg(2));
        }
        self.instr(Instr::Lui(Reg(7), upper(slot_bytes(k))))?;
        self.instr(Instr::Op(OpKind::Add, Reg(7), Reg(7), Reg(2)))?;
        Ok(Reg(7))
    }

    pub(crate) fn load_slot(&mut self, r: Reg, k: u32) -> Result<(), AllocError>
        ensures { OnOk result (self.new ≡ self.old ++ plain (load_slot_code r k)) }
    {
        let base = self.reach(k)?;
        self.instr(Instr::Load(LoadKind::Lw, r, base, lower(slot_bytes(k))))
    }

    pub(crate) fn store_slot(&mut self, k: u32, r: Reg) -> Result<(), AllocError>
        ensures { OnOk result (self.new ≡ self.old ++ plain (store_slot_code k r)) }
    {
        let base = self.reach(k)?;
        self.instr(Instr::Store(StoreKind::Sw, r, base, lower(slot_bytes(k))))
    }

    /// A register gets what stands at a spot.
    fn from_spot(&mut self, r: Reg, from: Spot) -> Result<(), AllocError>
        requires { in_range from ≡ true }
        ensures { OnOk result (self.new ≡ self.old ++ plain (from_spot_code r from)) }
    {
        match from {
            Spot::Reg(q) => self.copy(r, Reg(q)),
            Spot::Slot(k) => self.load_slot(r, k),
            Spot::Scratch => self.copy(r, Reg(5)),
        }
    }

    /// A slot gets what stands at a spot.
    fn slot_from(&mut self, k: u32, from: Spot) -> Result<(), AllocError>
        requires { in_range from ≡ true }
        ensures { OnOk result (self.new ≡ self.old ++ plain (slot_from_code k from)) }
    {
        match from {
            Spot::Reg(q) => self.store_slot(k, Reg(q)),
            Spot::Slot(j) => {
                if k == j {
                    return Ok(());
                }
                self.load_slot(Reg(6), j)?;
                self.store_slot(k, Reg(6))
            }
            Spot::Scratch => self.store_slot(k, Reg(5)),
        }
    }

    /// A spot gets what stands at another one.
    pub(crate) fn move_to(&mut self, to: Spot, from: Spot) -> Result<(), AllocError>
        requires { (in_range to ≡ true) × (in_range from ≡ true) }
        ensures { OnOk result (self.new ≡ self.old ++ plain (move_code to from)) }
    {
        match to {
            Spot::Reg(r) => self.from_spot(Reg(r), from),
            Spot::Slot(k) => self.slot_from(k, from),
            Spot::Scratch => self.from_spot(Reg(5), from),
        }
    }

    /// Moves, one after another.
    pub(crate) fn moves(&mut self, moves: &[Move]) -> Result<(), AllocError>
        requires { AllMoveEnds in_range moves.now }
        ensures { OnOk result (self.new ≡ self.old ++ plain (moves_code moves.now)) }
    {
        for m in moves {
            self.move_to(m.to, m.from)?;
        }
        Ok(())
    }

    /// A result that was computed in its register goes to its place.
    pub(crate) fn keep(&mut self, r: Reg, place: Spot) -> Result<(), AllocError>
        ensures { OnOk result (self.new ≡ self.old ++ plain (keep_code r place)) }
    {
        match place {
            Spot::Reg(_) => Ok(()),
            Spot::Slot(k) => self.store_slot(k, r),
            Spot::Scratch => Ok(()),
        }
    }

    /// An operand comes into the register in which it is read.
    pub(crate) fn hold(&mut self, r: Reg, source: Source) -> Result<(), AllocError>
        ensures { OnOk result (self.new ≡ self.old ++ plain (hold_code r source)) }
    {
        match source {
            Source::At(Spot::Reg(_)) => Ok(()),
            Source::At(Spot::Slot(k)) => self.load_slot(r, k),
            Source::At(Spot::Scratch) => Ok(()),
            Source::Number(n) => {
                if n == 0 {
                    return Ok(());
                }
                self.load_constant(r, n)
            }
        }
    }

    /// A number goes to a place.
    pub(crate) fn number_into(&mut self, place: Spot, n: u32) -> Result<(), AllocError>
        requires { in_range place ≡ true }
        ensures { OnOk result (self.new ≡ self.old ++ plain (number_into_code place n)) }
    {
        match place {
            Spot::Reg(q) => self.load_constant(Reg(q), n),
            Spot::Slot(k) => {
                self.hold(Reg(5), Source::Number(n))?;
                self.store_slot(k, held(Reg(5), Source::Number(n)))
            }
            Spot::Scratch => self.load_constant(Reg(5), n),
        }
    }
}
