// The code of statements.
#![tactic(auto, using(crate::proofs::Plain::plain_append), unfolding(crate::specs::Emit::plain))]

ghost use Rattle.std.specs.Prelude.{◌≡◌, ◌++◌, [], ◌∷◌, ◌<◌, ◌*◌, ◌%◌, ◌+◌, ◌≤◌, length, OnOk, IfOk, true};
ghost use Rattle.rv32_select.specs.Emit.{plain, set_code, operation as operation_code, is_immediate as immediate_number, immediate as immediate_code, operands_held as held_code, operate_on as on_code, is_free as is_free_order, operate_in_order as in_order_code, prim_code, load_code, save_code, low_bits as low_bits_of, low_part as low_part_of, high_part as high_part_of, word_offset as offset_of_word, room_items, next_offset as offset_behind, go_on as go_on_code, cells_code, far_cells as far_cells_items, raise_items, cells_below as below_code, take_items, aside as aside_code, back as back_code, call_code, byte_given as byte_given_code, put_code, get_code, exit_with as exit_items, branch_items, compare_items, test_items, match_items};
ghost use Rattle.rv32_select.specs.Ranges.{in_range, AllInRange, IsSource};

use crate::code::{Code, add_immediate, held, is_short, lower, negated, target};
use crate::source::Source;
use low_code::PrimOp;
use parallel_move::Spot;
use rv32_isa::{Imm12, ImmKind, Instr, LoadKind, OpKind, Reg, StoreKind};
use rv32_items::{Cond, Item};
use std::alloc::AllocError;

/// Whether the operation has a form with this number on the right.
fn is_immediate(f: PrimOp, n: u32) -> bool
    ensures { result ≡ immediate_number f n }
{
    match f {
        PrimOp::Add => is_short(n),
        PrimOp::Sub => is_short(negated(n)),
        PrimOp::Mul => false,
        PrimOp::Quot => false,
        PrimOp::Rem => false,
        PrimOp::Eq => is_short(negated(n)),
        PrimOp::Lt => is_short(n),
    }
}

/// Whether the order of the operands is free.
fn is_free(f: PrimOp) -> bool
    ensures { result ≡ is_free_order f }
{
    match f {
        PrimOp::Add => true,
        PrimOp::Sub => false,
        PrimOp::Mul => true,
        PrimOp::Quot => false,
        PrimOp::Rem => false,
        PrimOp::Eq => true,
        PrimOp::Lt => false,
    }
}

/// The low bits of a cell's address that are in the offset of a word of it.
fn low_bits(k: u32, n: u32) -> u32
    ensures is { result ≡ low_bits_of k n }
    ensures below { result ≤ n }
    ensures fits { result + 4 * (k % 512) < 2048 }
{
    if n % 2048 + 4 * (k % 512) < 2048 {
        n % 2048
    } else {
        0
    }
}

/// Those of an operand.
fn low_part(k: u32, cell: Source) -> u32
    ensures is { result ≡ low_part_of k cell }
    ensures fits { result + 4 * (k % 512) < 2048 }
{
    match cell {
        Source::At(_) => 0,
        Source::Number(n) => low_bits(k, n),
    }
}

/// The address without them.
fn high_part(k: u32, cell: Source) -> Source
    requires { IsSource cell }
    ensures { (result ≡ high_part_of k cell) × IsSource result }
{
    match cell {
        Source::At(spot) => Source::At(spot),
        Source::Number(n) => Source::Number(n - low_bits(k, n)),
    }
}

/// The words that are spared, with one more where the rest of the address is made by one
/// instruction.
pub(crate) fn spared_by_offset(spared: u32, k: u32, cell: Source) -> u32 {
    match cell {
        Source::At(_) => spared,
        Source::Number(n) => {
            if low_bits(k, n) == 0 {
                spared
            } else if n % 4096 < 2048 {
                spared.saturating_add(1)
            } else {
                spared
            }
        }
    }
}

/// The offset of a word in its cell, of which there are no 512.
fn word_offset(k: u32, cell: Source) -> Imm12
    ensures { result ≡ offset_of_word k cell }
{
    Imm12((low_part(k, cell) + 4 * (k % 512)) as i32)
}

/// The offset of the next cell: 0 where x3 goes on to it.
fn next_offset(step: u32, offset: u32) -> u32
    requires { (step < 2048) × (offset < 2048) }
    ensures { (result ≡ offset_behind step offset) × (result < 2048) }
{
    if offset + step < 2048 {
        offset + step
    } else {
        0
    }
}

impl Code {
    pub(crate) fn set(&mut self, to: Spot, source: Source) -> Result<(), AllocError>
        requires { (in_range to ≡ true) × IsSource source }
        ensures { OnOk result (self.new ≡ self.old ++ plain (set_code to source)) }
    {
        match source {
            Source::At(s) => self.move_to(to, s),
            Source::Number(n) => self.number_into(to, n),
        }
    }

    /// An operation on two registers.
    fn operation(&mut self, f: PrimOp, t: Reg, q: Reg, r: Reg) -> Result<(), AllocError>
        ensures { OnOk result (self.new ≡ self.old ++ plain (operation_code f t q r)) }
    {
        match f {
            PrimOp::Add => self.instr(Instr::Op(OpKind::Add, t, q, r)),
            PrimOp::Sub => self.instr(Instr::Op(OpKind::Sub, t, q, r)),
            PrimOp::Mul => self.instr(Instr::Op(OpKind::Mul, t, q, r)),
            PrimOp::Quot => self.instr(Instr::Op(OpKind::Div, t, q, r)),
            PrimOp::Rem => self.instr(Instr::Op(OpKind::Rem, t, q, r)),
            PrimOp::Eq => {
                self.instr(Instr::Op(OpKind::Sub, t, q, r))?;
                self.instr(Instr::OpImm(ImmKind::Sltiu, t, t, Imm12(1)))
            }
            PrimOp::Lt => self.instr(Instr::Op(OpKind::Slt, t, q, r)),
        }
    }

    /// An operation on a register and a number that has such a form.
    fn immediate(&mut self, f: PrimOp, t: Reg, q: Reg, n: u32) -> Result<(), AllocError>
        ensures { OnOk result (self.new ≡ self.old ++ plain (immediate_code f t q n)) }
    {
        match f {
            PrimOp::Add => self.instr(add_immediate(t, q, lower(n as u64))),
            PrimOp::Sub => self.instr(add_immediate(t, q, lower(negated(n) as u64))),
            PrimOp::Mul | PrimOp::Quot | PrimOp::Rem => Ok(()),
            PrimOp::Eq => {
                if n == 0 {
                    return self.instr(Instr::OpImm(ImmKind::Sltiu, t, q, Imm12(1)));
                }
                self.instr(add_immediate(t, q, lower(negated(n) as u64)))?;
                self.instr(Instr::OpImm(ImmKind::Sltiu, t, t, Imm12(1)))
            }
            PrimOp::Lt => self.instr(Instr::OpImm(ImmKind::Slti, t, q, lower(n as u64))),
        }
    }

    fn operands_held(
        &mut self,
        f: PrimOp,
        t: Reg,
        left: Source,
        right: Source,
    ) -> Result<(), AllocError>
        requires { IsSource left × IsSource right }
        ensures { OnOk result (self.new ≡ self.old ++ plain (held_code f t left right)) }
    {
        self.hold(Reg(5), left)?;
        self.hold(Reg(6), right)?;
        self.operation(f, t, held(Reg(5), left), held(Reg(6), right))
    }

    fn operate_on(
        &mut self,
        f: PrimOp,
        t: Reg,
        left: Source,
        right: Source,
    ) -> Result<(), AllocError>
        requires { IsSource left × IsSource right }
        ensures { OnOk result (self.new ≡ self.old ++ plain (on_code f t left right)) }
    {
        match right {
            Source::At(_) => self.operands_held(f, t, left, right),
            Source::Number(n) => {
                if is_immediate(f, n) {
                    self.hold(Reg(5), left)?;
                    return self.immediate(f, t, held(Reg(5), left), n);
                }
                self.operands_held(f, t, left, right)
            }
        }
    }

    /// Where the order of the operands is free, a number stands on the right.
    fn operate_in_order(
        &mut self,
        f: PrimOp,
        t: Reg,
        left: Source,
        right: Source,
    ) -> Result<(), AllocError>
        requires { IsSource left × IsSource right }
        ensures { OnOk result (self.new ≡ self.old ++ plain (in_order_code f t left right)) }
    {
        match left {
            Source::At(_) => self.operate_on(f, t, left, right),
            Source::Number(_) => {
                if is_free(f) {
                    return self.operate_on(f, t, right, left);
                }
                self.operate_on(f, t, left, right)
            }
        }
    }

    pub(crate) fn prim(
        &mut self,
        f: PrimOp,
        to: Spot,
        left: Source,
        right: Source,
    ) -> Result<(), AllocError>
        requires { (in_range to ≡ true) × IsSource left × IsSource right }
        ensures { OnOk result (self.new ≡ self.old ++ plain (prim_code f to left right)) }
    {
        self.operate_in_order(f, target(Reg(5), to), left, right)?;
        self.keep(Reg(5), to)
    }

    pub(crate) fn load(&mut self, to: Spot, cell: Source, k: u32) -> Result<(), AllocError>
        requires { (in_range to ≡ true) × IsSource cell }
        ensures { OnOk result (self.new ≡ self.old ++ plain (load_code to cell k)) }
    {
        let high = high_part(k, cell);
        self.hold(Reg(5), high)?;
        let t = target(Reg(5), to);
        let base = held(Reg(5), high);
        self.instr(Instr::Load(LoadKind::Lw, t, base, word_offset(k, cell)))?;
        self.keep(Reg(5), to)
    }

    pub(crate) fn save(&mut self, cell: Source, k: u32, word: Source) -> Result<(), AllocError>
        requires { IsSource cell × IsSource word }
        ensures { OnOk result (self.new ≡ self.old ++ plain (save_code cell k word)) }
    {
        let high = high_part(k, cell);
        self.hold(Reg(5), high)?;
        self.hold(Reg(6), word)?;
        let r = held(Reg(6), word);
        let base = held(Reg(5), high);
        self.instr(Instr::Store(StoreKind::Sw, r, base, word_offset(k, cell)))
    }

    /// x5 gets the end of so many bytes of cells, and where the heap ends before it the heap is
    /// full.
    pub(crate) fn room(&mut self, bytes: u32, heap_full: u32) -> Result<(), AllocError>
        ensures { OnOk result (self.new ≡ self.old ++ room_items bytes heap_full) }
    {
        self.add_to(Reg(5), Reg(3), bytes)?;
        self.put(Item::Branch {
            cond: Cond::Ltu,
            left: Reg(4),
            right: Reg(5),
            label: heap_full,
        })
    }

    /// Before an offset is none of 12 bits, x3 goes on.
    fn go_on(&mut self, step: u32, offset: u32) -> Result<(), AllocError>
        requires { (step < 2048) × (offset < 2048) }
        ensures { OnOk result (self.new ≡ self.old ++ plain (go_on_code step offset)) }
    {
        if offset + step < 2048 {
            return Ok(());
        }
        self.instr(add_immediate(Reg(3), Reg(3), Imm12(offset as i32)))?;
        self.instr(add_immediate(Reg(3), Reg(3), Imm12(step as i32)))
    }

    /// The places get the addresses of cells, one after another.
    fn cells(&mut self, step: u32, places: &[Spot]) -> Result<(), AllocError>
        requires { (step < 2048) × AllInRange places.now }
        ensures { OnOk result (self.new ≡ self.old ++ plain (cells_code step 0 places.now)) }
    {
        let mut offset = 0;
        for place in places {
            let t = target(Reg(6), *place);
            self.instr(add_immediate(t, Reg(3), Imm12(offset as i32)))?;
            self.keep(Reg(6), *place)?;
            self.go_on(step, offset)?;
            offset = next_offset(step, offset);
        }
        Ok(())
    }

    /// Cells of many bytes are counted from where x3 stands before them.
    fn far_cells(&mut self, step: u32, heap_full: u32, places: &[Spot]) -> Result<(), AllocError>
        requires { (step < 2048) × (step * length places.now < 4294967296) × AllInRange places.now }
        ensures { OnOk result (self.new ≡ self.old ++ far_cells_items step heap_full places.now) }
    {
        self.room((step as usize * places.len()) as u32, heap_full)?;
        self.cells(step, places)?;
        self.instr(add_immediate(Reg(3), Reg(5), Imm12(0)))
    }

    /// x3 goes on by so many bytes, and where the heap ends before it the heap is full.
    fn raise(&mut self, bytes: u32, heap_full: u32) -> Result<(), AllocError>
        requires { bytes < 2048 }
        ensures { OnOk result (self.new ≡ self.old ++ raise_items bytes heap_full) }
    {
        self.instr(add_immediate(Reg(3), Reg(3), Imm12(bytes as i32)))?;
        self.put(Item::Branch {
            cond: Cond::Ltu,
            left: Reg(4),
            right: Reg(3),
            label: heap_full,
        })
    }

    /// The places get the addresses of the cells that end at x3, the first so many bytes below it.
    fn cells_below(&mut self, step: u32, bytes: u32, places: &[Spot]) -> Result<(), AllocError>
        requires { (bytes ≡ step * length places.now) × AllInRange places.now }
        ensures { OnOk result (self.new ≡ self.old ++ plain (below_code step places.now)) }
    {
        let mut below = bytes;
        for place in places {
            let t = target(Reg(6), *place);
            self.instr(add_immediate(t, Reg(3), lower(negated(below) as u64)))?;
            self.keep(Reg(6), *place)?;
            below -= step;
        }
        Ok(())
    }

    pub(crate) fn take(
        &mut self,
        step: u32,
        heap_full: u32,
        places: &[Spot],
    ) -> Result<(), AllocError>
        requires { (step < 2048) × (step * length places.now < 4294967296) × AllInRange places.now }
        ensures { OnOk result (self.new ≡ self.old ++ take_items step heap_full places.now) }
    {
        let bytes = (step as usize * places.len()) as u32;
        if bytes < 2048 {
            self.raise(bytes, heap_full)?;
            return self.cells_below(step, bytes, places);
        }
        self.far_cells(step, heap_full, places)
    }

    /// The registers of a call of the machine wait in x4 to x7.
    fn aside(&mut self) -> Result<(), AllocError>
        ensures { OnOk result (self.new ≡ self.old ++ plain aside_code) }
    {
        self.instr(add_immediate(Reg(5), Reg(10), Imm12(0)))?;
        self.instr(add_immediate(Reg(6), Reg(11), Imm12(0)))?;
        self.instr(add_immediate(Reg(7), Reg(12), Imm12(0)))?;
        self.instr(add_immediate(Reg(4), Reg(17), Imm12(0)))
    }

    /// They come back, and x4 is made anew.
    fn back(&mut self, heap_end: u32) -> Result<(), AllocError>
        ensures { OnOk result (self.new ≡ self.old ++ plain (back_code heap_end)) }
    {
        self.instr(add_immediate(Reg(10), Reg(5), Imm12(0)))?;
        self.instr(add_immediate(Reg(11), Reg(6), Imm12(0)))?;
        self.instr(add_immediate(Reg(12), Reg(7), Imm12(0)))?;
        self.instr(add_immediate(Reg(17), Reg(4), Imm12(0)))?;
        self.load_constant(Reg(4), heap_end)
    }

    /// A call of the machine on one byte at the frame's first word.
    fn call(&mut self, file: u8, number: u8) -> Result<(), AllocError>
        ensures { OnOk result (self.new ≡ self.old ++ plain (call_code file number)) }
    {
        self.instr(add_immediate(Reg(10), Reg(0), Imm12(file as i32)))?;
        self.instr(add_immediate(Reg(11), Reg(2), Imm12(0)))?;
        self.instr(add_immediate(Reg(12), Reg(0), Imm12(1)))?;
        self.instr(add_immediate(Reg(17), Reg(0), Imm12(number as i32)))?;
        self.instr(Instr::Ecall)
    }

    /// The low byte of a word is written; the frame's first word is the byte's while the return
    /// address is in x1.
    pub(crate) fn put_byte(&mut self, heap_end: u32, word: Source) -> Result<(), AllocError>
        requires { IsSource word }
        ensures { OnOk result (self.new ≡ self.old ++ plain (put_code heap_end word)) }
    {
        self.instr(Instr::Load(LoadKind::Lw, Reg(1), Reg(2), Imm12(0)))?;
        self.hold(Reg(5), word)?;
        let r = held(Reg(5), word);
        self.instr(Instr::Store(StoreKind::Sw, r, Reg(2), Imm12(0)))?;
        self.aside()?;
        self.call(1, 64)?;
        self.back(heap_end)?;
        self.instr(Instr::Store(StoreKind::Sw, Reg(1), Reg(2), Imm12(0)))
    }

    /// The word that a read call gave goes to x1, and the return address back to the frame's first
    /// word.
    fn byte_given(&mut self) -> Result<(), AllocError>
        ensures { OnOk result (self.new ≡ self.old ++ plain byte_given_code) }
    {
        self.instr(Instr::Load(LoadKind::Lw, Reg(17), Reg(2), Imm12(0)))?;
        self.instr(Instr::Store(StoreKind::Sw, Reg(1), Reg(2), Imm12(0)))?;
        self.instr(add_immediate(Reg(10), Reg(10), Imm12(-1)))?;
        self.instr(Instr::Op(OpKind::Add, Reg(1), Reg(10), Reg(17)))
    }

    /// A place gets the next byte of the input, or all ones at its end.
    pub(crate) fn get_byte(&mut self, heap_end: u32, to: Spot) -> Result<(), AllocError>
        requires { in_range to ≡ true }
        ensures { OnOk result (self.new ≡ self.old ++ plain (get_code heap_end to)) }
    {
        self.instr(Instr::Load(LoadKind::Lw, Reg(1), Reg(2), Imm12(0)))?;
        self.instr(Instr::Store(StoreKind::Sw, Reg(0), Reg(2), Imm12(0)))?;
        self.aside()?;
        self.call(0, 63)?;
        self.byte_given()?;
        self.back(heap_end)?;
        self.move_to(to, Spot::Reg(1))
    }

    pub(crate) fn exit_with(&mut self, code: u8) -> Result<(), AllocError>
        ensures { OnOk result (self.new ≡ self.old ++ exit_items code) }
    {
        self.instr(add_immediate(Reg(10), Reg(0), Imm12(code as i32)))?;
        self.instr(add_immediate(Reg(17), Reg(0), Imm12(93)))?;
        self.instr(Instr::Ecall)
    }

    /// Words that compare so go on to the label.
    pub(crate) fn branch(
        &mut self,
        cond: Cond,
        next: u32,
        left: Source,
        right: Source,
    ) -> Result<(), AllocError>
        requires { IsSource left × IsSource right }
        ensures { OnOk result (self.new ≡ self.old ++ branch_items cond next left right) }
    {
        self.hold(Reg(5), left)?;
        self.hold(Reg(6), right)?;
        self.put(Item::Branch {
            cond,
            left: held(Reg(5), left),
            right: held(Reg(6), right),
            label: next,
        })
    }

    /// A word that compares so with this number goes on to the label.
    pub(crate) fn compare(
        &mut self,
        cond: Cond,
        next: u32,
        word: Source,
        n: u32,
    ) -> Result<(), AllocError>
        requires { IsSource word }
        ensures { OnOk result (self.new ≡ self.old ++ compare_items cond next word n) }
    {
        self.branch(cond, next, word, Source::Number(n))
    }

    /// A word that isn't this number goes on to the label.
    pub(crate) fn test(&mut self, next: u32, word: Source, n: u32) -> Result<(), AllocError>
        requires { IsSource word }
        ensures { OnOk result (self.new ≡ self.old ++ test_items next word n) }
    {
        self.compare(Cond::Ne, next, word, n)
    }

    /// A word that is this number goes on to the label.
    pub(crate) fn match_to(&mut self, next: u32, word: Source, n: u32) -> Result<(), AllocError>
        requires { IsSource word }
        ensures { OnOk result (self.new ≡ self.old ++ match_items next word n) }
    {
        self.compare(Cond::Eq, next, word, n)
    }
}
