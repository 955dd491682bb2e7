//! The machine, and what each instruction does to it.

ghost use Rattle.std.specs.Prelude.{◌≡◌, ℕ, List, is_ok, ◌+◌, ◌*◌, ◌<◌, ◌^◌, false, true, Option, Some, IsSome, if◌then◌else◌, ◌⊎◌, IfOk};
ghost use Rattle.grin_io.specs.Causes.{FaultsAreCounted};
ghost use Rattle.grin_io.specs.Content.{PutTakesPrefix};
ghost use Rattle.rv32_machine.specs.Arithmetic.{plus, pattern, load_size, load_value, store_size};
ghost use Rattle.rv32_machine.specs.Memory.{range_bytes, IsInside, IsAllowed, bytes_of, little_endian};
ghost use Rattle.rv32_machine.specs.Steps.{start_of, stored, given, Next, Trapped, Ended, Does, IsAt, IsRunning, state_of, reg, with_reg, go_to, put, jump, load, store, write_call, read_call, call, act, step, next_pc};
ghost use Rattle.rv32_machine.specs.declared.machine.TrapKind.{TrapKind};
ghost use Rattle.rv32_machine.specs.declared.memory.Access.{Access};
ghost use Rattle.rv32_machine.specs.declared.memory.Right.{Right};

use crate::arithmetic::{imm_value, is_taken, load_value, op_value, plus, shift_value};
use crate::memory::{Access, Right};
use crate::store::{Fetched, Memory};
use elf32::Loaded;
use grin_io::{Failed, Sink};
use rv32_isa::{Imm12, Instr, LoadKind, Reg, StoreKind};
use std::alloc::{AllocError, Global};
use std::marker::Model;

/// Why an instruction can't be done.
#[derive(Clone, Copy, PartialEq, Eq, Debug, Drop)]
pub enum TrapKind {
    /// The word is no instruction of RV32IM.
    IllegalInstruction(u32),
    /// A jump, a taken branch or the entry goes to an address that is no multiple of four.
    MisalignedJump,
    /// A load or a store goes to this address, which is no multiple of its size.
    MisalignedAccess(u32),
    /// This address is not in the segment of the access, or no segment has its right.
    AccessOutside(u32),
    /// ECALL with a number in x17 that stands for no call.
    UnknownCall(u32),
    /// EBREAK.
    Breakpoint,
}

/// What a step did.
#[derive(Clone, Copy, PartialEq, Eq, Debug, Drop)]
pub enum StepResult {
    /// The instruction is done.
    Next,
    /// A read call asks for a byte of the input, which goes to this address.
    Read(u32),
    /// A write call is done: its address and its length in bytes.
    Write(u32, u32),
    /// The program ended, with this code.
    Exit(u32),
    /// The reason, and the address of the instruction, which is not done.
    Trap(TrapKind, u32),
}

/// Where a run stopped.
#[derive(Clone, Copy, PartialEq, Eq, Debug, Drop)]
pub enum Stop {
    /// The program ended, with this code.
    Exit(u32),
    /// All steps are done, and the program goes on.
    Steps,
    /// The reason, and the address of the instruction, which is not done.
    Trap(TrapKind, u32),
}

/// The answer of a call to a file that is not there, -9.
const NO_FILE: u32 = 4294967287;

/// A machine with a program: 32 registers, the address of the next instruction, and the program's
/// memory.
#[derive(Drop)]
pub struct Machine {
    regs: [u32; 32],
    pc: u32,
    memory: Memory,
    over: bool,
    waiting: bool,
}

impl Model for Machine {
    ghost use Rattle.rv32_machine.specs.Steps.{Stand};

    ghost Value = { Stand };

    ghost view = { λ m. record {
      regs = m.regs;
      pc = m.pc;
      memory = m.memory;
      over = m.over;
      waiting = m.waiting;
    } };
}

impl Machine {
    /// The machine at the start of a program: all registers are zero, and each segment's bytes are
    /// followed by zeros. `AllocError` where memory is wanting.
    pub fn load(alloc: Global, image: &Loaded) -> Result<Machine, AllocError>
        ensures { IfOk result (λ m. IsAt m (start_of image.now) false false) }
    {
        let memory = Memory::new(alloc, image)?;
        Ok(Machine {
            regs: [0; 32],
            pc: image.entry,
            memory,
            over: false,
            waiting: false,
        })
    }

    /// Whether the program has ended, by its exit, a trap or a fault of the input or the output.
    pub fn over(&self) -> bool
        ensures { result ≡ self.now.over }
    {
        self.over
    }

    /// Whether a read call waits for `give`.
    pub fn waiting(&self) -> bool
        ensures { result ≡ self.now.waiting }
    {
        self.waiting
    }

    /// Puts the `len` bytes from the address `addr` on, a range that is in one segment, as that of a
    /// write call is.
    pub fn put_range<K: Sink>(&mut self, addr: u32, len: u32, out: &mut K) -> Result<(), Failed>
        requires { IsSome (range_bytes self.old.memory addr len) }
        ensures same { self.new ≡ self.old }
        ensures content { (bytes : List ℕ) → range_bytes self.old.memory addr len ≡ Some bytes
            → PutTakesPrefix (K.taken out.old) (K.taken out.new) bytes result }
        ensures exactly { (bytes : List ℕ) → range_bytes self.old.memory addr len ≡ Some bytes
            → K.put_gives out.old bytes (is_ok result) out.new }
        ensures cause { FaultsAreCounted (K.faults out.old) (K.faults out.new) result }
    {
        if len == 0 {
            return out.put(&[]);
        }
        self.memory.put_to(addr, len, out)
    }

    /// The address of the next instruction.
    pub fn pc(&self) -> u32
        ensures { result ≡ self.now.pc }
    {
        self.pc
    }

    /// The value of a register.
    pub fn register(&self, number: Reg) -> u32
        ensures { result ≡ reg (state_of self.now) number }
    {
        self.reg(number)
    }

    /// Does one instruction. Exit and Trap end the program, and a trap leaves registers, memory and
    /// the address of the instruction. After Read the instruction waits for `give`.
    #[inline(always)]
    #[tactic(auto, unfolding(crate::specs::Steps::step))]
    pub fn step(&mut self) -> StepResult
        requires { IsRunning self.old }
        ensures { Does (state_of self.old) (step (state_of self.old)) result self.new }
    {
        if self.pc % 4 != 0 {
            return self.trap(TrapKind::MisalignedJump);
        }
        match self.memory.fetch(self.pc) {
            Fetched::Instr(instr) => self.act(instr),
            Fetched::Illegal(word) => self.trap(TrapKind::IllegalInstruction(word)),
            Fetched::Outside(outside) => self.trap(TrapKind::AccessOutside(outside)),
        }
    }

    /// Answers a read call: with a byte of the input, or with `None` at the input's end. The call
    /// is then done.
    pub fn give(&mut self, byte: Option<u8>)
        requires { self.old.waiting ≡ true }
        ensures { IsAt self.new (given (state_of self.old) byte) self.old.over false }
    {
        self.waiting = false;
        match byte {
            None => self.answer(0),
            Some(byte) => self.answer_byte(byte),
        }
    }

    /// Ends the program where it stands, also at a read call that gets no answer.
    #[inline(always)]
    pub(crate) fn stop(&mut self)
        ensures { IsAt self.new (state_of self.old) true false }
    {
        self.over = true;
        self.waiting = false;
    }

    /// The answer of a call in x10.
    #[inline(always)]
    fn answer(&mut self, value: u32)
        ensures { IsAt self.new (with_reg (state_of self.old) 10 value
            (next_pc (state_of self.old))) self.old.over self.old.waiting }
    {
        let pc = self.next_pc();
        self.set_reg(Reg(10), value, pc);
    }

    fn answer_byte(&mut self, byte: u8)
        ensures { IsAt self.new (given (state_of self.old) (Some byte)) self.old.over
            self.old.waiting }
    {
        let address = self.reg(Reg(11));
        if let Access::At(region, offset) = self.memory.find(Right::Write, address, 1) {
            self.memory.write(region, offset, 1, byte as u32);
        }
        self.answer(1)
    }

    #[inline(always)]
    fn reg(&self, number: Reg) -> u32
        ensures { result ≡ reg (state_of self.now) number }
    {
        if number.0 == 0 {
            0
        } else {
            self.regs[number.0 as usize]
        }
    }

    /// A value into a register, and where to go on.
    #[inline(always)]
    fn set_reg(&mut self, number: Reg, value: u32, pc: u32)
        ensures { IsAt self.new (with_reg (state_of self.old) number value pc) self.old.over
            self.old.waiting }
    {
        self.regs[number.0 as usize] = value;
        self.pc = pc;
    }

    #[inline(always)]
    fn next_pc(&self) -> u32
        ensures { result ≡ next_pc (state_of self.now) }
    {
        plus(self.pc, 4)
    }

    /// The sum of a register and an immediate.
    #[inline(always)]
    fn at(&self, base: Reg, offset: Imm12) -> u32
        ensures { result ≡ plus (reg (state_of self.now) base) (pattern offset) }
    {
        plus(self.reg(base), offset.0.cast_unsigned())
    }

    #[inline(always)]
    fn trap(&mut self, kind: TrapKind) -> StepResult
        requires { IsRunning self.old }
        ensures { Does (state_of self.old) (Trapped kind) result self.new }
    {
        self.stop();
        StepResult::Trap(kind, self.pc)
    }

    #[inline(always)]
    fn exit(&mut self, code: u32) -> StepResult
        requires { IsRunning self.old }
        ensures { Does (state_of self.old) (Ended code) result self.new }
    {
        self.stop();
        StepResult::Exit(code)
    }

    #[inline(always)]
    fn put(&mut self, number: Reg, value: u32) -> StepResult
        requires { IsRunning self.old }
        ensures { Does (state_of self.old) (put (state_of self.old) number value) result self.new }
    {
        let pc = self.next_pc();
        self.set_reg(number, value, pc);
        StepResult::Next
    }

    #[inline(always)]
    fn go_to(&mut self, pc: u32) -> StepResult
        requires { IsRunning self.old }
        ensures { Does (state_of self.old) (Next (go_to (state_of self.old) pc)) result self.new }
    {
        self.pc = pc;
        StepResult::Next
    }

    /// A jump that leaves the address of the next instruction in a register.
    #[inline(always)]
    fn link(&mut self, number: Reg, target: u32) -> StepResult
        requires { IsRunning self.old }
        ensures { let s = state_of self.old in Does s
            (jump target (Next (with_reg s number (next_pc s) target))) result self.new }
    {
        if target % 4 != 0 {
            return self.trap(TrapKind::MisalignedJump);
        }
        let next = self.next_pc();
        self.set_reg(number, next, target);
        StepResult::Next
    }

    #[inline(always)]
    fn branch(&mut self, taken: bool, target: u32) -> StepResult
        requires { IsRunning self.old }
        ensures { let s = state_of self.old in Does s
            (if taken then jump target (Next (go_to s target)) else Next (go_to s (next_pc s)))
            result self.new }
    {
        if taken {
            if target % 4 != 0 {
                return self.trap(TrapKind::MisalignedJump);
            }
            self.go_to(target)
        } else {
            let next = self.next_pc();
            self.go_to(next)
        }
    }

    #[inline(always)]
    fn load_into(&mut self, number: Reg, kind: LoadKind, address: u32) -> StepResult
        requires { IsRunning self.old }
        ensures { let s = state_of self.old in Does s
            (load s number (load_value kind) (load_size kind) address) result self.new }
    {
        match kind {
            LoadKind::Lb | LoadKind::Lbu => self.load_some(number, kind, 1, address),
            LoadKind::Lh | LoadKind::Lhu => self.load_some(number, kind, 2, address),
            LoadKind::Lw => self.load_some(number, kind, 4, address),
        }
    }

    /// A load of so many bytes.
    #[inline(always)]
    fn load_some(&mut self, number: Reg, kind: LoadKind, len: u32, address: u32) -> StepResult
        requires running { IsRunning self.old }
        requires len { len ≡ load_size kind }
        ensures { let s = state_of self.old in Does s
            (load s number (load_value kind) (load_size kind) address) result self.new }
    {
        if address % len != 0 {
            return self.trap(TrapKind::MisalignedAccess(address));
        }
        match self.memory.find(Right::Read, address, len) {
            Access::Outside(outside) => self.trap(TrapKind::AccessOutside(outside)),
            Access::At(region, offset) => {
                let value = self.memory.read(region, offset, len);
                self.put(number, load_value(kind, value))
            }
        }
    }

    #[inline(always)]
    fn store(&mut self, kind: StoreKind, address: u32, value: u32) -> StepResult
        requires { IsRunning self.old }
        ensures { let s = state_of self.old in Does s (store s value (store_size kind) address)
            result self.new }
    {
        match kind {
            StoreKind::Sb => self.store_some(1, address, value),
            StoreKind::Sh => self.store_some(2, address, value),
            StoreKind::Sw => self.store_some(4, address, value),
        }
    }

    /// A store of so many bytes.
    #[inline(always)]
    fn store_some(&mut self, len: u32, address: u32, value: u32) -> StepResult
        requires running { IsRunning self.old }
        requires len { (len ≡ 1) ⊎ (len ≡ 2) ⊎ (len ≡ 4) }
        ensures { let s = state_of self.old in Does s (store s value len address) result self.new }
    {
        if address % len != 0 {
            return self.trap(TrapKind::MisalignedAccess(address));
        }
        match self.memory.find(Right::Write, address, len) {
            Access::Outside(outside) => self.trap(TrapKind::AccessOutside(outside)),
            Access::At(region, offset) => self.store_at(len, region, offset, value),
        }
    }

    #[inline(always)]
    fn store_at(&mut self, len: u32, region: usize, offset: usize, value: u32) -> StepResult
        requires running { IsRunning self.old }
        requires len { (len ≡ 1) ⊎ (len ≡ 2) ⊎ (len ≡ 4) }
        requires inside { IsInside self.old.memory len (Access.At region offset) }
        requires allowed { IsAllowed Right.Write self.old.memory (Access.At region offset) }
        ensures { let s = state_of self.old in Does s
            (stored s (bytes_of len value) (Access.At region offset)) result self.new }
    {
        self.memory.write(region, offset, len, value);
        self.pc = plus(self.pc, 4);
        StepResult::Next
    }

    #[inline(always)]
    fn write_call(&mut self, file: u32, address: u32, len: u32) -> StepResult
        requires { IsRunning self.old }
        ensures { let s = state_of self.old in Does s (write_call s file address len) result
            self.new }
    {
        if file != 1 {
            return self.put(Reg(10), NO_FILE);
        }
        if len > 0 {
            if let Access::Outside(outside) = self.memory.find(Right::Read, address, len) {
                return self.trap(TrapKind::AccessOutside(outside));
            }
        }
        self.answer(len);
        StepResult::Write(address, len)
    }

    #[inline(always)]
    fn read_call(&mut self, file: u32, address: u32, len: u32) -> StepResult
        requires { IsRunning self.old }
        ensures { let s = state_of self.old in Does s (read_call s file address len) result
            self.new }
    {
        if file != 0 {
            return self.put(Reg(10), NO_FILE);
        }
        if len == 0 {
            return self.put(Reg(10), 0);
        }
        match self.memory.find(Right::Write, address, len) {
            Access::Outside(outside) => self.trap(TrapKind::AccessOutside(outside)),
            Access::At(_, _) => {
                self.waiting = true;
                StepResult::Read(address)
            }
        }
    }

    #[inline(always)]
    fn call(&mut self) -> StepResult
        requires { IsRunning self.old }
        ensures { let s = state_of self.old in Does s (call s) result self.new }
    {
        match self.reg(Reg(17)) {
            93 => self.exit(self.reg(Reg(10))),
            64 => self.write_call(self.reg(Reg(10)), self.reg(Reg(11)), self.reg(Reg(12))),
            63 => self.read_call(self.reg(Reg(10)), self.reg(Reg(11)), self.reg(Reg(12))),
            number => self.trap(TrapKind::UnknownCall(number)),
        }
    }

    #[inline(always)]
    fn act(&mut self, instr: Instr) -> StepResult
        requires { IsRunning self.old }
        ensures { let s = state_of self.old in Does s (act s instr) result self.new }
    {
        match instr {
            Instr::Lui(rd, imm) => self.put(rd, imm.0 * 4096),
            Instr::Auipc(rd, imm) => self.put(rd, plus(self.pc, imm.0 * 4096)),
            Instr::Jal(rd, off) => self.link(rd, plus(self.pc, off.0.cast_unsigned())),
            Instr::Jalr(rd, rs1, imm) => self.link(rd, self.at(rs1, imm) / 2 * 2),
            Instr::Branch(kind, rs1, rs2, off) => {
                let taken = is_taken(kind, self.reg(rs1), self.reg(rs2));
                self.branch(taken, plus(self.pc, off.0.cast_unsigned()))
            }
            Instr::Load(kind, rd, rs1, imm) => self.load_into(rd, kind, self.at(rs1, imm)),
            Instr::Store(kind, rs2, rs1, imm) => self.store(kind, self.at(rs1, imm), self.reg(rs2)),
            Instr::OpImm(kind, rd, rs1, imm) => {
                self.put(rd, imm_value(kind, self.reg(rs1), imm.0.cast_unsigned()))
            }
            Instr::Shift(kind, rd, rs1, amount) => {
                self.put(rd, shift_value(kind, self.reg(rs1), amount.0 as u32))
            }
            Instr::Op(kind, rd, rs1, rs2) => self.put(
                rd,
                op_value(kind, self.reg(rs1), self.reg(rs2)),
            ),
            Instr::Fence(_, _, _) => {
                let next = self.next_pc();
                self.go_to(next)
            }
            Instr::Ecall => self.call(),
            Instr::Ebreak => self.trap(TrapKind::Breakpoint),
        }
    }
}
