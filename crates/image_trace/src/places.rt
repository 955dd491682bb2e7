//! How often each address of a run is that of an instruction that is done.

ghost use Rattle.std.specs.Prelude.{◌≡◌, ◌+◌, ◌^◌, ◌<◌, ◌≤◌, ℕ, length, nat_eq, cond, [], IfOk, OnOk};
ghost use Rattle.limits.specs.Limits.{default_steps};
ghost use Rattle.seq.specs.Lists.{times};
ghost use Rattle.rv32_machine.specs.Steps.{start_of};
ghost use Rattle.rv32_steps.specs.Trace.{trace};
ghost use Rattle.image_trace.specs.Places.{is_word, times_noted};
ghost use Rattle.image_trace.specs.Profile.{done_within};

use crate::entries::goes_on;
use elf32::Loaded;
use limits::DEFAULT_STEPS;
use rv32_machine::Machine;
use std::alloc::{AllocError, Global};

/// How often each address was noted.
#[derive(Drop)]
pub(crate) struct Places {
    /// How often, for each of the first words of memory.
    words: Vec<u64>,
    /// Each other address, as often as it was noted.
    others: Vec<u32>,
    /// How many were noted.
    pub(crate) all: u64,
}

/// How often a number stands in a list.
fn times(number: u64, list: &[u32]) -> u64
    ensures { result ≡ times number list.now }
{
    let mut count = 0;
    for other in list {
        if number == *other as u64 {
            count += 1;
        }
    }
    count
}

impl Places {
    /// No address was noted; so many words of memory have a number of their own.
    fn new(alloc: Global, len: usize) -> Result<Places, AllocError>
        ensures nothing { IfOk result (λ p. (a : ℕ) → times_noted p a ≡ 0) }
        ensures none { IfOk result (λ p. p.all ≡ 0) }
    {
        let mut words = Vec::new(alloc);
        words.resize(len, 0)?;
        Ok(Places {
            words,
            others: Vec::new(alloc),
            all: 0,
        })
    }

    /// Whether the word at an address has a number of its own.
    fn is_word(&self, at: u64) -> bool
        ensures { result ≡ is_word (length self.now.words.items) at }
    {
        at % 4 == 0 && at / 4 < self.words.len() as u64
    }

    /// Notes an address.
    fn note(&mut self, at: u32) -> Result<(), AllocError>
        requires few { times_noted self.old at < 2 ^ 32 }
        requires all { self.old.all < 2 ^ 32 }
        ensures noted { OnOk result ((a : ℕ)
            → times_noted self.new a ≡ cond (nat_eq a at) 1 0 + times_noted self.old a) }
        ensures more { OnOk result (self.new.all ≡ self.old.all + 1) }
    {
        self.all += 1;
        if self.is_word(at as u64) {
            self.words[(at / 4) as usize] += 1;
            return Ok(());
        }
        self.others.push(at)?;
        Ok(())
    }

    /// How often an address was noted.
    pub(crate) fn times(&self, at: u64) -> u64
        ensures { result ≡ times_noted self.now at }
    {
        if self.is_word(at) {
            self.words[(at / 4) as usize]
        } else {
            times(at, self.others.as_slice())
        }
    }

    /// How many instructions were done of so many words from an address on.
    pub(crate) fn done_within(&self, begin: u32, words: u32) -> u64
        requires { (a : ℕ) → times_noted self.now a ≤ default_steps }
        ensures { result ≡ done_within (times_noted self.now) words begin }
    {
        let mut sum = 0;
        let mut at = begin as u64;
        let mut left = words;
        while left > 0 {
            sum += self.times(at);
            at += 4;
            left -= 1;
        }
        sum
    }
}

/// The places of the instructions that a program does on no input, in as many steps as a run does
/// by default. So many words of memory have a number of their own.
pub(crate) fn places_of(alloc: Global, program: &Loaded, len: usize) -> Result<Places, AllocError>
    ensures noted { IfOk result (λ p. (a : ℕ)
        → times_noted p a ≡ times a (trace default_steps [] (start_of program.now))) }
    ensures all { IfOk result (λ p.
        p.all ≡ length (trace default_steps [] (start_of program.now))) }
{
    let mut machine = Machine::load(alloc, program)?;
    let mut places = Places::new(alloc, len)?;
    let mut left = DEFAULT_STEPS;
    while left > 0 {
        places.note(machine.pc())?;
        if !goes_on(&mut machine) {
            return Ok(places);
        }
        left -= 1;
    }
    Ok(places)
}
