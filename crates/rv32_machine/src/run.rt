//! Runs of a program, from a source of bytes to a sink.

ghost use Rattle.std.specs.Prelude.{◌≡◌, ◌<◌, ℕ, List, [], ◌∷◌, Option, Some, None, false, true, is_ok, IsSome, IfOk, IfErr, OnOk, OnErr};
ghost use Rattle.grin_io.specs.Causes.{FaultsAreCounted};
ghost use Rattle.grin_io.specs.Content.{PutTakesPrefix};
ghost use Rattle.grin_io.specs.Changes.{FaultCountsAreSound};
ghost use Rattle.grin_io.specs.declared.outside.Fault.{Fault};
ghost use Rattle.rv32_machine.specs.Memory.{range_bytes};
ghost use Rattle.rv32_machine.specs.Steps.{IsRunning, IsAt, given, state_of};
ghost use Rattle.rv32_machine.specs.Runs.{IsRunAnswer, Counted, BrokenByIoFault, is_end};
ghost use Rattle.rv32_machine.specs.Over.{source_over, sink_over};
ghost use Rattle.rv32_machine.specs.OneByte.{ReadsOneByte};
ghost use Rattle.rv32_machine.specs.Plain.{RunsUpToEvent};

use crate::machine::{Machine, StepResult, Stop};
use grin_io::{Failed, Fault, Sink, Source};

/// Where a run stopped, and how many instructions it did: with the one that ended it, or all that
/// were allowed where the program goes on.
#[derive(Clone, Copy, PartialEq, Eq, Debug, Drop)]
pub struct StopWithCount {
    /// Where the run stopped.
    pub stop: Stop,
    /// How many instructions were done.
    pub done: u64,
}

impl Machine {
    /// Does at most `steps` instructions. Each byte that the program reads is one read of the
    /// source, and the bytes of each of its write calls are one put, also where there are none.
    /// Whatever the source gives, it is on the bytes that it gave that the run answers.
    /// After `Steps` the program has not ended, and a later call goes on; after every other answer
    /// it is over, and a fault of the source or the sink is the last thing that was asked of them.
    pub fn run<I: Source, K: Sink>(
        &mut self,
        steps: u64,
        input: &mut I,
        out: &mut K,
    ) -> Result<Stop, Fault>
        requires { IsRunning self.old }
        ensures answered { IfOk result (λ stop.
            IsRunAnswer (source_over I.Source input.old input.new)
            (sink_over K.Sink out.old out.new)
            steps (state_of self.old) stop self.new) }
        ensures interrupted { IfErr result (λ fault.
            BrokenByIoFault (source_over I.Source input.old input.new)
            (sink_over K.Sink out.old out.new)
            steps (state_of self.old) fault) }
        ensures cause { FaultCountsAreSound result
            (source_over I.Source input.old input.new)
            (sink_over K.Sink out.old out.new) }
        ensures ended { IfOk result (λ stop. self.new.over ≡ is_end stop) }
        ensures broken { OnErr result (self.new.over ≡ true) }
        ensures waits_no_more { self.new.waiting ≡ false }
    {
        Ok(self.run_counted(steps, input, out)?.stop)
    }

    /// Runs as `run` does, and also answers how many instructions were done.
    pub fn run_counted<I: Source, K: Sink>(
        &mut self,
        steps: u64,
        input: &mut I,
        out: &mut K,
    ) -> Result<StopWithCount, Fault>
        requires { IsRunning self.old }
        ensures counted { IfOk result (λ ran.
            Counted (source_over I.Source input.old input.new)
            (sink_over K.Sink out.old out.new)
            steps (state_of self.old) ran.stop ran.done self.new) }
        ensures interrupted { IfErr result (λ fault.
            BrokenByIoFault (source_over I.Source input.old input.new)
            (sink_over K.Sink out.old out.new)
            steps (state_of self.old) fault) }
        ensures cause { FaultCountsAreSound result
            (source_over I.Source input.old input.new)
            (sink_over K.Sink out.old out.new) }
        ensures ended { IfOk result (λ ran. self.new.over ≡ is_end ran.stop) }
        ensures broken { OnErr result (self.new.over ≡ true) }
        ensures waits_no_more { self.new.waiting ≡ false }
    {
        let all = StopWithCount {
            stop: Stop::Steps,
            done: steps,
        };
        let mut left = steps;
        while left > 0 {
            let (plain, told) = self.advance(left);
            match told {
                StepResult::Next => return Ok(all),
                StepResult::Read(_) => self.take_byte(input)?,
                StepResult::Write(addr, len) => self.put_bytes(addr, len, out)?,
                StepResult::Exit(code) => {
                    return Ok(StopWithCount {
                        stop: Stop::Exit(code),
                        done: steps - left + plain + 1,
                    });
                }
                StepResult::Trap(kind, pc) => {
                    return Ok(StopWithCount {
                        stop: Stop::Trap(kind, pc),
                        done: steps - left + plain + 1,
                    });
                }
            }
            left -= plain + 1;
        }
        Ok(all)
    }

    /// Does instructions after which the program just goes on, at most `most`, up to the first that
    /// does more. Answers how many there were, and what that one did. The loop stands in a program
    /// once, whatever its sources and sinks are, so that an instruction is compiled into it.
    #[inline(never)]
    fn advance(&mut self, most: u64) -> (u64, StepResult)
        requires { IsRunning self.old }
        ensures { RunsUpToEvent most self.old result.0 result.1 self.new }
    {
        for plain in 0..most {
            match self.step() {
                StepResult::Next => {}
                told => return (plain, told),
            }
        }
        (most, StepResult::Next)
    }

    /// A read call's answer: a byte of the source, or its end.
    #[inline(never)]
    fn take_byte<I: Source>(&mut self, input: &mut I) -> Result<(), Fault>
        requires over { self.old.over ≡ false }
        requires waiting { self.old.waiting ≡ true }
        ensures given { OnOk result ((answer : Option ℕ)
            × IsAt self.new (given (state_of self.old) answer) false false
            × ReadsOneByte (source_over I.Source input.old input.new)
            answer) }
        ensures refused { OnErr result (I.read_gives input.old 1 None input.new) }
        ensures cause { FaultsAreCounted (I.faults input.old) (I.faults input.new) result }
        ensures fault { IfErr result (λ fault. fault ≡ Fault.Read) }
        ensures running { OnOk result (IsRunning self.new) }
        ensures broken { OnErr result (self.new.over ≡ true) }
        ensures answered { self.new.waiting ≡ false }
    {
        match next_byte(input) {
            Ok(byte) => {
                self.give(byte);
                Ok(())
            }
            Err(Failed) => {
                self.stop();
                Err(Fault::Read)
            }
        }
    }

    /// The bytes of a write call, as one put.
    #[inline(never)]
    fn put_bytes<K: Sink>(&mut self, addr: u32, len: u32, out: &mut K) -> Result<(), Fault>
        requires running { IsRunning self.old }
        requires range { IsSome (range_bytes self.old.memory addr len) }
        ensures done { OnOk result (self.new ≡ self.old) }
        ensures content { (bytes : List ℕ) → range_bytes self.old.memory addr len ≡ Some bytes
            → PutTakesPrefix (K.taken out.old) (K.taken out.new) bytes result }
        ensures exactly { (bytes : List ℕ) → range_bytes self.old.memory addr len ≡ Some bytes
            → K.put_gives out.old bytes (is_ok result) out.new }
        ensures cause { FaultsAreCounted (K.faults out.old) (K.faults out.new) result }
        ensures fault { IfErr result (λ fault. fault ≡ Fault.Write) }
        ensures broken { OnErr result (self.new.over ≡ true) }
        ensures answered { self.new.waiting ≡ false }
    {
        match self.put_range(addr, len, out) {
            Ok(()) => Ok(()),
            Err(Failed) => {
                self.stop();
                Err(Fault::Write)
            }
        }
    }
}

/// One byte of a source, or `None` at its end.
fn next_byte<I: Source>(input: &mut I) -> Result<Option<u8>, Failed>
    ensures next { IfOk result (λ byte.
        ReadsOneByte (source_over I.Source input.old input.new) byte) }
    ensures refused { OnErr result (I.read_gives input.old 1 None input.new) }
    ensures cause { FaultsAreCounted (I.faults input.old) (I.faults input.new) result }
{
    let mut buf = [0];
    let count = input.read(&mut buf)?;
    Ok(if count == 0 { None } else { Some(only(&buf)) })
}

/// The byte of a buffer of one.
fn only(buf: &[u8; 1]) -> u8
    ensures byte { buf.now ≡ result ∷ [] }
    ensures small { result < 256 }
{
    buf[0]
}
