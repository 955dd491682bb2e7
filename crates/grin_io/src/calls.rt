ghost use Rattle.std.specs.Prelude.{◌≡◌, ◌≤◌, Bool, not, is_ok};
ghost use Rattle.grin_io.specs.Causes.{CountGrew, FaultsAreCounted};
ghost use Rattle.grin_io.specs.Memory.{no_calls, is_planned, called, faulted};

use crate::outside::Failed;
use std::marker::Model;

/// The calls on an object in memory: those that are to fail, how many there were, and how many
/// faults.
#[derive(Debug, Drop)]
pub struct Schedule {
    planned: Vec<u64>,
    made: u64,
    faults: u64,
}

impl Model for Schedule {
    ghost use Rattle.grin_io.specs.Memory.{CallSchedule};

    ghost Value = { CallSchedule };

    ghost view = { λ s. record { planned = s.planned.items; made = s.made; faults = s.faults } };
}

impl Schedule {
    /// No call yet; the calls with these numbers, counted from 0, are to fail.
    pub fn new(planned: Vec<u64>) -> Schedule
        ensures { result ≡ no_calls planned.items }
    {
        Schedule {
            planned,
            made: 0,
            faults: 0,
        }
    }

    /// Counts a call, which fails where that is planned.
    pub fn call(&mut self) -> Result<(), Failed>
        ensures counted { self.new ≡ called self.old }
        ensures planned { is_ok result ≡ not (is_planned self.old) }
        ensures cause { FaultsAreCounted self.old.faults self.new.faults result }
    {
        let fails = self.planned.contains(&self.made);
        self.made = self.made.saturating_add(1);
        if fails {
            self.fault();
            return Err(Failed);
        }
        Ok(())
    }

    /// Counts a fault.
    pub fn fault(&mut self)
        ensures counted { self.new ≡ faulted self.old }
        ensures later { self.old.faults ≤ self.new.faults }
        ensures rose { CountGrew self.old.faults self.new.faults }
    {
        self.faults = self.faults.saturating_add(1);
    }
}
