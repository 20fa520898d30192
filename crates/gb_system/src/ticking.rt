//! Time that passes, and requests whose deadline comes.

ghost use Rattle.std.specs.Prelude.{◌≡◌, ◌+◌, ◌<◌, [], IfOk, OnErr, OnOk};
ghost use Rattle.gb_base.specs.declared.event.Event.TheVariants as event;
ghost use Rattle.gb_base.specs.declared.outcome.Outcome.TheVariants as outcome;
ghost use Rattle.gb_machine.specs.GivingUp.{gives_up};
ghost use Rattle.gb_machine.specs.State.{State};
ghost use Rattle.gb_system.specs.Doing.{Does, EventAs};
ghost use Rattle.gb_system.specs.Stands.{PartiesStand, PartsStand};
ghost use Rattle.gb_system.specs.Ticking.{MayTimeOut};

use crate::parties::Parties;
use crate::stop::Stop;
use gb_base::{Entries, OutOfMemory, Outcome, sum};

impl Parties {
    /// Milliseconds pass: the open requests whose deadline came are given up, in order of number.
    /// Out of memory also comes where the time has no number of 64 bits.
    pub fn tick(&mut self, millis: u32, told: &mut Entries) -> Result<(), Stop>
        ensures step { (s : State) → PartiesStand self.old s
            → EventAs self.new s (event.Tick millis) told.old told.new result }
    {
        self.time = self.deadline(u64::from(millis))?;
        for number in self.bus.due(self.time)?.items() {
            self.time_out(*number, told)?;
        }
        Ok(())
    }

    /// The time at which a wait of so many milliseconds is over. Out of memory comes exactly where
    /// that has no number of 64 bits.
    pub fn deadline(&self, wait: u64) -> Result<u64, OutOfMemory>
        ensures time { IfOk result (λ d. d ≡ self.now.time + wait) }
        ensures cause { OnErr result (18446744073709551615 < self.now.time + wait) }
    {
        sum(self.time, wait)
    }

    /// A request that is open is given up, since its deadline came, and what waited for it fails.
    fn time_out(&mut self, number: u64, told: &mut Entries) -> Result<(), OutOfMemory>
        ensures step { OnOk result ((s : State) → PartsStand [] self.old s → MayTimeOut number s
            → Does self.new (gives_up outcome.Timeout number) s told.old told.new) }
    {
        if self.bus.expire(number).is_ok() {
            self.lose(number, Outcome::Timeout, told)?;
        }
        Ok(())
    }
}
