//! The bus: requests are given up.

ghost use Rattle.std.specs.Prelude.{◌≡◌, None, IfOk, OnErr};
ghost use Rattle.gb_machine.specs.Bus as machine;
ghost use Rattle.gb_machine.specs.Requests.{is_due, open_requests};
ghost use Rattle.gb_base.specs.declared.outcome.Outcome.TheVariants as outcome;
ghost use Rattle.gb_bus.specs.Slots.{open_place, slot_at};

use crate::{AlreadyEnded, Bus};
use gb_base::{Numbers, OutOfMemory, Outcome, Side};

impl Bus {
    ghost use Rattle.gb_bus.specs.Cancelling.{ExpiresAs, GivesUpAs};
    ghost use Rattle.gb_bus.specs.Stands.{Around, Stands};

    /// Gives up request n, which ends as cancelled. Its identifier stays in use until its answer
    /// comes. AlreadyEnded comes where n isn't open: it had ended, or it wasn't made.
    pub fn cancel(&mut self, n: u64) -> Result<(), AlreadyEnded>
        ensures step { (around : Around) (b : machine.Bus) → Stands around self.old b
            → GivesUpAs around self.new outcome.Cancelled n b result }
        ensures unchanged { OnErr result (self.new ≡ self.old) }
    {
        self.give_up(n, Outcome::Cancelled)
    }

    /// Gives up request n, which ends as timed out. Its identifier stays in use until its answer
    /// comes. AlreadyEnded comes where n isn't open.
    pub fn expire(&mut self, n: u64) -> Result<(), AlreadyEnded>
        ensures step { (around : Around) (b : machine.Bus) → Stands around self.old b
            → GivesUpAs around self.new outcome.Timeout n b result }
        ensures unchanged { OnErr result (self.new ≡ self.old) }
    {
        self.give_up(n, Outcome::Timeout)
    }

    /// The open requests whose deadline came, in order of number. `now` is in milliseconds.
    pub fn due(&self, now: u64) -> Result<Numbers, OutOfMemory>
        ensures { IfOk result (λ ns. (around : Around) (b : machine.Bus)
            → Stands around self.now b → ns ≡ open_requests (is_due now) b) }
    {
        let due = self.slots.due(self.alloc, now)?;
        Ok(due)
    }

    /// Gives up the open request with the least number whose deadline came, as `expire` does, and
    /// answers its number. None comes exactly where no deadline of an open request came. `now` is
    /// in milliseconds.
    pub fn expire_one(&mut self, now: u64) -> Option<u64>
        ensures step { (around : Around) (b : machine.Bus) → Stands around self.old b
            → ExpiresAs around self.new now b result }
        ensures unchanged { result ≡ None → self.new ≡ self.old }
    {
        let n = self.slots.first_due(now)?;
        let _ = self.expire(n);
        Some(n)
    }

    /// Gives up request n, which ends so.
    fn give_up(&mut self, n: u64, how: Outcome) -> Result<(), AlreadyEnded>
        ensures step { (around : Around) (b : machine.Bus) → Stands around self.old b
            → GivesUpAs around self.new how n b result }
        ensures unchanged { OnErr result (self.new ≡ self.old) }
    {
        let Some((k, side)) = self.open_place(n) else {
            return Err(AlreadyEnded);
        };
        self.connections.give_up(k, side, n);
        self.slots.give_up(n, how);
        Ok(())
    }

    /// The connection and the side of request n, None where n isn't open.
    fn open_place(&self, n: u64) -> Option<(u64, Side)>
        ensures { result ≡ open_place (slot_at self.now.slots n) }
    {
        match self.slots.get(n) {
            Some(slot) if slot.outcome.is_none() => Some((slot.connection, slot.side)),
            _ => None,
        }
    }
}
