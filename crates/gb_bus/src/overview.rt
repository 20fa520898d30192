//! What the bus tells of its connections and of what waits.

ghost use Rattle.std.specs.Prelude.{◌≡◌, IfOk, map};
ghost use Rattle.gb_machine.specs.Bus as machine;
ghost use Rattle.gb_machine.specs.Waiting.{queues};
ghost use Rattle.gb_bus.specs.Overview.{known_of, waiting_of};

use crate::Bus;
use gb_base::{End, OutOfMemory, Sequence};

/// A live connection, as it is told.
#[derive(Clone, Copy)]
pub struct Known {
    /// Its number, from 1.
    pub number: u64,
    /// The CPort of the application processor.
    pub ap: u16,
    /// The far end.
    pub peer: End,
    /// The protocol that is spoken on it.
    pub protocol: u8,
    /// No raw bytes were injected on it.
    pub clean: bool,
}

/// An end at which messages wait.
#[derive(Clone, Copy)]
pub struct Waiting {
    /// The end.
    pub at: End,
    /// How many, at least 1.
    pub count: u64,
}

impl Bus {
    ghost use Rattle.gb_bus.specs.Stands.{Around, Stands};

    /// The live connections in order of number.
    pub fn connections(&self) -> Result<Sequence<Known>, OutOfMemory>
        ensures { IfOk result (λ ks. (around : Around) (b : machine.Bus)
            → Stands around self.now b → ks ≡ map known_of b.connections) }
    {
        let known = self.connections.known(self.alloc)?;
        Ok(known)
    }

    /// The ends at which messages wait, in the order in which queues are settled.
    pub fn queues(&self) -> Result<Sequence<Waiting>, OutOfMemory>
        ensures { IfOk result (λ ws. (around : Around) (b : machine.Bus)
            → Stands around self.now b → ws ≡ map waiting_of (queues b)) }
    {
        let waiting = self.connections.waiting(self.alloc)?;
        Ok(waiting)
    }
}
