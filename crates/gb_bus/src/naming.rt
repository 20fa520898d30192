//! The bus: names of requests, and what is told of a request while something asks for it.

ghost use Rattle.std.specs.Prelude.{◌≡◌, option_copied, option_map};
ghost use Rattle.gb_machine.specs.Bus as machine;

use crate::{About, Bus};
use gb_base::Outcome;

impl Bus {
    ghost use Rattle.gb_bus.specs.Naming.{KeepsAs, about_of, asked_for, told_outcome, without_name};
    ghost use Rattle.gb_bus.specs.Stands.{Around, Stands};

    /// Request n has one more name, if it is open, was given up and not answered yet, or has one.
    /// Else nothing changes. Where 18,446,744,073,709,551,615 names are bound nothing is said. It
    /// takes no memory.
    #[inline(always)]
    pub fn keep(&mut self, n: u64)
        ensures { (around : Around) (b : machine.Bus) → Stands around self.old b
            → KeepsAs around self.new n b }
    {
        self.slots.keep(n);
    }

    /// Request n has one name less. Where it has none nothing changes. It takes no memory.
    pub fn loose(&mut self, n: u64)
        ensures { (around : Around) (b : machine.Bus) → Stands around self.old b
            → Stands (without_name n around) self.new b }
    {
        self.slots.loose(n);
    }

    /// How request n ended. None comes where it is open, and where nothing asks for it: it has no
    /// name, isn't open, and wasn't given up or was answered since.
    pub fn outcome(&self, n: u64) -> Option<&Outcome>
        ensures { (around : Around) (b : machine.Bus) → Stands around self.now b
            → option_copied result ≡ told_outcome around.names n b }
    {
        self.slots.get(n)?.outcome.as_ref()
    }

    /// Where request n was made, and its type. None comes exactly where nothing asks for it: it has
    /// no name, isn't open, and wasn't given up or was answered since.
    pub fn about(&self, n: u64) -> Option<About>
        ensures { (around : Around) (b : machine.Bus) → Stands around self.now b
            → result ≡ option_map about_of (asked_for around.names n b) }
    {
        let slot = self.slots.get(n)?;
        Some(About {
            connection: slot.connection,
            side: slot.side,
            kind: slot.kind,
        })
    }
}
