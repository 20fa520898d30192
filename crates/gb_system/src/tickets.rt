//! The tickets: a line for each name that names a request.

ghost use Rattle.std.specs.Prelude.{◌≡◌, ◌++◌, OnOk};
ghost use Rattle.std.specs.String.{string_bytes};
ghost use Rattle.gb_bus.specs.Stands.{Around, Stands};
ghost use Rattle.gb_machine.specs.Bus as machine;
ghost use Rattle.gb_machine.specs.Shared.{tickets_of, tickets_text};
ghost use Rattle.gb_machine.specs.State.{State};
ghost use Rattle.gb_system.specs.Showing.{AreTold};
ghost use Rattle.gb_system.specs.Stands.{PartiesStand};

use crate::names::Names;
use crate::parties::Parties;
use gb_base::OutOfMemory;
use gb_bus::Bus;
use gb_report::append_ticket;
use std::alloc::Global;

impl Parties {
    /// Appends a line for each name, in order of requester and word, with the number of its request
    /// and how that ended. After a refusal a front of these lines may stand in `out`.
    pub fn append_tickets(&self, out: &mut String) -> Result<(), OutOfMemory>
        ensures { OnOk result ((s : State) → PartiesStand self.now s
            → string_bytes out.new ≡ string_bytes out.old ++ tickets_of s) }
    {
        append_names(self.alloc, &self.bus, &self.names, out)?;
        Ok(())
    }
}

/// Appends the line of each name.
fn append_names(
    alloc: Global,
    bus: &Bus,
    names: &Names,
    out: &mut String,
) -> Result<(), OutOfMemory>
    ensures { OnOk result ((around : Around) (b : machine.Bus) → Stands around bus.now b
        → AreTold around.names names.now b
        → string_bytes out.new ≡ string_bytes out.old ++ tickets_text b names.now) }
{
    let ordered = names.in_order(alloc)?;
    for (name, number) in &ordered {
        append_ticket(name.name(), *number, bus.outcome(*number), out)?;
    }
    Ok(())
}
