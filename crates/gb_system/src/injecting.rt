//! Raw bytes, which a script puts in place of a module's messages.

ghost use Rattle.gb_base.specs.declared.event.Event.TheVariants as event;
ghost use Rattle.gb_machine.specs.State.{State};
ghost use Rattle.gb_system.specs.Doing.{EventAs};
ghost use Rattle.gb_system.specs.Stands.{PartiesStand};

use crate::parties::Parties;
use crate::stop::Stop;
use gb_base::{Bytes, End, Entries, Entry, Refusal};
use gb_bus::LONGEST_RAW;

impl Parties {
    /// Raw bytes go from a module's CPort to the application processor.
    pub fn inject(
        &mut self,
        intf: u8,
        cport: u16,
        bytes: &[u8],
        told: &mut Entries,
    ) -> Result<(), Stop>
        ensures step { (s : State) → PartiesStand self.old s
            → EventAs self.new s (event.Inject intf cport bytes.now) told.old told.new result }
    {
        let connection = self.wired_at(intf, cport)?;
        if bytes.len() > LONGEST_RAW {
            return Err(Stop::Refused(Refusal::TooLarge));
        }
        let Some(ends) = self.bus.ends(connection) else {
            return Ok(());
        };
        self.bus.inject(connection, bytes)?;
        told.push(Entry::Raw {
            from: End::Module { intf, cport },
            to: End::Ap(ends.0),
            size: bytes.len() as u16,
            bytes: Bytes::from_slice(self.alloc, bytes)?,
        })?;
        Ok(())
    }
}
