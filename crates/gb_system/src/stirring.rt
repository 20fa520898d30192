//! What comes to modules from outside.

ghost use Rattle.gb_machine.specs.State.{State};
ghost use Rattle.gb_module.specs.Stirring.{IsStir};
ghost use Rattle.gb_system.specs.Doing.{EventAs};
ghost use Rattle.gb_system.specs.Plugging.{event_of_stir};
ghost use Rattle.gb_system.specs.Stands.{PartiesStand};

use crate::parties::Parties;
use crate::stop::Stop;
use gb_base::{End, Entries, Refusal};
use gb_module::{Stir, StirFault};

impl Parties {
    /// Something comes from outside to the device of a CPort: the module's own requests are made
    /// where the CPort is wired.
    pub fn stir(&mut self, intf: u8, cport: u16, what: Stir, told: &mut Entries) -> Result<(), Stop>
        requires { IsStir what }
        ensures step { (s : State) → PartiesStand self.old s
            → EventAs self.new s (event_of_stir intf cport what) told.old told.new result }
    {
        let own = match self.modules.stir(intf, cport, what) {
            Ok(Some(own)) => own,
            Ok(None) => return Err(Stop::Refused(Refusal::NoInterface)),
            Err(StirFault::NoCport) => return Err(Stop::Refused(Refusal::NoCport)),
            Err(StirFault::Memory(refused)) => return Err(Stop::Memory(refused)),
        };
        if let Some(connection) = self.bus.named(End::Module { intf, cport }) {
            self.far_ask_all(connection, own.items(), told)?;
        }
        Ok(())
    }
}
