//! What is done to the request of a name, and to names.

ghost use Rattle.std.specs.Prelude.{List};
ghost use Rattle.gb_base.specs.declared.entry.Entry.{Entry};
ghost use Rattle.gb_base.specs.declared.event.Event.TheVariants as event;
ghost use Rattle.gb_machine.specs.State.{State};
ghost use Rattle.gb_system.specs.Doing.{EventAs};
ghost use Rattle.gb_system.specs.Stands.{PartiesStand};

use crate::key::Key;
use crate::parties::Parties;
use crate::stop::Stop;
use gb_base::{Entries, Name, Outcome, Refusal};
use gb_bus::AlreadyEnded;

impl Parties {
    /// Gives up the request that a name names.
    pub fn cancel(&mut self, name: &Name, told: &mut Entries) -> Result<(), Stop>
        ensures step { (s : State) → PartiesStand self.old s
            → EventAs self.new s (event.Cancel name.now) told.old told.new result }
    {
        let name = Key::of(name)?;
        let Some(number) = self.names.get(&name) else {
            return Err(Stop::Refused(Refusal::NoName));
        };
        match self.bus.cancel(number) {
            Ok(()) => {
                self.lose(number, Outcome::Cancelled, told)?;
                Ok(())
            }
            Err(AlreadyEnded) => Err(Stop::Refused(Refusal::AlreadyEnded)),
        }
    }

    /// Gives the request of a name another name too.
    pub fn copy_name(&mut self, from: &Name, to: &Name) -> Result<(), Stop>
        ensures step { (s : State) (told : List Entry) → PartiesStand self.old s
            → EventAs self.new s (event.Copy from.now to.now) told told result }
    {
        let from = Key::of(from)?;
        let to = Key::of(to)?;
        let Some(number) = self.names.get(&from) else {
            return Err(Stop::Refused(Refusal::NoName));
        };
        if self.names.get(&to).is_some() {
            return Err(Stop::Refused(Refusal::Occupied));
        }
        self.names.bind(to, number)?;
        self.bus.keep(number);
        Ok(())
    }

    /// Frees a name.
    pub fn forget_name(&mut self, name: &Name) -> Result<(), Stop>
        ensures step { (s : State) (told : List Entry) → PartiesStand self.old s
            → EventAs self.new s (event.Forget name.now) told told result }
    {
        let name = Key::of(name)?;
        let Some(number) = self.names.free(&name) else {
            return Err(Stop::Refused(Refusal::NoName));
        };
        self.bus.loose(number);
        Ok(())
    }
}
