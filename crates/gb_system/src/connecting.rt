//! Connections that are opened and closed.

ghost use Rattle.std.specs.Prelude.{◌≡◌, List};
ghost use Rattle.gb_base.specs.declared.end.Side.TheVariants as side;
ghost use Rattle.gb_base.specs.declared.event.Event.TheVariants as event;
ghost use Rattle.gb_formats.specs.ValidEvents.{IsValid};
ghost use Rattle.gb_invariants.specs.Facts.{Loose};
ghost use Rattle.gb_machine.specs.Host.{control_of};
ghost use Rattle.gb_machine.specs.Lists.{holds_of};
ghost use Rattle.gb_machine.specs.Refusals.{has_no_label};
ghost use Rattle.gb_machine.specs.State.{State};
ghost use Rattle.gb_system.specs.Doing.{EventAs};
ghost use Rattle.gb_system.specs.Stands.{PartiesStand, PartsStand};

use crate::parties::Parties;
use crate::stop::Stop;
use gb_base::{Entries, HostEvent, Refusal, Side};
use gb_host::SVC;

impl Parties {
    /// The application processor connects a CPort of an interface.
    pub fn connect(&mut self, intf: u8, cport: u16, told: &mut Entries) -> Result<(), Stop>
        requires { IsValid (event.Connect intf cport) }
        ensures step { (s : State) → PartiesStand self.old s
            → EventAs self.new s (event.Connect intf cport) told.old told.new result }
    {
        self.host.may_connect(intf, cport)?;
        if self.bus.spent(SVC, Side::Ap) {
            return Err(Stop::Refused(Refusal::NoLabel));
        }
        self.notice(HostEvent::Connect { intf, cport }, told)?;
        Ok(())
    }

    /// The application processor closes the connection to a CPort of an interface.
    pub fn disconnect(&mut self, intf: u8, cport: u16, told: &mut Entries) -> Result<(), Stop>
        requires { IsValid (event.Disconnect intf cport) }
        ensures step { (s : State) → PartiesStand self.old s
            → EventAs self.new s (event.Disconnect intf cport) told.old told.new result }
    {
        self.host.may_disconnect(intf, cport)?;
        if self.is_control_spent(intf) {
            return Err(Stop::Refused(Refusal::NoLabel));
        }
        self.notice(HostEvent::Disconnect { intf, cport }, told)?;
        Ok(())
    }

    /// The application processor closes the connection to a CPort of an interface once its requests
    /// on it have ended.
    pub fn drain(&mut self, intf: u8, cport: u16, told: &mut Entries) -> Result<(), Stop>
        requires { IsValid (event.Drain intf cport) }
        ensures step { (s : State) → PartiesStand self.old s
            → EventAs self.new s (event.Drain intf cport) told.old told.new result }
    {
        let connection = self.host.may_drain(intf, cport)?;
        self.notice(HostEvent::Drain { intf, cport }, told)?;
        self.close_drained(connection, told)?;
        Ok(())
    }

    /// The Control CPort of an interface is connected, and no identifier is left on its connection.
    fn is_control_spent(&self, intf: u8) -> bool
        ensures { (loose : List Loose) (s : State) → PartsStand loose self.now s
            → result ≡ holds_of (λ k. has_no_label k side.Ap s) (control_of intf s.host) }
    {
        match self.host.control(intf) {
            Some(control) => self.bus.spent(control, Side::Ap),
            None => false,
        }
    }
}
