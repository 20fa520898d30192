//! Requests that are held where they are delivered, and answered later.

ghost use Rattle.std.specs.Prelude.{◌≡◌, [], List, OnOk};
ghost use Rattle.gb_base.specs.declared.entry.Entry.{Entry};
ghost use Rattle.gb_base.specs.declared.event.Event.TheVariants as event;
ghost use Rattle.gb_formats.specs.ValidEvents.{IsValid};
ghost use Rattle.gb_invariants.specs.Facts.{Loose};
ghost use Rattle.gb_machine.specs.Arriving.{is_held};
ghost use Rattle.gb_machine.specs.Bus.{Connection};
ghost use Rattle.gb_machine.specs.State.{State};
ghost use Rattle.gb_system.specs.Doing.{EventAs};
ghost use Rattle.gb_system.specs.Holding.{AsksAt, ServesHeldAt, WiredAs};
ghost use Rattle.gb_system.specs.Serving.{side_of};
ghost use Rattle.gb_system.specs.Stands.{PartiesStand, PartsStand};

use crate::held::HeldRequest;
use crate::parties::Parties;
use crate::stop::Stop;
use gb_base::{Bytes, End, Entries, Entry, OutOfMemory, Refusal};
use gb_bus::Asked;

impl Parties {
    /// Requests that are delivered to a module's CPort are held from now on.
    pub fn hold(&mut self, intf: u8, cport: u16) -> Result<(), Stop>
        ensures step { (s : State) (told : List Entry) → PartiesStand self.old s
            → EventAs self.new s (event.Hold intf cport) told told result }
    {
        let connection = self.wired_at(intf, cport)?;
        self.holds.add(connection)?;
        Ok(())
    }

    /// Serves the request at a place, from 1, among those that are held at a module's CPort, the
    /// oldest being the first.
    pub fn answer_held(
        &mut self,
        intf: u8,
        cport: u16,
        place: u32,
        told: &mut Entries,
    ) -> Result<(), Stop>
        requires { IsValid (event.Answer intf cport place) }
        ensures step { (s : State) → PartiesStand self.old s
            → EventAs self.new s (event.Answer intf cport place) told.old told.new result }
    {
        let connection = self.wired_at(intf, cport)?;
        let Some(request) = self.held.take(connection, place) else {
            return Err(Stop::Refused(Refusal::NotHeld));
        };
        self.serve_held(connection, End::Module { intf, cport }, &request, told)?;
        Ok(())
    }

    /// Holds a request that was delivered at an end where its connection has the hold mark, and
    /// serves it elsewhere.
    pub fn ask_at(
        &mut self,
        connection: u64,
        at: End,
        asked: Asked,
        payload: Bytes,
        told: &mut Entries,
    ) -> Result<(), OutOfMemory>
        ensures step { OnOk result
            (AsksAt at self.old self.new connection asked payload told.old told.new) }
    {
        if self.is_held(connection, at) {
            self.held.push(connection, HeldRequest { asked, payload })?;
            told.push(Entry::Held {
                number: asked.number,
            })?;
            return Ok(());
        }
        self.serve(connection, at, &asked, payload.items(), told)?;
        Ok(())
    }

    /// Serves a request that was held on a connection, at an end, or drops it where the
    /// end takes nothing.
    fn serve_held(
        &mut self,
        connection: u64,
        at: End,
        request: &HeldRequest,
        told: &mut Entries,
    ) -> Result<(), OutOfMemory>
        ensures step { OnOk result
            (ServesHeldAt at self.old self.new connection request.now told.old told.new) }
    {
        if self.takes(at) {
            let payload = request.payload.items();
            self.serve(connection, at, &request.asked, payload, told)?;
            return Ok(());
        }
        told.push(Entry::Dropped {
            number: request.asked.number,
            reply: false,
        })?;
        Ok(())
    }

    /// Requests that come on a connection to an end are held.
    fn is_held(&self, connection: u64, at: End) -> bool
        ensures { (loose : List Loose) (s : State) (c : Connection) → PartsStand loose self.now s
            → c.number ≡ connection → result ≡ is_held (side_of at) c s }
    {
        match at {
            End::Ap(_) => false,
            End::Svc | End::Module { .. } => self.holds.has(connection),
        }
    }

    /// The wired connection at a module's CPort, or why a line that needs one is refused.
    pub fn wired_at(&self, intf: u8, cport: u16) -> Result<u64, Refusal>
        ensures { (s : State) → PartsStand [] self.now s → WiredAs s intf cport result }
    {
        if self.modules.at(intf).is_none() {
            return Err(Refusal::NoInterface);
        }
        match self.bus.named(End::Module { intf, cport }) {
            Some(connection) => Ok(connection),
            None => Err(Refusal::NoConnection),
        }
    }
}
