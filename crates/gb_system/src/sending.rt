//! Requests that a script sends.

ghost use Rattle.std.specs.Prelude.{◌≡◌, [], IsSome, None, OnOk};
ghost use Rattle.gb_base.specs.declared.end.Side.TheVariants as side;
ghost use Rattle.gb_base.specs.declared.event.Event.TheVariants as event;
ghost use Rattle.gb_formats.specs.ValidEvents.{IsValid};
ghost use Rattle.gb_machine.specs.Labels.{next_label};
ghost use Rattle.gb_machine.specs.LineActions.{sends_on};
ghost use Rattle.gb_machine.specs.Names.{named};
ghost use Rattle.gb_machine.specs.State.{State};
ghost use Rattle.gb_laws.specs.Possible.{IsAskable};
ghost use Rattle.gb_system.specs.Doing.{Does, EventAs};
ghost use Rattle.gb_system.specs.Sending.{GoesAs, LeadsAs};
ghost use Rattle.gb_system.specs.Stands.{PartiesStand, PartsStand};

use crate::asking::Draft;
use crate::key::Key;
use crate::parties::Parties;
use crate::stop::Stop;
use crate::svc::is_reserved;
use gb_base::{End, Entries, Name, OutOfMemory, Refusal, Side};
use gb_bridge_payload::MOST_PAYLOAD;
use gb_host::SVC;

impl Parties {
    /// Sends a request to the supervisory controller or to a CPort of a module. The timeout
    /// is in milliseconds.
    pub fn send(
        &mut self,
        name: &Name,
        to: End,
        kind: u8,
        payload: &[u8],
        timeout: u32,
        told: &mut Entries,
    ) -> Result<(), Stop>
        requires { IsValid (event.Send name.now to kind payload.now timeout) }
        ensures step { (s : State) → PartiesStand self.old s
            → EventAs self.new s (event.Send name.now to kind payload.now timeout) told.old
            told.new result }
    {
        let name = Key::of(name)?;
        let connection = self.way(&name, to, kind, payload)?;
        let wait = u64::from(timeout);
        self.send_on(name, connection, kind, payload, wait, told)?;
        Ok(())
    }

    /// The application processor sends a request on a connection, and the request gets a free
    /// name. The timeout is in milliseconds. Out of memory also comes where its deadline has no
    /// number of 64 bits.
    #[inline(always)]
    pub fn send_on(
        &mut self,
        name: Key,
        connection: u64,
        kind: u8,
        payload: &[u8],
        timeout: u64,
        told: &mut Entries,
    ) -> Result<(), OutOfMemory>
        ensures step { OnOk result ((s : State) → PartsStand [] self.old s
            → named name s.names ≡ None → IsAskable kind payload.now
            → IsSome (next_label connection side.Ap s.bus)
            → Does self.new (sends_on name connection kind payload.now timeout) s told.old
            told.new) }
    {
        let deadline = self.deadline(timeout)?;
        let q = Draft {
            connection,
            side: Side::Ap,
            kind,
            payload,
            deadline,
            oneway: false,
        };
        if let Some(number) = self.ask(&q, told)? {
            self.names.bind(name, number)?;
            self.bus.keep(number);
        }
        Ok(())
    }

    /// The connection on which a request is sent, or why it isn't.
    fn way(&self, name: &Key, to: End, kind: u8, payload: &[u8]) -> Result<u64, Refusal>
        ensures step { (s : State) → PartiesStand self.now s
            → GoesAs s name.now to kind payload.now result }
    {
        if self.names.get(name).is_some() {
            return Err(Refusal::Occupied);
        }
        let connection = self.way_to(to, kind)?;
        if payload.len() > MOST_PAYLOAD {
            return Err(Refusal::TooLarge);
        }
        if self.bus.spent(connection, Side::Ap) {
            return Err(Refusal::NoLabel);
        }
        Ok(connection)
    }

    /// The connection to an end to which a request of this type is sent, or why none is.
    fn way_to(&self, to: End, kind: u8) -> Result<u64, Refusal>
        ensures step { (s : State) → PartiesStand self.now s → LeadsAs s.host to kind result }
    {
        match to {
            End::Svc if is_reserved(kind) => Err(Refusal::Unsupported),
            End::Svc => Ok(SVC),
            End::Module { intf, cport } => {
                let connection = self.host.may_send(intf, cport)?;
                if self.host.keeps(intf, cport, kind) {
                    return Err(Refusal::Unsupported);
                }
                Ok(connection)
            }
            End::Ap(_) => Err(Refusal::NoConnection),
        }
    }
}
