//! Bridge lines: requests in the words of a protocol.

ghost use Rattle.std.specs.Prelude.{◌≡◌, length, take};
ghost use Rattle.gb_base.specs.declared.event.Event.TheVariants as event;
ghost use Rattle.gb_formats.specs.Results.{most_payload};
ghost use Rattle.gb_formats.specs.ValidEvents.{HasForm, IsValid};
ghost use Rattle.gb_machine.specs.State.{State};
ghost use Rattle.gb_system.specs.Bridging.{BridgesTo};
ghost use Rattle.gb_system.specs.Doing.{EventAs};
ghost use Rattle.gb_system.specs.Stands.{PartiesStand};

use crate::asking::DEFAULT_TIMEOUT;
use crate::key::Key;
use crate::parties::Parties;
use crate::stop::Stop;
use gb_base::{BridgeAsk, Bridged, Entries, Name, Refusal, Side};

/// The request of a bridge line, whose payload stands at the front of a buffer.
#[derive(Clone, Copy, Debug)]
pub struct Bridging {
    /// The connection on which it is sent.
    pub connection: u64,
    /// Its type and the length of its payload.
    pub request: Bridged,
}

impl Parties {
    /// A bridge line becomes a request to a CPort of a module, and takes the credits of the bytes
    /// that it sends to a UART. Its payload is made in `room`.
    pub fn bridge(
        &mut self,
        name: &Name,
        intf: u8,
        cport: u16,
        ask: &BridgeAsk,
        room: &mut [u8],
        told: &mut Entries,
    ) -> Result<(), Stop>
        requires valid { IsValid (event.Bridge name.now intf cport ask.now) }
        requires room { length room.old ≡ most_payload }
        ensures step { (s : State) → PartiesStand self.old s
            → EventAs self.new s (event.Bridge name.now intf cport ask.now) told.old told.new
            result }
    {
        let name = Key::of(name)?;
        let Bridging {
            connection,
            request,
        } = self.bridge_way(&name, intf, cport, ask, room)?;
        self.host.sent(connection, ask);
        let payload = front(room, request.len);
        self.send_on(
            name,
            connection,
            request.kind,
            payload,
            DEFAULT_TIMEOUT,
            told,
        )?;
        Ok(())
    }

    /// The request of a bridge line, with its payload at the front of `room`, or why it isn't sent.
    fn bridge_way(
        &self,
        name: &Key,
        intf: u8,
        cport: u16,
        ask: &BridgeAsk,
        room: &mut [u8],
    ) -> Result<Bridging, Refusal>
        requires room { length room.old ≡ most_payload }
        requires form { HasForm ask.now }
        ensures step { (s : State) → PartiesStand self.now s
            → BridgesTo s name.now intf cport ask.now room.old room.new result }
    {
        if self.names.get(name).is_some() {
            return Err(Refusal::Occupied);
        }
        let connection = self.host.may_send(intf, cport)?;
        let request = self.host.bridge(connection, ask, room)?;
        if self.bus.spent(connection, Side::Ap) {
            return Err(Refusal::NoLabel);
        }
        Ok(Bridging {
            connection,
            request,
        })
    }
}

/// The front of some bytes, all of them where they aren't longer.
fn front(bytes: &[u8], len: usize) -> &[u8]
    ensures { result.now ≡ take len bytes.now }
{
    if len < bytes.len() {
        &bytes[..len]
    } else {
        bytes
    }
}
