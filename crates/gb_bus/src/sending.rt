//! The bus: requests and replies are sent.

ghost use Rattle.std.specs.Prelude.{◌≡◌, Some, false, IfOk, OnOk, IsErrOf};
ghost use Rattle.gb_machine.specs.Bus as machine;
ghost use Rattle.gb_machine.specs.Sending.{draft};
ghost use Rattle.gb_bus.specs.Taking.{reply_item};

use crate::connection::Draft;
use crate::ends::other_side;
use crate::queue::Item;
use crate::slots::Slot;
use crate::{Asked, Bus, SendFault, Sent};
use gb_base::{Bytes, OutOfMemory, Side, sum};

impl Bus {
    ghost use Rattle.gb_bus.specs.Delivering.{RepliesAs};
    ghost use Rattle.gb_bus.specs.Sending.{MadeWhere, SendsAs, next_slot, slot_on};
    ghost use Rattle.gb_bus.specs.Stands.{Around, Stands};

    /// Makes a request on connection k. `deadline` is in milliseconds. A unidirectional request has
    /// identifier 0, and has ended as sent at once. NoConnection comes where the connection isn't
    /// live, and NoLabel for another request where all identifiers of the side are in use. After
    /// want of memory nothing is said. It also comes where no number is left.
    pub fn send(
        &mut self,
        k: u64,
        side: Side,
        kind: u8,
        payload: &[u8],
        deadline: u64,
        oneway: bool,
    ) -> Result<Sent, SendFault>
        ensures step { (around : Around) (b : machine.Bus) → Stands around self.old b
            → SendsAs around self.new (draft k side kind payload.now deadline oneway) b result }
        ensures live { MadeWhere self.old k side oneway result }
        ensures unchanged { IsErrOf result SendFault.NoLabel → self.new ≡ self.old }
        ensures still { IsErrOf result SendFault.NoConnection → self.new ≡ self.old }
        ensures placed { IfOk result (λ made. oneway ≡ false
            → slot_on self.new made.number ≡ Some (next_slot self.old)) }
    {
        let number = sum(self.slots.count(), 1)?;
        let draft = Draft {
            side,
            number,
            kind,
            payload,
            deadline,
            oneway,
        };
        let (label, lost) = self.connections.ask(self.alloc, k, &draft)?;
        let slot = Slot {
            number,
            connection: k,
            side,
            kind,
            deadline,
            outcome: None,
            awaited: true,
            names: 0,
        };
        self.slots.add(slot, oneway)?;
        Ok(Sent {
            number,
            label,
            lost,
        })
    }

    /// Answers a request that was delivered at `side` of a connection: the reply goes toward the
    /// side that asked, and is lost where the connection isn't wired. Nothing is said after want of
    /// memory, nor where no such request was delivered there and waits for its answer.
    pub fn reply(
        &mut self,
        k: u64,
        side: Side,
        asked: &Asked,
        code: u8,
        payload: &[u8],
    ) -> Result<(), OutOfMemory>
        ensures step { OnOk result
            (RepliesAs self.old self.new k side asked.now code payload.now) }
    {
        let payload = Bytes::from_slice(self.alloc, payload)?;
        let answer = reply_item(asked, code, payload);
        self.connections.push(k, other_side(side), answer)?;
        Ok(())
    }
}

/// The reply to a request, as it waits in a queue.
#[inline]
fn reply_item(asked: &Asked, code: u8, payload: Bytes) -> Item
    ensures { result ≡ reply_item asked.now code payload }
{
    let label = asked.label;
    match asked.number {
        Some(number) => Item::Reply {
            number,
            label,
            result: code,
            payload,
        },
        None => Item::RawReply {
            label,
            result: code,
            payload,
        },
    }
}
