//! The bus: messages are delivered.

ghost use Rattle.std.specs.Prelude.{◌≡◌, ◌≤◌, nat_lt, IfSome, IsErrOf, IsOk};
ghost use Rattle.gb_base.specs.Bytes.{AreFew};
ghost use Rattle.gb_machine.specs.Bus as machine;
ghost use Rattle.gb_bus.specs.Few.{HasMemory, ShowsFew, ShowsFewWhere, front_at};
ghost use Rattle.gb_bus.specs.Parts.{is_unclean};
ghost use Rattle.gb_bus.specs.Slots.{slot_at};
ghost use Rattle.gb_bus.specs.Taking.{dropped, open_kind, shown};

use crate::queue::Item;
use crate::{Arrival, Arrived, Asked, Bus, DeliverFault};
use gb_base::{Bytes, End, Side};
use gb_ops::Matched;
use gb_wire::RESPONSE;

impl Bus {
    ghost use Rattle.gb_bus.specs.Delivering.{DeliversAs};
    ghost use Rattle.gb_bus.specs.Moving.{
      AnswersTo,
      AnswersOpenAs,
      HandlesAs,
      LabelledAs,
      LabelsTo,
      EndsOpenAs,
      RawTakesAs,
      RepliesTo,
      TakesAs,
    };
    ghost use Rattle.gb_bus.specs.Stands.{Around, Stands};

    /// Takes the front message toward an end from its queue. An end that doesn't take messages
    /// drops it. A late answer frees the identifier of its request. A request is in no queue then:
    /// it is among those that may be answered. NoConnection comes where no wired connection names
    /// the end, and QueueEmpty where nothing waits there. Only a response of result 0 with more
    /// than 16 bytes takes memory, where it is taken.
    pub fn deliver(&mut self, at: End, takes: bool) -> Result<Arrived, DeliverFault>
        ensures step { (around : Around) (b : machine.Bus) → Stands around self.old b
            → DeliversAs around self.new at takes b result }
        ensures few { IfSome (front_at at self.old.connections) (ShowsFewWhere takes)
            → HasMemory result }
        ensures unchanged { IsErrOf result DeliverFault.NoConnection → self.new ≡ self.old }
        ensures still { IsErrOf result DeliverFault.QueueEmpty → self.new ≡ self.old }
    {
        let Some((connection, side)) = self.connections.place(at) else {
            return Err(DeliverFault::NoConnection);
        };
        let Some(item) = self.connections.pop(connection, side) else {
            return Err(DeliverFault::QueueEmpty);
        };
        let item = self.handled(connection, side, item, takes)?;
        Ok(Arrived { connection, item })
    }

    /// What a message brings to a side of a connection, which takes it or drops it.
    #[inline]
    fn handled(
        &mut self,
        k: u64,
        side: Side,
        item: Item,
        takes: bool,
    ) -> Result<Arrival, DeliverFault>
        ensures step { HandlesAs self.old self.new k side takes item result }
        ensures few { ShowsFewWhere takes item → IsOk result }
    {
        if takes {
            self.arrival(k, side, item)
        } else {
            let arrival = dropped(&item);
            drop(item);
            Ok(arrival)
        }
    }

    /// What a message brings to a side of a connection that takes it.
    #[inline]
    fn arrival(&mut self, k: u64, side: Side, item: Item) -> Result<Arrival, DeliverFault>
        ensures step { TakesAs self.old self.new k side item result }
        ensures few { ShowsFew item → IsOk result }
    {
        match item {
            Item::Ask {
                number,
                label,
                kind,
                payload,
            } => Ok(Arrival::Ask {
                asked: Asked {
                    number: Some(number),
                    label,
                    kind,
                },
                payload,
            }),
            Item::Reply {
                number,
                label,
                result: code,
                payload,
            } => self.response(k, side, number, label, code, payload),
            Item::Raw {
                label,
                kind,
                result: code,
                payload,
            } => self.raw(k, side, label, kind, code, payload),
            Item::BadRaw { fault } => Ok(Arrival::BadRaw { fault }),
            Item::RawReply {
                label,
                result: code,
                payload,
            } => self.labelled(k, side, label, code, payload),
        }
    }

    /// What a message that came as raw bytes brings: a request, or a response that goes
    /// by its identifier.
    #[inline]
    fn raw(
        &mut self,
        k: u64,
        side: Side,
        label: u16,
        kind: u8,
        code: u8,
        payload: Bytes,
    ) -> Result<Arrival, DeliverFault>
        ensures step { RawTakesAs (nat_lt kind 128) self.old self.new k side label kind code payload
            result }
        ensures few { (128 ≤ kind → AreFew (shown code payload)) → IsOk result }
    {
        if kind >= RESPONSE {
            return self.labelled(k, side, label, code, payload);
        }
        Ok(Arrival::Ask {
            asked: Asked {
                number: None,
                label,
                kind,
            },
            payload,
        })
    }

    /// What a response to request n brings. It goes by its number on a clean connection, and by its
    /// identifier on an unclean one.
    #[inline]
    fn response(
        &mut self,
        k: u64,
        side: Side,
        number: u64,
        label: u16,
        code: u8,
        payload: Bytes,
    ) -> Result<Arrival, DeliverFault>
        ensures step { RepliesTo (is_unclean k self.old.connections) self.old self.new k side number
            label code payload result }
        ensures few { AreFew (shown code payload) → IsOk result }
    {
        let (unclean, matched) = self.connections.responded(k, side, number, label);
        if unclean {
            self.by_label(matched, label, code, payload)
        } else {
            self.by_number(matched, number, code, payload)
        }
    }

    /// What a response brings that goes by its identifier alone. It belongs to the request which
    /// the identifier is in use for, and the identifier is free then.
    #[inline]
    fn labelled(
        &mut self,
        k: u64,
        side: Side,
        label: u16,
        code: u8,
        payload: Bytes,
    ) -> Result<Arrival, DeliverFault>
        ensures step { LabelledAs self.old self.new k side label code payload result }
        ensures few { AreFew (shown code payload) → IsOk result }
    {
        let matched = self.connections.matched(k, side, None, label);
        self.by_label(matched, label, code, payload)
    }

    /// What a response brings by what its identifier was in use for.
    #[inline]
    fn by_label(
        &mut self,
        matched: Matched,
        label: u16,
        code: u8,
        payload: Bytes,
    ) -> Result<Arrival, DeliverFault>
        ensures step { LabelsTo self.old self.new label code payload matched result }
        ensures few { AreFew (shown code payload) → IsOk result }
    {
        match matched {
            Matched::Open(number) => self.opened(number, label, code, payload),
            Matched::Late(number) => {
                self.slots.forget(number);
                Ok(Arrival::LateLabel { label })
            }
            Matched::Unknown => Ok(Arrival::UnknownLabel { label }),
        }
    }

    /// A request is answered that is open, since its identifier is in use so.
    #[inline]
    fn opened(
        &mut self,
        number: u64,
        label: u16,
        code: u8,
        payload: Bytes,
    ) -> Result<Arrival, DeliverFault>
        ensures step { EndsOpenAs self.old self.new number label code payload result }
        ensures few { AreFew (shown code payload) → IsOk result }
    {
        match self.open_kind(number) {
            Some(kind) => self.ended(number, kind, code, payload),
            None => Ok(Arrival::UnknownLabel { label }),
        }
    }

    /// What the answer to a request brings, by what its identifier was in use for. It ends its
    /// request where that is open, or else is late. It is late too where its request was over when
    /// its side was closed.
    #[inline]
    fn by_number(
        &mut self,
        matched: Matched,
        number: u64,
        code: u8,
        payload: Bytes,
    ) -> Result<Arrival, DeliverFault>
        ensures step { AnswersTo (open_kind (slot_at self.old.slots number)) self.old self.new
            number code payload matched result }
        ensures few { AreFew (shown code payload) → IsOk result }
    {
        match (matched, self.open_kind(number)) {
            (Matched::Open(_), Some(kind)) => self.ended(number, kind, code, payload),
            _ => {
                self.slots.forget(number);
                Ok(Arrival::Late { number })
            }
        }
    }

    /// An open request is answered.
    #[inline(always)]
    fn ended(
        &mut self,
        number: u64,
        kind: u8,
        code: u8,
        payload: Bytes,
    ) -> Result<Arrival, DeliverFault>
        ensures step { AnswersOpenAs self.old self.new number kind code payload result }
        ensures few { AreFew (shown code payload) → IsOk result }
    {
        let payload = if code == 0 {
            payload
        } else {
            drop(payload);
            Bytes::new(self.alloc)
        };
        self.slots.answer(self.alloc, number, code, &payload)?;
        Ok(Arrival::Ended {
            number,
            kind,
            result: code,
            payload,
        })
    }

    /// The type of request n, None where n isn't open.
    #[inline]
    fn open_kind(&self, n: u64) -> Option<u8>
        ensures { result ≡ open_kind (slot_at self.now.slots n) }
    {
        match self.slots.get(n) {
            Some(slot) if slot.outcome.is_none() => Some(slot.kind),
            _ => None,
        }
    }
}

/// What is told of a message that is dropped.
#[inline]
fn dropped(item: &Item) -> Arrival
    ensures { result ≡ dropped item.now }
{
    match item {
        Item::Ask { number, .. } => Arrival::Dropped {
            number: Some(*number),
            reply: false,
        },
        Item::Reply { number, .. } => Arrival::Dropped {
            number: Some(*number),
            reply: true,
        },
        Item::Raw { .. } | Item::BadRaw { .. } => Arrival::Dropped {
            number: None,
            reply: false,
        },
        Item::RawReply { .. } => Arrival::Dropped {
            number: None,
            reply: true,
        },
    }
}
