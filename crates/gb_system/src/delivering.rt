//! Deliveries, and settles, which are deliveries in a fixed order.

ghost use Rattle.std.specs.Prelude.{◌≡◌, [], ◌∷◌, ◌++◌, List, OnOk};
ghost use Rattle.gb_base.specs.declared.entry.Entry.TheVariants as entry;
ghost use Rattle.gb_base.specs.declared.event.Event.TheVariants as event;
ghost use Rattle.gb_invariants.specs.Facts.{Loose};
ghost use Rattle.gb_machine.specs.Bus.{Connection};
ghost use Rattle.gb_machine.specs.Arriving.{reading_at};
ghost use Rattle.gb_machine.specs.Refusals.{is_end_unplugged};
ghost use Rattle.gb_machine.specs.State.{State};
ghost use Rattle.gb_system.specs.Arriving.{ReadsOn};
ghost use Rattle.gb_system.specs.Doing.{EventAs};
ghost use Rattle.gb_system.specs.Serving.{side_of};
ghost use Rattle.gb_system.specs.Stands.{PartiesStand, PartsStand};

use crate::ending::Over;
use crate::parties::Parties;
use crate::stop::Stop;
use gb_base::{End, Entries, Entry, OutOfMemory, Outcome, RawFault, Reading, Refusal, Side};
use gb_bus::{Arrival, Arrived, DeliverFault};
use gb_payload::SUCCESS;

impl Parties {
    /// Delivers the front message toward an end: takes it, handles it, and tells what comes of it.
    pub fn deliver(&mut self, at: End, told: &mut Entries) -> Result<(), Stop>
        ensures step { (s : State) → PartiesStand self.old s
            → EventAs self.new s (event.Deliver at) told.old told.new result }
    {
        if self.is_unplugged(at) {
            return Err(Stop::Refused(Refusal::NoInterface));
        }
        let takes = self.takes(at);
        let Arrived { connection, item } = match self.bus.deliver(at, takes) {
            Ok(arrived) => arrived,
            Err(DeliverFault::NoConnection) => return Err(Stop::Refused(Refusal::NoConnection)),
            Err(DeliverFault::QueueEmpty) => return Err(Stop::Refused(Refusal::QueueEmpty)),
            Err(DeliverFault::Memory(refused)) => return Err(Stop::Memory(refused)),
        };
        match item {
            Arrival::Ask { asked, payload } => {
                self.ask_at(connection, at, asked, payload, told)?
            }
            Arrival::Ended {
                number,
                kind,
                result: code,
                payload,
            } => {
                let reading = self.reading(connection, at, kind, code, payload.items());
                let outcome = Outcome::Answered {
                    result: code,
                    payload,
                };
                let over = Over {
                    number,
                    connection,
                    side: side_of(at),
                };
                self.end(over, outcome, reading, told)?;
            }
            Arrival::Late { number } => tell_late(number, told)?,
            Arrival::LateLabel { label } => tell_late_label(label, told)?,
            Arrival::UnknownLabel { label } => tell_unknown_label(label, told)?,
            Arrival::BadRaw { fault } => tell_bad_raw(fault, told)?,
            Arrival::Dropped { number, reply } => tell_dropped(number, reply, told)?,
        }
        Ok(())
    }

    /// Delivers at most so many messages, each toward the first end at which one waits.
    pub fn settle(&mut self, most: u16, told: &mut Entries) -> Result<(), Stop>
        ensures step { (s : State) → PartiesStand self.old s
            → EventAs self.new s (event.Settle most) told.old told.new result }
    {
        for count in 0..most {
            let Some(at) = self.bus.first() else {
                told.push(Entry::Settled { count })?;
                return Ok(());
            };
            self.deliver(at, told)?;
        }
        told.push(Entry::Settled { count: most })?;
        Ok(())
    }

    /// An end is that of a module that isn't plugged.
    fn is_unplugged(&self, at: End) -> bool
        ensures { (loose : List Loose) (s : State) → PartsStand loose self.now s
            → result ≡ is_end_unplugged at s }
    {
        match at {
            End::Module { intf, .. } => self.modules.at(intf).is_none(),
            End::Svc | End::Ap(_) => false,
        }
    }

    /// What an answer that came to an end says.
    fn reading(&self, connection: u64, at: End, kind: u8, code: u8, payload: &[u8]) -> Reading
        ensures { (loose : List Loose) (s : State) (c : Connection) → PartsStand loose self.now s
            → ReadsOn connection s c
            → result ≡ reading_at (side_of at) c kind code payload.now }
    {
        match at {
            End::Ap(_) if code == SUCCESS => self.host.reading(connection, kind, payload),
            _ => Reading::Nothing,
        }
    }
}

/// The side of a connection at which an end stands.
fn side_of(at: End) -> Side
    ensures { result ≡ side_of at }
{
    match at {
        End::Ap(_) => Side::Ap,
        End::Svc | End::Module { .. } => Side::Far,
    }
}

// Each entry that seldom comes is laid out in a function of its own, so that the others don't pay
// for its room.

/// An answer came to a request that had ended before.
#[inline(always)]
fn tell_late(number: u64, told: &mut Entries) -> Result<(), OutOfMemory>
    ensures { OnOk result (told.new ≡ told.old ++ entry.Late number ∷ []) }
{
    told.push(Entry::Late { number })
}

/// A response came whose identifier is that of a request which was given up.
#[inline(always)]
fn tell_late_label(label: u16, told: &mut Entries) -> Result<(), OutOfMemory>
    ensures { OnOk result (told.new ≡ told.old ++ entry.LateLabel label ∷ []) }
{
    told.push(Entry::LateLabel { label })
}

/// A response came whose identifier no request has.
#[inline(always)]
fn tell_unknown_label(label: u16, told: &mut Entries) -> Result<(), OutOfMemory>
    ensures { OnOk result (told.new ≡ told.old ++ entry.UnknownLabel label ∷ []) }
{
    told.push(Entry::UnknownLabel { label })
}

/// Raw bytes came that aren't one whole message.
#[inline(always)]
fn tell_bad_raw(fault: RawFault, told: &mut Entries) -> Result<(), OutOfMemory>
    ensures { OnOk result (told.new ≡ told.old ++ entry.BadRaw fault ∷ []) }
{
    told.push(Entry::BadRaw { fault })
}

/// A message came that the end doesn't take.
#[inline(always)]
fn tell_dropped(number: Option<u64>, reply: bool, told: &mut Entries) -> Result<(), OutOfMemory>
    ensures { OnOk result (told.new ≡ told.old ++ entry.Dropped number reply ∷ []) }
{
    told.push(Entry::Dropped { number, reply })
}
