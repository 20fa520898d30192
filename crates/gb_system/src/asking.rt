//! Requests that are made, and told.

ghost use Rattle.std.specs.Prelude.{◌≡◌, [], ◌∷◌, ◌++◌, false, IfOk, OnOk, option_map};
ghost use Rattle.gb_base.specs.declared.bridge.Reading.TheVariants as reading;
ghost use Rattle.gb_base.specs.declared.end.Side.TheVariants as side;
ghost use Rattle.gb_base.specs.declared.entry.Entry.TheVariants as entry;
ghost use Rattle.gb_base.specs.declared.outcome.Outcome.TheVariants as outcome;
ghost use Rattle.gb_bus.specs.Sending.{label_on};
ghost use Rattle.gb_machine.specs.Asking.{asks};
ghost use Rattle.gb_machine.specs.Bus.{next_number};
ghost use Rattle.gb_machine.specs.OwnAsking.{far_asks, far_asks_all};
ghost use Rattle.gb_machine.specs.State.{State};
ghost use Rattle.gb_system.specs.Acting.{AreAskable};
ghost use Rattle.gb_laws.specs.Possible.{IsAskable};
ghost use Rattle.gb_system.specs.Doing.{Does};
ghost use Rattle.gb_system.specs.Drafts.{ask_told, draft_of, end_at, own_ask};
ghost use Rattle.gb_system.specs.Stands.{PartsStand};

use crate::message::{request_bytes, size_of};
use crate::parties::Parties;
use gb_base::{End, Entries, Entry, OutOfMemory, Outcome, OwnAsk, Reading, Side};
use gb_bus::{SendFault, Sent, other_side};
use std::alloc::Global;

/// How long a request waits for its answer where nothing else is said, in milliseconds.
pub const DEFAULT_TIMEOUT: u64 = 1000;

/// What a party asks for.
#[derive(Clone, Copy, Debug)]
pub struct Draft<'a> {
    /// The connection.
    pub connection: u64,
    /// The side of it that asks.
    pub side: Side,
    /// The type.
    pub kind: u8,
    /// The payload.
    pub payload: &'a [u8],
    /// When it is given up, in milliseconds.
    pub deadline: u64,
    /// It gets no response.
    pub oneway: bool,
}

impl Parties {
    /// Makes a request and tells it, where its connection is live and an identifier is left.
    /// Answers its number. Requests of the application processor get a response.
    pub fn ask(&mut self, q: &Draft<'_>, told: &mut Entries) -> Result<Option<u64>, OutOfMemory>
        ensures number { IfOk result (λ n. (s : State) → PartsStand [] self.old s
            → n ≡ option_map (λ l. next_number s.bus) (label_on (draft_of q.now) s.bus)) }
        ensures step { OnOk result ((s : State) → PartsStand [] self.old s
            → IsAskable q.now.kind q.now.payload.now
            → (q.now.side ≡ side.Ap → q.now.oneway ≡ false)
            → Does self.new (asks (draft_of q.now)) s told.old told.new) }
    {
        let Some(ends) = self.bus.ends(q.connection) else {
            return Ok(None);
        };
        let sent = match self.bus.send(
            q.connection,
            q.side,
            q.kind,
            q.payload,
            q.deadline,
            q.oneway,
        ) {
            Ok(sent) => sent,
            Err(SendFault::NoLabel) => return Ok(None),
            Err(SendFault::NoConnection) => return Ok(None),
            Err(SendFault::Memory(refused)) => return Err(refused),
        };
        told.push(asked(self.alloc, q, ends, sent)?)?;
        if q.oneway {
            tell_sent(sent.number, told)?;
        }
        Ok(Some(sent.number))
    }

    /// A module or the supervisory controller makes a request of its own, where its connection is
    /// wired and an identifier is left.
    pub fn far_ask(
        &mut self,
        connection: u64,
        kind: u8,
        payload: &[u8],
        oneway: bool,
        told: &mut Entries,
    ) -> Result<(), OutOfMemory>
        ensures step { OnOk result ((s : State) → PartsStand [] self.old s
            → IsAskable kind payload.now
            → Does self.new (far_asks connection (own_ask kind payload.now oneway)) s told.old
            told.new) }
    {
        if self.bus.is_wired(connection) {
            let deadline = self.deadline(DEFAULT_TIMEOUT)?;
            let q = Draft {
                connection,
                side: Side::Far,
                kind,
                payload,
                deadline,
                oneway,
            };
            self.ask(&q, told)?;
        }
        Ok(())
    }

    /// Requests of its own, one after another.
    pub fn far_ask_all(
        &mut self,
        connection: u64,
        own: &[OwnAsk],
        told: &mut Entries,
    ) -> Result<(), OutOfMemory>
        ensures step { OnOk result ((s : State) → PartsStand [] self.old s
            → AreAskable own.now
            → Does self.new (far_asks_all connection own.now) s told.old told.new) }
    {
        for ask in own {
            self.far_ask(connection, ask.kind, ask.payload.items(), ask.oneway, told)?;
        }
        Ok(())
    }
}

/// A request was made on a connection between these ends.
#[inline(always)]
fn asked(alloc: Global, q: &Draft<'_>, ends: (u16, End), sent: Sent) -> Result<Entry, OutOfMemory>
    ensures { IfOk result (λ e. IsAskable q.now.kind q.now.payload.now → e ≡ ask_told q.now.side
        ends sent.number sent.label q.now.kind q.now.payload.now sent.lost) }
{
    Ok(Entry::Asked {
        number: sent.number,
        from: end_at(q.side, ends),
        to: end_at(other_side(q.side), ends),
        kind: q.kind,
        size: size_of(q.payload),
        bytes: request_bytes(alloc, sent.label, q.kind, q.payload)?,
        lost: sent.lost,
    })
}

/// A request that gets no response was sent, and has ended so.
#[inline(always)]
fn tell_sent(number: u64, told: &mut Entries) -> Result<(), OutOfMemory>
    ensures { OnOk result
        (told.new ≡ told.old ++ entry.Ended number outcome.Sent reading.Nothing ∷ []) }
{
    told.push(Entry::Ended {
        number,
        outcome: Outcome::Sent,
        reading: Reading::Nothing,
    })
}

/// The end of a side of a connection between these ends.
pub fn end_at(side: Side, ends: (u16, End)) -> End
    ensures { result ≡ end_at side ends }
{
    match side {
        Side::Ap => End::Ap(ends.0),
        Side::Far => ends.1,
    }
}
