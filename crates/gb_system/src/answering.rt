//! Requests that are delivered, and their answers.

ghost use Rattle.std.specs.Prelude.{◌≡◌, ◌≤◌, ◌<◌, IfOk, OnOk, length};
ghost use Rattle.gb_bus.specs.Delivering.{MayReply};
ghost use Rattle.gb_formats.specs.Results.{most_payload};
ghost use Rattle.gb_machine.specs.Bus.{Connection, Item};
ghost use Rattle.gb_machine.specs.Responding.{replies};
ghost use Rattle.gb_machine.specs.Serving.{answer};
ghost use Rattle.gb_machine.specs.State.{State};
ghost use Rattle.gb_system.specs.Doing.{Does};
ghost use Rattle.gb_system.specs.Drafts.{IsUpon, reply_told};
ghost use Rattle.gb_system.specs.Serving.{only};
ghost use Rattle.gb_system.specs.Stands.{PartsStand};

use crate::asking::end_at;
use crate::message::{response_bytes, size_of};
use crate::parties::Parties;
use gb_base::{End, Entries, Entry, OutOfMemory, Side};
use gb_bus::{Asked, other_side};
use std::alloc::Global;

impl Parties {
    /// Answers a request that was delivered at a side of a connection, and tells the reply.
    pub fn answer(
        &mut self,
        connection: u64,
        side: Side,
        asked: &Asked,
        code: u8,
        payload: &[u8],
        told: &mut Entries,
    ) -> Result<(), OutOfMemory>
        ensures step { OnOk result ((s : State) (c : Connection) (item : Item)
            → PartsStand (only connection side item) self.old s → IsUpon connection s.bus c
            → (may : MayReply asked.now s.bus item) → length payload.now ≤ most_payload
            → Does self.new (replies side c may.request (answer code payload.now)) s told.old
            told.new) }
    {
        let Some(ends) = self.bus.ends(connection) else {
            return Ok(());
        };
        self.bus.reply(connection, side, asked, code, payload)?;
        told.push(replied(self.alloc, side, ends, asked, code, payload)?)?;
        Ok(())
    }
}

/// A side of a connection between these ends answered a request.
#[inline(always)]
fn replied(
    alloc: Global,
    side: Side,
    ends: (u16, End),
    asked: &Asked,
    code: u8,
    payload: &[u8],
) -> Result<Entry, OutOfMemory>
    ensures { IfOk result (λ e. asked.now.kind < 128 → length payload.now ≤ most_payload
        → e ≡ reply_told side ends asked.now.number asked.now.label asked.now.kind code
        payload.now) }
{
    Ok(Entry::Replied {
        number: asked.number,
        from: end_at(side, ends),
        to: end_at(other_side(side), ends),
        result: code,
        size: size_of(payload),
        bytes: response_bytes(alloc, asked.label, asked.kind, code, payload)?,
    })
}
