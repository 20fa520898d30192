//! The desk: what several threads share.

ghost use Rattle.std.specs.Prelude.{◌≡◌, ◌+◌, false, true, ◌<◌, ◌≤◌, [], ◌++◌, IfOk, length};
ghost use Rattle.gb_formats.specs.ValidEvents.{IsValid};
ghost use Rattle.gb_desk.specs.Calls.{tickets_given};
ghost use Rattle.gb_desk.specs.Rules.{all_parts};
ghost use Rattle.gb_machine.specs.AskingEvents.{asks};
ghost use Rattle.gb_machine.specs.Members.{IsIn};

use crate::journal::Journal;
use crate::seat::{ask, cut, enter, give_back, glue, keep, open};
use crate::slots::{SLOTS, Slots, Told};
use crate::stored::Stored;
use crate::ticket::{Opened, Ticket};
use crate::view::{Law, View};
use crate::{Busy, DeskFault, Pass, PassSpent};
use atomic_table::{Refused, Table};
use gb_base::{Entries, Event, OutOfMemory};
use gb_system::System;
use std::alloc::{AllocError, Global};
use std::marker::Brand;
use std::snapshot::Snapshot;

/// A system that several threads share by reference. Each event is one turn, and nobody waits.
pub struct Desk {
    pub(crate) table: Table<Stored, View, Snapshot<System>, Law, Global>,
    ghost words: { table.shared.table_id.words ≡ 257 },
    ghost slots: { table.shared.table_id.slots ≡ 1 },
}

// How many tickets came with an answer.
fn given(answer: &Result<Opened, DeskFault>) -> u32
    ensures { result ≡ tickets_given answer.now }
{
    match answer {
        Ok(opened) => u32::from(opened.ticket.is_some()),
        Err(_) => 0,
    }
}

impl Desk {
    ghost use Rattle.gb_desk.specs.Calls.{AsksAs, CallsAs, Closes, JoinedTo, RetainsAs, TellsAs};
    ghost use Rattle.gb_desk.specs.Calls.{first_view};
    ghost use Rattle.gb_desk.specs.Passes.{IsOf, known};
    ghost use Rattle.gb_desk.specs.Steps.{goes, stays};
    ghost use Rattle.gb_desk.specs.Tickets.{fewer};

    /// A desk over a system, with a pass that has all parts.
    pub fn new(alloc: Global, system: System) -> Result<(Desk, Pass), OutOfMemory>
        ensures own { IfOk result (λ r. IsOf r.0 r.1) }
        ensures first { IfOk result (λ r. known r.1 ≡ first_view system) }
    {
        let about = Snapshot::of(&system);
        let stored = Stored {
            system,
            journal: Journal::new(alloc),
            slots: Slots::new(),
            broken: None,
        };
        let mut slots = Vec::new(alloc);
        slots.push(stored)?;
        match Table::new(alloc, &[0u64; SLOTS + 1], slots, &about) {
            Ok((table, seat)) => {
                let pass = Pass {
                    seat,
                    parts: u32::MAX,
                    tickets: 0,
                };
                Ok((Desk { table }, pass))
            }
            // The kit's table answers only that its allocator refused.
            Err(Refused { slots: _ }) => Err(OutOfMemory::from(AllocError)),
        }
    }

    /// Does an event that isn't a send or a bridge line. The tag stands in the history with it.
    pub fn call(&self, pass: &mut Pass, by: u8, e: &Event) -> Result<Entries, DeskFault>
        requires own { IsOf self.now pass.old }
        requires valid { IsValid e.now }
        requires plain { asks e.now ≡ false }
        ensures own { IsOf self.now pass.new }
        ensures calls { CallsAs (known pass.old) by e.now result (known pass.new) }
        ensures parts { (known pass.new).parts ≡ (known pass.old).parts }
        ensures tickets { (known pass.new).tickets ≡ (known pass.old).tickets }
    {
        enter(&self.table.shared, &mut pass.seat, by, e)
    }

    /// Does a send or a bridge line, and gives a ticket of the request that it made. The tag stands
    /// in the history with it.
    pub fn open_request(&self, pass: &mut Pass, by: u8, e: &Event) -> Result<Opened, DeskFault>
        requires own { IsOf self.now pass.old }
        requires valid { IsValid e.now }
        requires asking { asks e.now ≡ true }
        ensures own { IsOf self.now pass.new }
        ensures opens { AsksAs (known pass.old) by e.now result (known pass.new) }
        ensures parts { (known pass.new).parts ≡ (known pass.old).parts }
    {
        let spent = pass.is_spent();
        let answer = open(&self.table.shared, &mut pass.seat, spent, by, e);
        pass.tickets += given(&answer);
        answer
    }

    /// How a ticket's request ended, None where it is open.
    pub fn outcome(&self, pass: &mut Pass, t: &Ticket) -> Result<Option<Told>, Busy>
        requires own { IsOf self.now pass.old }
        requires held { IsIn t.now (known pass.old).tickets }
        ensures own { IsOf self.now pass.new }
        ensures tells { TellsAs (known pass.old) t.now.number result (known pass.new) }
    {
        ask(&self.table.shared, &mut pass.seat, t)
    }

    /// One more ticket of the same request.
    pub fn retain(&self, pass: &mut Pass, t: &Ticket) -> Result<Ticket, PassSpent>
        requires own { IsOf self.now pass.old }
        requires held { IsIn t.now (known pass.old).tickets }
        ensures own { IsOf self.now pass.new }
        ensures retains { RetainsAs (known pass.old) t.now result (known pass.new) }
    {
        let spent = pass.is_spent();
        let kept = keep(&self.table.shared, &mut pass.seat, spent, t)?;
        pass.tickets += 1;
        Ok(kept)
    }

    /// Gives a ticket back.
    pub fn release(&self, pass: &mut Pass, t: Ticket)
        requires own { IsOf self.now pass.old }
        requires held { IsIn t (known pass.old).tickets }
        ensures own { IsOf self.now pass.new }
        ensures released { known pass.new ≡ record (known pass.old) {
          tickets = fewer t (known pass.old).tickets;
        } }
        ensures count { length (known pass.new).tickets + 1 ≡ length (known pass.old).tickets }
    {
        give_back(&self.table.shared, &mut pass.seat, &t);
        pass.tickets -= 1;
        let Ticket { slot: _, number: _ } = t;
    }

    /// Cuts off a pass with so many parts, which has seen as much and holds no ticket.
    pub fn split(&self, pass: &mut Pass, parts: u32) -> Pass
        requires own { IsOf self.now pass.old }
        requires some { 0 < parts }
        requires fewer { parts < (known pass.old).parts }
        requires tickets { length (known pass.old).tickets + parts ≤ (known pass.old).parts }
        ensures own { IsOf self.now pass.new }
        ensures its { IsOf self.now result }
        ensures stays { known pass.new ≡ stays parts (known pass.old) }
        ensures goes { known result ≡ goes parts (known pass.old) }
    {
        let seat = cut::<Brand>(&self.table.shared, &mut pass.seat, parts);
        pass.parts -= parts;
        Pass {
            seat,
            parts,
            tickets: 0,
        }
    }

    /// Takes in another pass. The longer of the two histories that were seen stays.
    pub fn join(&self, pass: &mut Pass, other: Pass)
        requires own { IsOf self.now pass.old }
        requires its { IsOf self.now other }
        ensures own { IsOf self.now pass.new }
        ensures joined { JoinedTo (known pass.old) (known other) (known pass.new) }
        ensures parts { (known pass.new).parts ≡ (known pass.old).parts + (known other).parts }
        ensures tickets { (known pass.new).tickets
            ≡ (known pass.old).tickets ++ (known other).tickets }
    {
        let Pass {
            seat,
            parts,
            tickets,
        } = other;
        glue(&self.table.shared, &mut pass.seat, seat);
        pass.parts += parts;
        pass.tickets += tickets;
    }

    /// Ends the desk: the system, and the history.
    pub fn close(self, pass: Pass) -> (System, Journal)
        requires own { IsOf self pass }
        requires all { (known pass).parts ≡ all_parts }
        requires none { (known pass).tickets ≡ [] }
        ensures { Closes (known pass) result.0 result.1 }
    {
        let Desk { table } = self;
        let Pass {
            seat,
            parts: _,
            tickets: _,
        } = pass;
        let mut closed = table.close_with(seat);
        let stored = closed.take(0);
        closed.free();
        let Stored {
            system,
            journal,
            slots: _,
            broken: _,
        } = stored;
        (system, journal)
    }
}
