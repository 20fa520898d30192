//! A pass of a desk with the names of its tickets.

ghost use Rattle.std.specs.Prelude.{◌≡◌, ◌+◌, ◌-◌, ◌<◌, ◌≤◌, [], ◌++◌, false, true, OnErr, OnOk};
ghost use Rattle.std.specs.Prelude.{IfOk, IfSome, drop, length, take};
ghost use Rattle.std.specs.Vec.{vec_capacity, vec_len};
ghost use Rattle.gb_desk.specs.Calls.{CallsAs, Closes, JoinedTo};
ghost use Rattle.gb_desk.specs.Passes.{IsOf, known};
ghost use Rattle.gb_desk.specs.Rules.{all_parts};
ghost use Rattle.gb_formats.specs.ValidEvents.{IsValid};
ghost use Rattle.gb_machine.specs.AskingEvents.{asks};
ghost use Rattle.gb_share.specs.Doing.{DoesAs, IsWithin};
ghost use Rattle.gb_share.specs.Names.{FollowsAs, OpensAs, RenamesAs, is_done, place_of};
ghost use Rattle.gb_share.specs.Names.{with_second, without_name};
ghost use Rattle.gb_share.specs.Tickets.{AreHeld, with_held};

use gb_base::{Entries, Entry, Event, Name, OutOfMemory, TryCopy};
use gb_desk::{Desk, DeskFault, Journal, Opened, Pass, Ticket};
use gb_system::System;
use std::alloc::Global;
use std::thread;

/// A caller gives way each time behind so many of its lines.
const LINES_AT_ONCE: usize = 16;

/// A name with a ticket of its request.
pub struct Held {
    pub name: Name,
    pub ticket: Ticket,
}

/// A pass with the names of its tickets: the requests that its events made and named. Names of all
/// callers may stand in one, since each has its caller's number.
pub struct Hand {
    pub(crate) pass: Pass,
    pub(crate) held: Vec<Held>,
    ghost within: { IsWithin (known pass) },
    ghost tickets: { AreHeld held.items (known pass).tickets },
}

/// Whether an event was done, by what it brought about.
fn is_done(entries: &Entries) -> bool
    ensures { result ≡ is_done entries.now }
{
    matches!(entries.items().first(), Some(Entry::Done))
}

// Adds a name where it has a ticket. There is room for it.
fn put(held: &mut Vec<Held>, name: Name, ticket: Option<Ticket>)
    requires room { vec_len held.old < vec_capacity held.old }
    ensures { held.new.items ≡ with_held name ticket held.old.items }
{
    if let Some(ticket) = ticket {
        held.push_reserved(Held { name, ticket });
    }
}

// Joins another pass, whose names were taken.
fn glue(desk: &Desk, pass: &mut Pass, other: Pass, held: Vec<Held>)
    requires own { IsOf desk.now pass.old }
    requires its { IsOf desk.now other }
    requires none { held.items ≡ [] }
    ensures own { IsOf desk.now pass.new }
    ensures joined { JoinedTo (known pass.old) (known other) (known pass.new) }
    ensures parts { (known pass.new).parts ≡ (known pass.old).parts + (known other).parts }
    ensures tickets { (known pass.new).tickets
        ≡ (known pass.old).tickets ++ (known other).tickets }
{
    held.destroy_empty();
    desk.join(pass, other);
}

impl Hand {
    ghost use Rattle.gb_desk.specs.Steps.{goes, stays};
    ghost use Rattle.gb_share.specs.Doing.{IsAlike, IsJoined};
    ghost use Rattle.gb_share.specs.Hands.{knows};
    ghost use Rattle.gb_share.specs.Uses.{Grows, places_for};

    /// A pass that holds no ticket.
    pub fn new(alloc: Global, pass: Pass) -> Hand
        requires within { IsWithin (known pass) }
        requires none { (known pass).tickets ≡ [] }
        ensures pass { result.pass ≡ pass }
        ensures held { result.held.items ≡ [] }
    {
        Hand {
            pass,
            held: Vec::new(alloc),
        }
    }

    // The place of a name, None where it has no ticket.
    fn find(&self, name: &Name) -> Option<usize>
        ensures within { IfSome result (λ at. at < vec_len self.now.held) }
        ensures place { result ≡ place_of name.now self.now.held.items }
    {
        self.held.iter().position(|h| h.name == *name)
    }

    // Room for one more name, and the name.
    fn named(&mut self, name: &Name) -> Result<Name, OutOfMemory>
        ensures pass { self.new.pass ≡ self.old.pass }
        ensures items { self.new.held.items ≡ self.old.held.items }
        ensures room { OnOk result (vec_len self.new.held < vec_capacity self.new.held) }
        ensures name { IfOk result (λ copy. copy ≡ name.now) }
    {
        self.held.reserve(1)?;
        name.copy()
    }

    // Does an event that asks no request.
    fn call(&mut self, desk: &Desk, by: u8, e: &Event) -> Result<Entries, DeskFault>
        requires own { IsOf desk.now self.old.pass }
        requires valid { IsValid e.now }
        requires plain { asks e.now ≡ false }
        ensures own { IsOf desk.now self.new.pass }
        ensures does { DoesAs (knows self.old) by e.now result (knows self.new) }
        ensures grows { Grows (places_for result) (knows self.old) (knows self.new) }
        ensures parts { (knows self.new).parts ≡ (knows self.old).parts }
        ensures tickets { (knows self.new).tickets ≡ (knows self.old).tickets }
        ensures held { self.new.held ≡ self.old.held }
        ensures calls { CallsAs (knows self.old) by e.now result (knows self.new) }
    {
        desk.call(&mut self.pass, by, e)
    }

    // Does a send or a bridge line, and keeps the ticket of its request by its name.
    fn open(&mut self, desk: &Desk, by: u8, e: &Event, name: &Name) -> Result<Entries, DeskFault>
        requires own { IsOf desk.now self.old.pass }
        requires valid { IsValid e.now }
        requires asking { asks e.now ≡ true }
        ensures own { IsOf desk.now self.new.pass }
        ensures does { DoesAs (knows self.old) by e.now result (knows self.new) }
        ensures grows { Grows (places_for result) (knows self.old) (knows self.new) }
        ensures parts { (knows self.new).parts ≡ (knows self.old).parts }
        ensures few { length (knows self.new).tickets ≤ length (knows self.old).tickets + 1 }
        ensures kept { OnErr result (length (knows self.new).tickets
            ≤ length (knows self.old).tickets) }
        ensures opens { OpensAs (knows self.old) self.old.held.items by e.now name.now result
            (knows self.new) self.new.held.items }
    {
        let name = match self.named(name) {
            Ok(name) => name,
            Err(refused) => return Err(DeskFault::Memory(refused)),
        };
        match desk.open_request(&mut self.pass, by, e) {
            Ok(opened) => {
                let Opened { entries, ticket } = opened;
                put(&mut self.held, name, ticket);
                Ok(entries)
            }
            Err(fault) => Err(fault),
        }
    }

    // One more ticket of a name's request, for a second name. There is room for it.
    fn retain(&mut self, desk: &Desk, from: &Name, to: Name)
        requires own { IsOf desk.now self.old.pass }
        requires room { vec_len self.old.held < vec_capacity self.old.held }
        ensures own { IsOf desk.now self.new.pass }
        ensures parts { (knows self.new).parts ≡ (knows self.old).parts }
        ensures few { length (knows self.new).tickets ≤ length (knows self.old).tickets + 1 }
        ensures stays { IsAlike (knows self.old) (knows self.new) }
        ensures held { length (knows self.old).tickets < (knows self.old).parts
            → self.new.held.items ≡ with_second from.now to self.old.held.items }
    {
        let Some(at) = self.find(from) else {
            return;
        };
        let held = &self.held[at];
        if let Ok(ticket) = desk.retain(&mut self.pass, &held.ticket) {
            self.held.push_reserved(Held { name: to, ticket });
        }
    }

    // Gives the ticket at this place back.
    fn give_back(&mut self, desk: &Desk, at: usize)
        requires own { IsOf desk.now self.old.pass }
        requires there { at < vec_len self.old.held }
        ensures own { IsOf desk.now self.new.pass }
        ensures parts { (knows self.new).parts ≡ (knows self.old).parts }
        ensures fewer { length (knows self.new).tickets ≤ length (knows self.old).tickets }
        ensures stays { IsAlike (knows self.old) (knows self.new) }
        ensures one { vec_len self.new.held + 1 ≡ vec_len self.old.held }
        ensures held { self.new.held.items
            ≡ take at self.old.held.items ++ drop (at + 1) self.old.held.items }
    {
        let Held { name: _, ticket } = self.held.remove(at);
        desk.release(&mut self.pass, ticket);
    }

    // Does a copy, and keeps one more ticket where it was done.
    fn copy(
        &mut self,
        desk: &Desk,
        by: u8,
        e: &Event,
        from: &Name,
        to: &Name,
    ) -> Result<Entries, DeskFault>
        requires own { IsOf desk.now self.old.pass }
        requires valid { IsValid e.now }
        requires plain { asks e.now ≡ false }
        ensures own { IsOf desk.now self.new.pass }
        ensures does { DoesAs (knows self.old) by e.now result (knows self.new) }
        ensures grows { Grows (places_for result) (knows self.old) (knows self.new) }
        ensures parts { (knows self.new).parts ≡ (knows self.old).parts }
        ensures few { length (knows self.new).tickets ≤ length (knows self.old).tickets + 1 }
        ensures kept { OnErr result (length (knows self.new).tickets
            ≤ length (knows self.old).tickets) }
        ensures copies { RenamesAs (with_second from.now to.now) (knows self.old)
            self.old.held.items by e.now result (knows self.new) self.new.held.items }
    {
        let to = match self.named(to) {
            Ok(to) => to,
            Err(refused) => return Err(DeskFault::Memory(refused)),
        };
        let entries = self.call(desk, by, e)?;
        if is_done(&entries) {
            self.retain(desk, from, to);
        }
        Ok(entries)
    }

    // Does a drop, and gives the name's ticket back where it was done.
    fn forget(&mut self, desk: &Desk, by: u8, e: &Event, name: &Name) -> Result<Entries, DeskFault>
        requires own { IsOf desk.now self.old.pass }
        requires valid { IsValid e.now }
        requires plain { asks e.now ≡ false }
        ensures own { IsOf desk.now self.new.pass }
        ensures does { DoesAs (knows self.old) by e.now result (knows self.new) }
        ensures grows { Grows (places_for result) (knows self.old) (knows self.new) }
        ensures parts { (knows self.new).parts ≡ (knows self.old).parts }
        ensures few { length (knows self.new).tickets ≤ length (knows self.old).tickets }
        ensures forgets { RenamesAs (without_name name.now) (knows self.old)
            self.old.held.items by e.now result (knows self.new) self.new.held.items }
    {
        let entries = self.call(desk, by, e)?;
        if is_done(&entries) {
            if let Some(at) = self.find(name) {
                self.give_back(desk, at);
            }
        }
        Ok(entries)
    }

    /// Does an event, and keeps the tickets of its names.
    pub fn event(&mut self, desk: &Desk, by: u8, e: &Event) -> Result<Entries, DeskFault>
        requires own { IsOf desk.now self.old.pass }
        requires valid { IsValid e.now }
        ensures own { IsOf desk.now self.new.pass }
        ensures does { DoesAs (knows self.old) by e.now result (knows self.new) }
        ensures grows { Grows (places_for result) (knows self.old) (knows self.new) }
        ensures parts { (knows self.new).parts ≡ (knows self.old).parts }
        ensures few { length (knows self.new).tickets ≤ length (knows self.old).tickets + 1 }
        ensures kept { OnErr result (length (knows self.new).tickets
            ≤ length (knows self.old).tickets) }
        ensures names { FollowsAs (knows self.old) self.old.held.items by e.now result
            (knows self.new) self.new.held.items }
    {
        match e {
            Event::Send { name, .. } => self.open(desk, by, e, name),
            Event::Bridge { name, .. } => self.open(desk, by, e, name),
            Event::Copy { from, to } => self.copy(desk, by, e, from, to),
            Event::Forget { name } => self.forget(desk, by, e, name),
            _ => self.call(desk, by, e),
        }
    }

    /// Lets other callers go first, where there are any, behind each sixteenth of its lines.
    pub fn give_way(&self, lines: usize) {
        if lines % LINES_AT_ONCE == 0 && self.pass.parts() < u32::MAX {
            thread::yield_now();
        }
    }

    /// Cuts off a pass with so many parts, which holds no ticket.
    pub fn split(&mut self, alloc: Global, desk: &Desk, parts: u32) -> Hand
        requires own { IsOf desk.now self.old.pass }
        requires some { 0 < parts }
        requires room { length (knows self.old).tickets + parts < (knows self.old).parts }
        ensures own { IsOf desk.now self.new.pass }
        ensures its { IsOf desk.now result.pass }
        ensures stays { knows self.new ≡ stays parts (knows self.old) }
        ensures goes { knows result ≡ goes parts (knows self.old) }
    {
        let pass = desk.split(&mut self.pass, parts);
        Hand::new(alloc, pass)
    }

    // Gives all tickets back.
    fn give_all_back(&mut self, desk: &Desk)
        requires own { IsOf desk.now self.old.pass }
        ensures own { IsOf desk.now self.new.pass }
        ensures parts { (knows self.new).parts ≡ (knows self.old).parts }
        ensures stays { IsAlike (knows self.old) (knows self.new) }
        ensures none { self.new.held.items ≡ [] }
    {
        let mut left = self.held.len();
        while left > 0 {
            left -= 1;
            self.give_back(desk, left);
        }
    }

    /// Takes in another pass. Where no memory is found for its names, its tickets are given back.
    pub fn join(&mut self, desk: &Desk, other: Hand) -> Result<(), OutOfMemory>
        requires own { IsOf desk.now self.old.pass }
        requires its { IsOf desk.now other.pass }
        ensures own { IsOf desk.now self.new.pass }
        ensures joined { IsJoined (knows self.old) (knows other) (knows self.new) }
        ensures parts { (knows self.new).parts ≡ (knows self.old).parts + (knows other).parts }
        ensures few { length (knows self.new).tickets
            ≤ length (knows self.old).tickets + length (knows other).tickets }
    {
        let mut other = other;
        match self.held.append(&mut other.held) {
            Ok(()) => {
                let Hand { pass, held } = other;
                glue(desk, &mut self.pass, pass, held);
                Ok(())
            }
            Err(refused) => {
                other.give_all_back(desk);
                let Hand { pass, held } = other;
                glue(desk, &mut self.pass, pass, held);
                Err(OutOfMemory::from(refused))
            }
        }
    }

    /// Gives all tickets back and ends the desk: the system, and the history.
    pub fn close(self, desk: Desk) -> (System, Journal)
        requires own { IsOf desk self.pass }
        requires all { (knows self).parts ≡ all_parts }
        ensures { Closes (knows self) result.0 result.1 }
    {
        let mut hand = self;
        hand.give_all_back(&desk);
        let Hand { pass, held } = hand;
        held.destroy_empty();
        desk.close(pass)
    }
}
