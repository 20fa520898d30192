//! What the callers share, and what one call does with it in its turn.

ghost use Rattle.std.specs.Prelude.{◌≡◌, false, true, ◌<◌, option_map};
ghost use Rattle.gb_formats.specs.ValidEvents.{IsValid};
ghost use Rattle.gb_system.specs.Stands.{taken_of};

use crate::DeskFault;
use crate::journal::Journal;
use crate::slots::{Slot, Slots, first_asked};
use crate::ticket::{Opened, Ticket};
use gb_base::{Entries, Event, OutOfMemory, TryCopy};
use gb_system::System;

/// How many events a system takes.
const MOST_EVENTS: u64 = 4_294_967_295;

/// The system with the history that led to it, the slots of the requests that have tickets, and
/// what was refused to an event that found no memory.
#[derive(Drop)]
pub struct Stored {
    pub system: System,
    pub journal: Journal,
    pub slots: Slots,
    pub broken: Option<OutOfMemory>,
}

impl Stored {
    ghost use Rattle.gb_desk.specs.Tickets.{ticket};
    ghost use Rattle.gb_desk.specs.Turns.{AddsAs, AsksInTurn, BarsAs, TriesAs, TurnsAs};
    ghost use Rattle.gb_desk.specs.Turns.{is_broken, with_new};
    ghost use Rattle.gb_laws.specs.Tickets.{asked_in};

    // Does the event and writes it down. After a refusal the history and the slots are as before.
    fn add(&mut self, by: u8, e: &Event) -> Result<Entries, OutOfMemory>
        requires valid { IsValid e.now }
        requires room { taken_of self.old.system < 4294967295 }
        ensures added { AddsAs self.old by e.now result self.new }
        ensures broken { self.new.broken ≡ self.old.broken }
    {
        let event = e.copy()?;
        let entries = self.system.step(e)?;
        self.journal.push(by, event, entries.items())?;
        self.slots.note(entries.items());
        Ok(entries)
    }

    // The same, and from then on the history is broken where no memory was found.
    fn try_add(&mut self, by: u8, e: &Event) -> Result<Entries, DeskFault>
        requires valid { IsValid e.now }
        requires whole { is_broken self.old ≡ false }
        requires room { taken_of self.old.system < 4294967295 }
        ensures tried { TriesAs self.old by e.now result self.new }
    {
        match self.add(by, e) {
            Ok(entries) => Ok(entries),
            Err(refused) => {
                self.broken = Some(refused);
                Err(DeskFault::Memory(refused))
            }
        }
    }

    /// What keeps a pass from an event in its turn: an event found no memory, the system takes no
    /// more, or the pass has no part left for a ticket.
    pub fn bars(&self, spent: bool) -> Option<DeskFault>
        ensures { BarsAs self.now spent result }
    {
        if let Some(refused) = self.broken {
            return Some(DeskFault::Memory(refused));
        }
        if self.system.taken() >= MOST_EVENTS {
            return Some(DeskFault::JournalSpent);
        }
        if spent {
            return Some(DeskFault::PassSpent);
        }
        None
    }

    /// What a call does in its turn: an event, unless something keeps it from that.
    pub fn turn(&mut self, by: u8, e: &Event) -> Result<Entries, DeskFault>
        requires valid { IsValid e.now }
        ensures turn { TurnsAs self.old by e.now result self.new }
    {
        if let Some(fault) = self.bars(false) {
            return Err(fault);
        }
        self.try_add(by, e)
    }

    /// An event that asks a request, where this slot is free: the request that it tells gets the
    /// slot and a ticket.
    pub fn ask(&mut self, at: usize, by: u8, e: &Event) -> Result<Opened, DeskFault>
        requires valid { IsValid e.now }
        requires whole { is_broken self.old ≡ false }
        requires room { taken_of self.old.system < 4294967295 }
        requires slot { at < 256 }
        ensures asked { AsksInTurn self.old at by e.now result self.new }
    {
        match self.try_add(by, e) {
            Ok(entries) => Ok(self.opened(at, entries)),
            Err(fault) => Err(fault),
        }
    }

    // The request that these entries tell gets the slot, and a ticket.
    fn opened(&mut self, at: usize, entries: Entries) -> Opened
        requires slot { at < 256 }
        ensures entries { result.entries ≡ entries }
        ensures ticket { result.ticket ≡ option_map (ticket at) (asked_in entries) }
        ensures left { self.new ≡ with_new at (asked_in entries) self.old }
    {
        let Some(number) = first_asked(entries.items()) else {
            return Opened {
                entries,
                ticket: None,
            };
        };
        self.slots.put(at, Slot { number, told: None });
        let ticket = Ticket { slot: at, number };
        Opened {
            entries,
            ticket: Some(ticket),
        }
    }
}
