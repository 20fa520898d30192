//! The slots of a desk: which requests have tickets, and how each of them ended.

ghost use Rattle.std.specs.Prelude.{◌≡◌, ◌<◌, ◌≤◌, length, map, option_map, replicate, slice_set};
ghost use Rattle.std.specs.Prelude.{MatchBool, None, Some, false, ℕ};
ghost use Rattle.gb_desk.specs.Slots.{AreUnusedFrom, IsEnded, IsOpen, all_noted, noted, slot_at};
ghost use Rattle.gb_desk.specs.Slots.{told_by, told_of};
ghost use Rattle.gb_desk.specs.declared.slots.Slot.{Slot};
ghost use Rattle.gb_laws.specs.Tickets.{asked_in, end_in};

use gb_base::{Entry, Outcome};
use std::marker::Model;

/// How many requests can be open or have tickets at once.
pub const SLOTS: usize = 256;

/// How a request ended.
#[derive(Clone, Copy, Debug, PartialEq, Eq)]
pub enum Told {
    /// Its responder answered.
    Answered {
        /// The result byte of the response.
        result: u8,
    },
    /// It was cancelled.
    Cancelled,
    /// Its deadline came.
    Timeout,
    /// Its connection was closed.
    Disconnected,
}

/// A request that has a slot.
#[derive(Clone, Copy)]
pub struct Slot {
    /// Its number.
    pub number: u64,
    /// How it ended, None while it is open.
    pub told: Option<Told>,
}

/// What is told of an outcome: nothing of one that only a unidirectional request has.
fn outcome_told(outcome: &Outcome) -> Option<Told>
    ensures { result ≡ told_of outcome.now }
{
    match outcome {
        Outcome::Answered { result, .. } => Some(Told::Answered { result: *result }),
        Outcome::Cancelled => Some(Told::Cancelled),
        Outcome::Timeout => Some(Told::Timeout),
        Outcome::Disconnected => Some(Told::Disconnected),
        Outcome::Sent => None,
    }
}

/// How entries tell that a request ended.
fn end_told(entries: &[Entry], number: u64) -> Option<Told>
    ensures { result ≡ told_by (end_in number entries.now) }
{
    for entry in entries {
        if let Entry::Ended {
            number: ended,
            outcome,
            ..
        } = entry
        {
            if *ended == number {
                return outcome_told(outcome);
            }
        }
    }
    None
}

/// The number of the first request whose making entries tell.
pub fn first_asked(entries: &[Entry]) -> Option<u64>
    ensures { result ≡ asked_in entries.now }
{
    for entry in entries {
        if let Entry::Asked { number, .. } = entry {
            return Some(*number);
        }
    }
    None
}

/// Whether entries tell that some request ended.
fn tell_an_end(entries: &[Entry]) -> bool
    ensures { result ≡ false → (n : ℕ) → end_in n entries.now ≡ None }
{
    for entry in entries {
        if let Entry::Ended { .. } = entry {
            return true;
        }
    }
    false
}

/// A slot learns what these entries tell.
fn tell(slot: &mut Option<Slot>, entries: &[Entry])
    ensures { slot.new ≡ option_map (noted entries.now) slot.old }
{
    if let Some(request) = slot {
        if request.told.is_none() {
            request.told = end_told(entries, request.number);
        }
    }
}

/// All of these slots learn what these entries tell, of which those from `used` on had no request.
fn note_all(slots: &mut [Option<Slot>], used: usize, entries: &[Entry])
    requires within { used ≤ length slots.old }
    requires unused { AreUnusedFrom used slots.old }
    ensures { slots.new ≡ all_noted entries.now slots.old }
{
    for at in 0..used {
        tell(&mut slots[at], entries);
    }
}

/// The slots of a desk. A contract sees them as a list of 256, None where no request had the slot.
#[derive(Drop)]
pub struct Slots {
    items: [Option<Slot>; SLOTS],
    /// No request had a slot from this one on.
    used: usize,
}

impl Model for Slots {
    ghost use Rattle.std.specs.Prelude.{List, Option};
    ghost use Rattle.gb_desk.specs.Slots.{AreKept};
    ghost use Rattle.gb_desk.specs.declared.slots.Slot.{Slot};

    ghost Value = { List (Option Slot) };

    ghost view = { λ s. s.items };

    ghost invariant = { λ s. AreKept s.items s.used };
}

impl Slots {
    /// No request had a slot yet.
    pub fn new() -> Slots
        ensures { result ≡ replicate 256 None }
    {
        Slots {
            items: [None; SLOTS],
            used: 0,
        }
    }

    /// What a slot has.
    pub fn at(&self, slot: usize) -> Option<Slot>
        ensures { result ≡ slot_at slot self.now }
    {
        match self.items.get(slot) {
            Some(found) => *found,
            None => None,
        }
    }

    /// Whether a slot may be given to a request, where it has no ticket.
    pub fn is_ended(&self, slot: usize) -> bool
        ensures { MatchBool result (IsEnded (slot_at slot self.now))
            (IsOpen (slot_at slot self.now)) }
    {
        match self.at(slot) {
            Some(request) => request.told.is_some(),
            None => true,
        }
    }

    /// How the request of a slot ended, None where it is open.
    pub fn told(&self, slot: usize) -> Option<Told>
        ensures { (x : Slot) → slot_at slot self.now ≡ Some x → result ≡ x.told }
    {
        match self.at(slot) {
            Some(request) => request.told,
            None => None,
        }
    }

    /// A request gets a slot.
    pub fn put(&mut self, slot: usize, request: Slot)
        requires { slot < 256 }
        ensures { self.new ≡ slice_set self.old slot (Some request) }
    {
        self.items[slot] = Some(request);
        self.used = self.used.max(slot + 1);
    }

    /// These entries are told.
    pub fn note(&mut self, entries: &[Entry])
        ensures { self.new ≡ all_noted entries.now self.old }
    {
        if tell_an_end(entries) {
            note_all(&mut self.items, self.used, entries);
        }
    }
}
