//! The calls of a desk on the seats of its table.

ghost use Rattle.std.specs.Prelude.{◌≡◌, ◌+◌, false, true, ◌<◌, ◌≤◌, [], MatchBool, Some};
ghost use Rattle.std.specs.Prelude.{length};
ghost use Rattle.gb_desk.specs.Calls.{AsksAs, CallsAs, IsFree, JoinedTo, RetainsAs, TellsAs};
ghost use Rattle.gb_desk.specs.InTurn.{FindsAs, FreeAs, HasStarted, HasTurn, OpensAs};
ghost use Rattle.gb_desk.specs.Rules.{all_parts};
ghost use Rattle.gb_desk.specs.Steps.{goes, stays};
ghost use Rattle.gb_desk.specs.Tickets.{fewer};
ghost use Rattle.gb_desk.specs.declared.stored.Stored.{Stored};
ghost use Rattle.gb_desk.specs.declared.ticket.Ticket.{Ticket};
ghost use Rattle.gb_formats.specs.ValidEvents.{IsValid};
ghost use Rattle.gb_machine.specs.AskingEvents.{asks};
ghost use Rattle.gb_machine.specs.Members.{IsIn};

use crate::slots::{SLOTS, Told};
use crate::stored::Stored;
use crate::ticket::{Opened, Ticket};
use crate::view::{
    Count, Cut, First, Give, Glue, Law, Leave, Look, Release, Retain, Settle, Take, View,
};
use crate::{Busy, DeskFault, PassSpent};
use atomic_table::{Seat, Shared};
use gb_base::{Entries, Event};
use gb_system::System;
use std::snapshot::Snapshot;

/// What the callers of a desk share.
pub type Top = Shared<Stored, View, Snapshot<System>, Law>;

/// A caller's place at it.
pub type Place = Seat<Stored, View>;

/// Tries to take the turn, and does an event in it.
pub fn enter(top: &Top, seat: &mut Place, by: u8, e: &Event) -> Result<Entries, DeskFault>
    requires own { seat.old.table_id ≡ top.now.table_id }
    requires size { (top.now.table_id.words ≡ 257) × (top.now.table_id.slots ≡ 1) }
    requires free { IsFree seat.old.me }
    requires valid { IsValid e.now }
    requires plain { asks e.now ≡ false }
    ensures own { (seat.new.table_id ≡ seat.old.table_id) × (seat.new.id ≡ seat.old.id) }
    ensures free { IsFree seat.new.me }
    ensures calls { CallsAs seat.old.me.0 by e.now result seat.new.me.0 }
{
    if top.compare_exchange::<Take>(seat, 0, 0, 1) != 0 {
        return Err(DeskFault::Busy);
    }
    let answer = seat.slot_mut(top, 0).turn(by, e);
    top.store::<Give>(seat, 0, 0);
    answer
}

/// Whether a slot is free: its request ended, or it has had none, and no ticket of it is found.
fn is_free(top: &Top, seat: &mut Place, at: usize) -> bool
    requires own { seat.old.table_id ≡ top.now.table_id }
    requires size { (top.now.table_id.words ≡ 257) × (top.now.table_id.slots ≡ 1) }
    requires turn { HasTurn seat.old.me }
    requires slot { at < 256 }
    ensures own { (seat.new.table_id ≡ seat.old.table_id) × (seat.new.id ≡ seat.old.id) }
    ensures free { (x : Stored) → seat.old.me.0.out ≡ Some x
        → FreeAs x at seat.old.me result seat.new.me }
{
    let ended = seat.slot_mut(top, 0).slots.is_ended(at);
    if !ended {
        return false;
    }
    top.load::<Look>(seat, at + 1) == 0
}

/// The first free slot.
fn free_slot(top: &Top, seat: &mut Place) -> Option<usize>
    requires own { seat.old.table_id ≡ top.now.table_id }
    requires size { (top.now.table_id.words ≡ 257) × (top.now.table_id.slots ≡ 1) }
    requires turn { HasTurn seat.old.me }
    requires unused { seat.old.me.0.used ≡ [] }
    ensures own { (seat.new.table_id ≡ seat.old.table_id) × (seat.new.id ≡ seat.old.id) }
    ensures found { (x : Stored) → seat.old.me.0.out ≡ Some x
        → FindsAs seat.old.me.0 x result seat.new.me }
{
    for at in 0..SLOTS {
        if is_free(top, seat, at) {
            return Some(at);
        }
    }
    None
}

/// In the turn: an event that asks a request, where a slot is free.
fn open_in_turn(
    top: &Top,
    seat: &mut Place,
    spent: bool,
    by: u8,
    e: &Event,
) -> Result<Opened, DeskFault>
    requires own { seat.old.table_id ≡ top.now.table_id }
    requires size { (top.now.table_id.words ≡ 257) × (top.now.table_id.slots ≡ 1) }
    requires started { HasStarted seat.old.me }
    requires spent { MatchBool spent (seat.old.me.0.parts ≤ length seat.old.me.0.tickets)
        (length seat.old.me.0.tickets < seat.old.me.0.parts) }
    requires valid { IsValid e.now }
    requires asking { asks e.now ≡ true }
    ensures own { (seat.new.table_id ≡ seat.old.table_id) × (seat.new.id ≡ seat.old.id) }
    ensures opens { (x : Stored) → seat.old.me.0.out ≡ Some x
        → OpensAs seat.old.me.0 x spent by e.now result seat.new.me }
{
    let bar = seat.slot_mut(top, 0).bars(spent);
    if let Some(fault) = bar {
        return Err(fault);
    }
    let Some(at) = free_slot(top, seat) else {
        return Err(DeskFault::Full);
    };
    let opened = match seat.slot_mut(top, 0).ask(at, by, e) {
        Ok(opened) => opened,
        Err(fault) => return Err(fault),
    };
    if opened.ticket.is_none() {
        return Ok(opened);
    }
    top.fetch_add::<First>(seat, at + 1, 1);
    Ok(opened)
}

/// Tries to take the turn, and does an event that asks a request in it.
pub fn open(
    top: &Top,
    seat: &mut Place,
    spent: bool,
    by: u8,
    e: &Event,
) -> Result<Opened, DeskFault>
    requires own { seat.old.table_id ≡ top.now.table_id }
    requires size { (top.now.table_id.words ≡ 257) × (top.now.table_id.slots ≡ 1) }
    requires free { IsFree seat.old.me }
    requires spent { MatchBool spent (seat.old.me.0.parts ≤ length seat.old.me.0.tickets)
        (length seat.old.me.0.tickets < seat.old.me.0.parts) }
    requires valid { IsValid e.now }
    requires asking { asks e.now ≡ true }
    ensures own { (seat.new.table_id ≡ seat.old.table_id) × (seat.new.id ≡ seat.old.id) }
    ensures free { IsFree seat.new.me }
    ensures opens { AsksAs seat.old.me.0 by e.now result seat.new.me.0 }
{
    if top.compare_exchange::<Take>(seat, 0, 0, 1) != 0 {
        return Err(DeskFault::Busy);
    }
    let answer = open_in_turn(top, seat, spent, by, e);
    top.store::<Give>(seat, 0, 0);
    answer
}

/// Tries to take the turn, and reads in it how a request ended.
pub fn ask(top: &Top, seat: &mut Place, t: &Ticket) -> Result<Option<Told>, Busy>
    requires own { seat.old.table_id ≡ top.now.table_id }
    requires size { (top.now.table_id.words ≡ 257) × (top.now.table_id.slots ≡ 1) }
    requires free { IsFree seat.old.me }
    requires held { IsIn t.now seat.old.me.0.tickets }
    ensures own { (seat.new.table_id ≡ seat.old.table_id) × (seat.new.id ≡ seat.old.id) }
    ensures free { IsFree seat.new.me }
    ensures tells { TellsAs seat.old.me.0 t.now.number result seat.new.me.0 }
{
    if top.compare_exchange::<Take>(seat, 0, 0, 1) != 0 {
        return Err(Busy);
    }
    let told = seat.slot_mut(top, 0).slots.told(t.slot);
    top.store::<Leave>(seat, 0, 0);
    Ok(told)
}

/// One more ticket, unless there is no part left for it.
pub fn keep(top: &Top, seat: &mut Place, spent: bool, t: &Ticket) -> Result<Ticket, PassSpent>
    requires own { seat.old.table_id ≡ top.now.table_id }
    requires size { (top.now.table_id.words ≡ 257) × (top.now.table_id.slots ≡ 1) }
    requires free { IsFree seat.old.me }
    requires spent { MatchBool spent (seat.old.me.0.parts ≤ length seat.old.me.0.tickets)
        (length seat.old.me.0.tickets < seat.old.me.0.parts) }
    requires held { IsIn t.now seat.old.me.0.tickets }
    ensures own { (seat.new.table_id ≡ seat.old.table_id) × (seat.new.id ≡ seat.old.id) }
    ensures free { IsFree seat.new.me }
    ensures retains { RetainsAs seat.old.me.0 t.now result seat.new.me.0 }
{
    if spent {
        return Err(PassSpent);
    }
    top.fetch_add::<Retain>(seat, t.slot + 1, 1);
    Ok(Ticket {
        slot: t.slot,
        number: t.number,
    })
}

/// One ticket less.
pub fn give_back(top: &Top, seat: &mut Place, t: &Ticket)
    requires own { seat.old.table_id ≡ top.now.table_id }
    requires size { (top.now.table_id.words ≡ 257) × (top.now.table_id.slots ≡ 1) }
    requires free { IsFree seat.old.me }
    requires held { IsIn t.now seat.old.me.0.tickets }
    ensures own { (seat.new.table_id ≡ seat.old.table_id) × (seat.new.id ≡ seat.old.id) }
    ensures free { IsFree seat.new.me }
    ensures fewer { seat.new.me.0 ≡ record seat.old.me.0 {
      tickets = fewer t.now seat.old.me.0.tickets;
    } }
    ensures count { length seat.new.me.0.tickets + 1 ≡ length seat.old.me.0.tickets }
{
    top.fetch_sub::<Release>(seat, t.slot + 1, 1);
}

/// Cuts off so many parts.
pub fn cut<C: Count>(top: &Top, seat: &mut Place, parts: u32) -> Place
    requires own { seat.old.table_id ≡ top.now.table_id }
    requires size { (top.now.table_id.words ≡ 257) × (top.now.table_id.slots ≡ 1) }
    requires free { IsFree seat.old.me }
    requires picked { parts ≡ C.count }
    requires some { (0 < parts) × (parts < seat.old.me.0.parts)
        × (length seat.old.me.0.tickets + parts ≤ seat.old.me.0.parts) }
    ensures own { (seat.new.table_id ≡ seat.old.table_id) × (seat.new.id ≡ seat.old.id) }
    ensures stays { seat.new.me ≡ (stays parts seat.old.me.0, seat.old.me.1) }
    ensures its { result.table_id ≡ seat.old.table_id }
    ensures goes { result.me ≡ (goes parts seat.old.me.0, seat.old.me.1) }
{
    top.split_seat::<Cut<C>>(seat)
}

/// Takes in another seat.
pub fn glue(top: &Top, seat: &mut Place, other: Place)
    requires own { (seat.old.table_id ≡ top.now.table_id) × (other.table_id ≡ top.now.table_id) }
    requires size { (top.now.table_id.words ≡ 257) × (top.now.table_id.slots ≡ 1) }
    requires free { IsFree seat.old.me × IsFree other.me }
    ensures own { (seat.new.table_id ≡ seat.old.table_id) × (seat.new.id ≡ seat.old.id) }
    ensures free { IsFree seat.new.me }
    ensures joined { JoinedTo seat.old.me.0 other.me.0 seat.new.me.0 }
    ensures parts { seat.new.me.0.parts ≤ all_parts }
{
    top.join_seat::<Glue>(seat, other);
    top.load::<Settle>(seat, 0);
}
