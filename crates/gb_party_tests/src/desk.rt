//! One thread with several passes. The counts of entries are worked by hand.

ghost use Rattle.std.specs.Prelude.{◌≡◌, ◌<◌, List, [], ◌∷◌, false, true, Some};
ghost use Rattle.gb_desk.specs.Passes.{IsAsBefore, IsOf, known};
ghost use Rattle.gb_desk.specs.Rules.{all_parts};
ghost use Rattle.gb_desk.specs.declared.ticket.Ticket.{Ticket};
ghost use Rattle.gb_formats.specs.ValidEvents.{IsName, IsValid};
ghost use Rattle.gb_machine.specs.AskingEvents.{asks};
ghost use Rattle.gb_machine.specs.Members.{IsIn};

use gb_base::{Bytes, End, Event, Name, Word};
use gb_desk::{Desk, DeskFault, Journal, Opened, Pass, Ticket, Told};
use gb_system::System;
use std::alloc::Global;
use std::process::Abort;

/// A desk over a new system.
pub fn opened(rt: &impl Abort, alloc: Global) -> (Desk, Pass)
    ensures own { IsOf result.0 result.1 }
    ensures parts { (known result.1).parts ≡ all_parts }
    ensures none { (known result.1).tickets ≡ [] }
{
    let system = System::new(alloc).expect(rt, "memory");
    Desk::new(alloc, system).expect(rt, "memory")
}

/// An event is done, and so many entries come of it.
fn done(rt: &impl Abort, desk: &Desk, pass: &mut Pass, by: u8, e: &Event, entries: usize)
    requires own { IsOf desk.now pass.old }
    requires valid { IsValid e.now }
    requires plain { asks e.now ≡ false }
    ensures own { IsOf desk.now pass.new }
    ensures keeps { IsAsBefore (known pass.old) (known pass.new) }
{
    match desk.call(pass, by, e) {
        Ok(told) => {
            assert!(rt; told.items().len() == entries);
            drop(told);
        }
        Err(_) => assert!(rt; false),
    }
}

/// Two passes do three events in turn.
fn share(rt: &impl Abort, desk: &Desk, pass: &mut Pass)
    requires own { IsOf desk.now pass.old }
    requires parts { 5 < (known pass.old).parts }
    requires none { (known pass.old).tickets ≡ [] }
    ensures own { IsOf desk.now pass.new }
    ensures keeps { IsAsBefore (known pass.old) (known pass.new) }
{
    assert!(rt; pass.parts() == u32::MAX && pass.tickets() == 0);
    let mut other = desk.split(pass, 5);
    assert!(rt; other.parts() == 5);
    done(rt, desk, pass, 1, &Event::Boot, 3);
    done(rt, desk, &mut other, 2, &Event::Settle { most: 9 }, 6);
    done(rt, desk, pass, 1, &Event::Deliver { at: End::Svc }, 1);
    desk.join(pass, other);
}

/// The history of a desk, of as many events as its system took.
pub fn history(rt: &impl Abort, desk: Desk, pass: Pass) -> Journal
    requires own { IsOf desk pass }
    requires all { (known pass).parts ≡ all_parts }
    requires none { (known pass).tickets ≡ [] }
{
    let (system, journal) = desk.close(pass);
    assert!(rt; system.taken() == journal.len() as u64);
    drop(system);
    journal
}

/// The tag of an entry of the history, 0 where it hasn't so many.
fn tag(journal: &Journal, at: usize) -> u8 {
    let mut events = journal.events();
    for _ in 0..at {
        events.next();
    }
    match events.next() {
        Some(event) => event.by,
        None => 0,
    }
}

/// The events of two passes are in the order in which they were done.
fn are_in_turn(rt: &impl Abort, journal: &Journal) {
    assert!(rt; journal.len() == 3);
    assert!(rt; tag(journal, 0) == 1 && tag(journal, 1) == 2 && tag(journal, 2) == 1);
}

#[test]
fn passes_share_one_history(rt: HostRuntime) {
    let (desk, mut pass) = opened(&rt, rt.alloc());
    share(&rt, &desk, &mut pass);
    are_in_turn(&rt, &history(&rt, desk, pass));
}

/// A name, `x` or `y` of one of 256 callers.
fn name(rt: &impl Abort, who: u8, word: &[u8]) -> Name
    ensures { IsName result }
{
    Name {
        who,
        word: Word::from_bytes(word).expect(rt, "a word"),
    }
}

/// A ping of the supervisory controller.
fn ping(alloc: Global, name: Name) -> Event
    requires { IsName name }
    ensures valid { IsValid result }
    ensures asking { asks result ≡ true }
{
    Event::Send {
        name,
        to: End::Svc,
        kind: 0x13,
        payload: Bytes::new(alloc),
        timeout: 1000,
    }
}

/// The ticket that came with an answer.
fn ticket(rt: &impl Abort, opened: Opened) -> Ticket
    ensures { opened.ticket ≡ Some result }
{
    let Opened { entries: _, ticket } = opened;
    match ticket {
        Some(ticket) => ticket,
        None => panic!(rt; "no ticket"),
    }
}

/// A ping with a name is opened.
fn opens(rt: &impl Abort, alloc: Global, desk: &Desk, pass: &mut Pass, name: Name) -> Ticket
    requires own { IsOf desk.now pass.old }
    requires named { IsName name }
    ensures own { IsOf desk.now pass.new }
    ensures parts { (known pass.new).parts ≡ (known pass.old).parts }
    ensures tickets { (known pass.new).tickets ≡ result ∷ (known pass.old).tickets }
{
    match desk.open_request(pass, 1, &ping(alloc, name)) {
        Ok(opened) => ticket(rt, opened),
        Err(_) => panic!(rt; "not opened"),
    }
}

/// The ticket that came last is given back.
fn gives_back(desk: &Desk, pass: &mut Pass, t: Ticket)
    requires own { IsOf desk.now pass.old }
    requires held { IsIn t (known pass.old).tickets }
    ensures own { IsOf desk.now pass.new }
    ensures parts { (known pass.new).parts ≡ (known pass.old).parts }
    ensures tickets { (ts : List Ticket) → (known pass.old).tickets ≡ t ∷ ts
        → (known pass.new).tickets ≡ ts }
{
    desk.release(pass, t);
}

/// All slots are taken.
fn is_full(rt: &impl Abort, alloc: Global, desk: &Desk, pass: &mut Pass)
    requires own { IsOf desk.now pass.old }
    ensures own { IsOf desk.now pass.new }
    ensures keeps { IsAsBefore (known pass.old) (known pass.new) }
{
    match desk.open_request(pass, 1, &ping(alloc, name(rt, 0, b"y"))) {
        Ok(_) => panic!(rt; "opened"),
        Err(DeskFault::Full) => {}
        Err(_) => panic!(rt; "another fault"),
    }
}

/// A request is cancelled by its name.
fn cancels(rt: &impl Abort, desk: &Desk, pass: &mut Pass, name: Name)
    requires own { IsOf desk.now pass.old }
    requires named { IsName name }
    ensures own { IsOf desk.now pass.new }
    ensures keeps { IsAsBefore (known pass.old) (known pass.new) }
{
    done(rt, desk, pass, 1, &Event::Cancel { name }, 2);
}

/// So it is told of a request.
fn tells(rt: &impl Abort, desk: &Desk, pass: &mut Pass, t: &Ticket, want: Option<Told>)
    requires own { IsOf desk.now pass.old }
    requires held { IsIn t.now (known pass.old).tickets }
    ensures own { IsOf desk.now pass.new }
    ensures keeps { IsAsBefore (known pass.old) (known pass.new) }
{
    match desk.outcome(pass, t) {
        Ok(told) => assert!(rt; told == want),
        Err(_) => panic!(rt; "busy"),
    }
}

/// All slots are taken, also once the first request ended. The second is open until
/// it is cancelled.
fn stays_full(rt: &impl Abort, alloc: Global, desk: &Desk, pass: &mut Pass, two: &Ticket)
    requires own { IsOf desk.now pass.old }
    requires second { IsIn two.now (known pass.old).tickets }
    ensures own { IsOf desk.now pass.new }
    ensures keeps { IsAsBefore (known pass.old) (known pass.new) }
{
    is_full(rt, alloc, desk, pass);
    cancels(rt, desk, pass, name(rt, 0, b"x"));
    is_full(rt, alloc, desk, pass);
    tells(rt, desk, pass, two, None);
    cancels(rt, desk, pass, name(rt, 1, b"x"));
    tells(rt, desk, pass, two, Some(Told::Cancelled));
}

/// The slot of the ticket that came before the last is used again once it is given back.
fn used_again(rt: &impl Abort, alloc: Global, desk: &Desk, pass: &mut Pass, one: Ticket)
    requires own { IsOf desk.now pass.old }
    requires first { IsIn one (known pass.old).tickets }
    ensures own { IsOf desk.now pass.new }
    ensures parts { (known pass.new).parts ≡ (known pass.old).parts }
    ensures tickets { (two : Ticket) (ts : List Ticket)
        → (known pass.old).tickets ≡ two ∷ one ∷ ts → (known pass.new).tickets ≡ two ∷ ts }
{
    desk.release(pass, one);
    let next = opens(rt, alloc, desk, pass, name(rt, 0, b"y"));
    assert_eq!(rt; next.number(), 257);
    gives_back(desk, pass, next);
}

/// Two more pings fill all slots.
fn fills(rt: &impl Abort, alloc: Global, desk: &Desk, pass: &mut Pass)
    requires own { IsOf desk.now pass.old }
    ensures own { IsOf desk.now pass.new }
    ensures keeps { IsAsBefore (known pass.old) (known pass.new) }
{
    let one = opens(rt, alloc, desk, pass, name(rt, 0, b"x"));
    let two = opens(rt, alloc, desk, pass, name(rt, 1, b"x"));
    assert!(rt; pass.tickets() == 256 && two.number() == 256);
    stays_full(rt, alloc, desk, pass, &two);
    used_again(rt, alloc, desk, pass, one);
    gives_back(desk, pass, two);
}

/// Pings of the callers from 2 to this one are opened, and then two more. All tickets
/// are given back.
fn opens_all(rt: &impl Abort, alloc: Global, desk: &Desk, pass: &mut Pass, last: u8)
    requires own { IsOf desk.now pass.old }
    ensures own { IsOf desk.now pass.new }
    ensures keeps { IsAsBefore (known pass.old) (known pass.new) }
{
    if last < 2 {
        fills(rt, alloc, desk, pass);
        return;
    }
    let held = opens(rt, alloc, desk, pass, name(rt, last, b"x"));
    let below = last - 1;
    opens_all(rt, alloc, desk, pass, below);
    gives_back(desk, pass, held);
}

#[test]
fn slots_are_filled_and_used_again(rt: HostRuntime) {
    let (desk, mut pass) = opened(&rt, rt.alloc());
    opens_all(&rt, rt.alloc(), &desk, &mut pass, 255);
    drop(history(&rt, desk, pass));
}
