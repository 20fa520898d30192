//! Several threads with hundreds of events each, over one desk.

ghost use Rattle.std.specs.Prelude.{◌≡◌, ◌<◌, [], false};
ghost use Rattle.std.specs.Thread.{IsSync};
ghost use Rattle.gb_desk.specs.Passes.{IsAsBefore, IsOf, known};
ghost use Rattle.gb_formats.specs.ValidEvents.{IsValid};
ghost use Rattle.gb_machine.specs.AskingEvents.{asks};

use crate::desk::{history, opened};
use gb_base::{End, Event, Kind, Kinds};
use gb_desk::{Desk, DeskFault, Journal, Pass};
use std::alloc::Global;
use std::process::Abort;
use std::thread;
use std::thread::{Threads, join_mut};

/// How many events each thread does.
const EVENTS: u32 = 300;

/// How often a thread tries to get the turn for one event.
const TRIES: u32 = 100_000_000;

/// What the threads do, over and over.
fn event(at: u32) -> Event
    ensures valid { IsValid result }
    ensures plain { asks result ≡ false }
{
    match at % 6 {
        0 => Event::Boot,
        1 => Event::Insert {
            intf: 2,
            kinds: Kinds::one(Kind::Uart),
        },
        2 => Event::Settle { most: 2 },
        3 => Event::Deliver { at: End::Svc },
        4 => Event::Show,
        _ => Event::Pull { intf: 2 },
    }
}

/// Tries an event until it gets the turn.
fn tried(desk: &Desk, pass: &mut Pass, by: u8, e: &Event)
    requires own { IsOf desk.now pass.old }
    requires valid { IsValid e.now }
    requires plain { asks e.now ≡ false }
    ensures own { IsOf desk.now pass.new }
    ensures keeps { IsAsBefore (known pass.old) (known pass.new) }
{
    for _ in 0..TRIES {
        match desk.call(pass, by, e) {
            Err(DeskFault::Busy) => thread::yield_now(),
            _ => return,
        }
    }
}

/// What one thread does.
fn work(desk: &Desk, pass: &mut Pass, by: u8)
    requires own { IsOf desk.now pass.old }
    ensures own { IsOf desk.now pass.new }
    ensures keeps { IsAsBefore (known pass.old) (known pass.new) }
{
    for at in 0..EVENTS {
        tried(desk, pass, by, &event(at));
    }
}

/// A thread for each tag up to this one, all at once, on the parts of one pass.
fn all_at_once<R: Threads + Sync>(rt: &R, desk: &Desk, pass: &mut Pass, last: u8)
    requires own { IsOf desk.now pass.old }
    requires parts { last < (known pass.old).parts }
    requires none { (known pass.old).tickets ≡ [] }
    ensures own { IsOf desk.now pass.new }
    ensures keeps { IsAsBefore (known pass.old) (known pass.new) }
{
    if last == 0 {
        work(desk, pass, 0);
        return;
    }
    let below = last - 1;
    let mut other = desk.split(pass, 1);
    let beside = &mut other;
    join_mut(
        rt,
        &mut ||
            requires { IsOf desk.now beside.now }
            ensures { IsOf desk.entry.now beside.exit.now
                × IsAsBefore (known beside.entry.now) (known beside.exit.now) }
        { work(desk, beside, last) },
        &mut ||
            requires { IsSync R.row × IsOf desk.now pass.now × (below < (known pass.now).parts)
                × ((known pass.now).tickets ≡ []) }
            ensures { IsOf desk.entry.now pass.exit.now
                × IsAsBefore (known pass.entry.now) (known pass.exit.now) }
        { all_at_once(rt, desk, pass, below) },
    );
    desk.join(pass, other);
}

/// How many entries of the history have this tag.
fn count(journal: &Journal, by: u8) -> usize {
    let mut events = journal.events();
    let mut count = 0usize;
    for _ in 0..journal.len() {
        let Some(event) = events.next() else {
            return count;
        };
        count = count.saturating_add(usize::from(event.by == by));
    }
    count
}

/// What the thread of each tag up to this one did is there, and nothing else.
fn all_there(rt: &impl Abort, last: u8, journal: &Journal) {
    assert!(rt; journal.len() == 300 * (usize::from(last) + 1));
    for by in 0..=last {
        assert!(rt; count(journal, by) == 300);
    }
}

fn share<R: Threads + Sync + Abort>(rt: &R, alloc: Global, last: u8) {
    let (desk, mut pass) = opened(rt, alloc);
    all_at_once(rt, &desk, &mut pass, last);
    all_there(rt, last, &history(rt, desk, pass));
}

#[test]
fn two_and_eight_threads_share_one_history(rt: HostRuntime) {
    share(&rt, rt.alloc(), 1);
    share(&rt, rt.alloc(), 7);
}
