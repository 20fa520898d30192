//! Events that are tried until they get the turn.

ghost use Rattle.std.specs.Prelude.{◌≡◌, ◌+◌, ◌≤◌, true, Err, OnErr, length};
ghost use Rattle.gb_desk.specs.Passes.{IsOf};
ghost use Rattle.gb_desk.specs.Rules.{all_parts};
ghost use Rattle.gb_formats.specs.ValidEvents.{IsValid};
ghost use Rattle.gb_share.specs.Doing.{DoesAs};
ghost use Rattle.gb_share.specs.Hands.{knows};
ghost use Rattle.gb_share.specs.Names.{FollowsAs};
ghost use Rattle.gb_share.specs.Uses.{Grows, places_for};

use crate::hand::Hand;
use gb_base::{Entries, Event};
use gb_desk::{Desk, DeskFault};
use std::{hint, thread};

/// How often a line is tried while other callers have the turn, before it is kept for later.
const TRIES: u32 = 64;

/// After so many tries in vain waits are short, and from then on each is twice as long.
const SHORT_WAITS: u32 = 32;

/// A wait between two tries is at most two to the power of this many yields.
const LONGEST_WAIT: u32 = 14;

/// A wait begins with so many pauses: about as long as some lines take.
const PAUSES: u32 = 80;

/// Waits a little after this many tries in vain.
fn wait(tries: u32) {
    for _ in 0..PAUSES {
        hint::spin_loop();
    }
    for _ in 0..1u32 << tries.saturating_sub(SHORT_WAITS).min(LONGEST_WAIT) {
        thread::yield_now();
    }
}

/// Whether another caller had the turn.
fn is_busy(answer: &Result<Entries, DeskFault>) -> bool
    ensures { result ≡ true → answer.now ≡ Err DeskFault.Busy }
{
    match answer {
        Err(DeskFault::Busy) => true,
        _ => false,
    }
}

/// Tries an event until it gets the turn, 64 times at most.
pub fn tried(hand: &mut Hand, desk: &Desk, by: u8, e: &Event) -> Result<Entries, DeskFault>
    requires own { IsOf desk.now hand.old.pass }
    requires valid { IsValid e.now }
    ensures own { IsOf desk.now hand.new.pass }
    ensures does { DoesAs (knows hand.old) by e.now result (knows hand.new) }
    ensures grows { Grows (places_for result) (knows hand.old) (knows hand.new) }
    ensures parts { (knows hand.new).parts ≡ (knows hand.old).parts }
    ensures few { length (knows hand.new).tickets ≤ length (knows hand.old).tickets + 1 }
    ensures kept { OnErr result (length (knows hand.new).tickets
        ≤ length (knows hand.old).tickets) }
    ensures names { (knows hand.old).parts ≡ all_parts → FollowsAs (knows hand.old)
        hand.old.held.items by e.now result (knows hand.new) hand.new.held.items }
{
    for tries in 1..TRIES {
        let answer = hand.event(desk, by, e);
        if !is_busy(&answer) {
            return answer;
        }
        wait(tries);
    }
    hand.event(desk, by, e)
}
