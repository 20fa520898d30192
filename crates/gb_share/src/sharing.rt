//! A run with requesters.

ghost use Rattle.std.specs.Prelude.{◌≡◌, ◌+◌, ◌<◌, [], ◌∷◌, IfOk, IsErrOf, OnOk, length};
ghost use Rattle.gb_desk.specs.Passes.{IsOf};
ghost use Rattle.gb_desk.specs.Rules.{all_parts};
ghost use Rattle.gb_desk.specs.declared.view.View.{View};
ghost use Rattle.gb_share.specs.Alone.{IsAlone, IsExact};
ghost use Rattle.gb_share.specs.Doing.{HasNone, done_by};
ghost use Rattle.gb_share.specs.Hands.{knows};
ghost use Rattle.gb_share.specs.Lines.{AreValid};
ghost use Rattle.gb_share.specs.Requesters.{AllValid, AreFresh, AreNumbered, AreSame, AreWhole};
ghost use Rattle.gb_share.specs.Requesters.{HaveOpened, HaveRun, parts_for};
ghost use Rattle.gb_share.specs.Shares.{IsShared};
ghost use Rattle.gb_share.specs.Uses.{HasMost, Uses, all_left, lines_left};

use crate::hand::Hand;
use crate::requester::Requester;
use crate::stop::ShareStop;
use crate::threads::run_all;
use gb_base::{FreeGate, Gate, OutOfMemory};
use gb_desk::{Desk, Journal};
use gb_system::System;
use std::alloc::Global;
use std::thread::Threads;

/// Runs the lines that were left, in this thread, requesters in order.
fn run_rest(
    alloc: Global,
    desk: &Desk,
    hand: &mut Hand,
    all: &mut [Requester],
) -> Result<(), ShareStop>
    requires own { IsOf desk.now hand.old.pass }
    requires numbered { AreNumbered all.old }
    requires valid { AllValid all.old }
    requires parts { (knows hand.old).parts ≡ all_parts }
    ensures own { IsOf desk.now hand.new.pass }
    ensures parts { (knows hand.new).parts ≡ all_parts }
    ensures same { AreSame all.old all.new }
    ensures ran { OnOk result ((v : View) → HaveRun all.old v (knows hand.old)
        → HaveRun all.new v (knows hand.new)) }
    ensures whole { OnOk result (AreWhole all.new) }
    ensures uses { Uses (all_left all.old) 0 (knows hand.old) (knows hand.new) }
    ensures spent { length (knows hand.old).tickets + all_left all.old < all_parts
        → IsErrOf result ShareStop.Spent → HasMost (knows hand.new) }
{
    for at in 0..all.len() {
        all[at].run(alloc, desk, hand, &FreeGate)?;
    }
    Ok(())
}

/// Runs all lines: those of requester 0, those of the others at once, and what these left.
fn run_lines<R: Threads + Sync, G: Gate>(
    rt: &R,
    alloc: Global,
    desk: &Desk,
    hand: &mut Hand,
    first: &mut Requester,
    others: &mut [Requester],
    gate: &G,
) -> Result<(), ShareStop>
    requires own { IsOf desk.now hand.old.pass }
    requires all { (knows hand.old).parts ≡ all_parts }
    requires none { HasNone (knows hand.old) × ((knows hand.old).tickets ≡ []) }
    requires idle { done_by 0 (knows hand.old) ≡ [] }
    requires first { (first.old.who ≡ 0) × (first.old.full ≡ []) }
    requires others { AreNumbered others.old × AreFresh others.old }
    requires valid { AreValid first.old.lines × AllValid others.old }
    requires few { length first.old.lines + parts_for others.old < all_parts }
    ensures own { IsOf desk.now hand.new.pass }
    ensures parts { (knows hand.new).parts ≡ all_parts }
    ensures same { AreSame (first.old ∷ others.old) (first.new ∷ others.new) }
    ensures ran { OnOk result (HaveOpened first.new others.new (knows hand.old)
        (knows hand.new)) }
    ensures whole { OnOk result (AreWhole (first.new ∷ others.new)) }
    ensures uses { Uses (lines_left first.old + all_left others.old) 0 (knows hand.old)
        (knows hand.new) }
    ensures spent { IsErrOf result ShareStop.Spent → HasMost (knows hand.new) }
    ensures exact { IsAlone first.old (knows hand.old) hand.old.held.items
        → OnOk result (IsExact first.new (knows hand.new)) }
{
    first.run(alloc, desk, hand, &FreeGate)?;
    run_all(rt, alloc, desk, hand, gate, others)?;
    run_rest(alloc, desk, hand, others)
}

/// What was refused, where nothing is spent.
fn refused_by(why: ShareStop) -> OutOfMemory
    requires unspent { why ≡ ShareStop.Spent → ⊥ }
{
    match why {
        ShareStop::Memory(refused) => refused,
        ShareStop::Spent => unreachable!(),
    }
}

/// Runs the lines of requester 0 alone, and then those of the others at once, each in a thread of
/// its own with calls of the gate. What they left is run behind all that. Neither the history nor a
/// pass is ever spent: each line brings one event and one ticket at most.
pub fn share<R: Threads + Sync, G: Gate>(
    rt: &R,
    alloc: Global,
    first: &mut Requester,
    others: &mut [Requester],
    gate: &G,
) -> Result<(System, Journal), OutOfMemory>
    requires first { (first.old.who ≡ 0) × (first.old.full ≡ []) }
    requires others { AreNumbered others.old × AreFresh others.old }
    requires valid { AreValid first.old.lines × AllValid others.old }
    requires few { length first.old.lines + parts_for others.old < all_parts }
    ensures same { AreSame (first.old ∷ others.old) (first.new ∷ others.new) }
    ensures shared { IfOk result (λ r. IsShared (first.new ∷ others.new) r.0 r.1) }
{
    let system = System::new(alloc)?;
    let (desk, pass) = Desk::new(alloc, system)?;
    let mut hand = Hand::new(alloc, pass);
    let ran = run_lines(rt, alloc, &desk, &mut hand, first, others, gate);
    let end = hand.close(desk);
    match ran {
        Ok(()) => Ok(end),
        Err(why) => Err(refused_by(why)),
    }
}
