//! Requesters in threads of their own.

ghost use Rattle.std.specs.Prelude.{◌≡◌, ◌+◌, ◌<◌, ◌⊎◌, [], IsErrOf, OnOk, length};
ghost use Rattle.std.specs.Thread.{IsSync};
ghost use Rattle.gb_desk.specs.Passes.{IsOf};
ghost use Rattle.gb_share.specs.Doing.{HasNone};
ghost use Rattle.gb_share.specs.Hands.{knows};
ghost use Rattle.gb_share.specs.Lines.{AreValid};
ghost use Rattle.gb_share.specs.Requesters.{AllValid, AreFresh, AreNumbered, AreSame, HaveRun};
ghost use Rattle.gb_share.specs.Requesters.{Runs, parts_for};
ghost use Rattle.gb_share.specs.Uses.{HasMost, IsSpent, Uses, all_left, lines_left};

use crate::hand::Hand;
use crate::requester::Requester;
use crate::stop::ShareStop;
use gb_base::Gate;
use gb_desk::Desk;
use std::alloc::Global;
use std::thread::{Threads, join_mut};

/// Runs the lines of all these requesters at once, each in a thread of its own.
#[cycle(together)]
pub fn run_all<R: Threads + Sync, G: Gate>(
    rt: &R,
    alloc: Global,
    desk: &Desk,
    hand: &mut Hand,
    gate: &G,
    all: &mut [Requester],
) -> Result<(), ShareStop>
    requires own { IsOf desk.now hand.old.pass }
    requires none { HasNone (knows hand.old) }
    requires fresh { AreFresh all.old }
    requires numbered { AreNumbered all.old }
    requires valid { AllValid all.old }
    requires parts { length (knows hand.old).tickets + parts_for all.old < (knows hand.old).parts }
    ensures own { IsOf desk.now hand.new.pass }
    ensures parts { (knows hand.new).parts ≡ (knows hand.old).parts }
    ensures same { AreSame all.old all.new }
    ensures ran { OnOk result (HaveRun all.new (knows hand.old) (knows hand.new)) }
    ensures uses { Uses (all_left all.old) 0 (knows hand.old) (knows hand.new) }
    ensures left { OnOk result (Uses (all_left all.old) (all_left all.new) (knows hand.old)
        (knows hand.new)) }
    ensures spent { IsErrOf result ShareStop.Spent → HasMost (knows hand.new) }
{
    let Some((last, others)) = all.split_last_mut() else {
        return Ok(());
    };
    let mut own = hand.split(alloc, desk, last.parts());
    let ran = both(rt, alloc, desk, gate, hand, &mut own, last, others);
    let joined = hand.join(desk, own);
    ran?;
    joined?;
    Ok(())
}

/// Runs the last requester in a thread of its own, and the others beside it.
#[cycle(together)]
fn both<R: Threads + Sync, G: Gate>(
    rt: &R,
    alloc: Global,
    desk: &Desk,
    gate: &G,
    hand: &mut Hand,
    own: &mut Hand,
    last: &mut Requester,
    others: &mut [Requester],
) -> Result<(), ShareStop>
    requires own { IsOf desk.now hand.old.pass × IsOf desk.now own.old.pass }
    requires none { HasNone (knows hand.old) }
    requires fresh { AreFresh others.old }
    requires numbered { AreNumbered others.old }
    requires valid { AreValid last.old.lines × AllValid others.old }
    requires parts { length (knows hand.old).tickets + parts_for others.old
        < (knows hand.old).parts }
    ensures own { IsOf desk.now hand.new.pass × IsOf desk.now own.new.pass }
    ensures parts { ((knows hand.new).parts ≡ (knows hand.old).parts)
        × ((knows own.new).parts ≡ (knows own.old).parts) }
    ensures same { AreSame others.old others.new }
    ensures who { last.new.who ≡ last.old.who }
    ensures lines { last.new.lines ≡ last.old.lines }
    ensures last { OnOk result (Runs last.old last.new (knows own.old) (knows own.new)) }
    ensures others { OnOk result (HaveRun others.new (knows hand.old) (knows hand.new)) }
    ensures uses { Uses (all_left others.old) 0 (knows hand.old) (knows hand.new) }
    ensures uses_own { Uses (lines_left last.old) 0 (knows own.old) (knows own.new) }
    ensures left { OnOk result (Uses (all_left others.old) (all_left others.new) (knows hand.old)
        (knows hand.new)) }
    ensures left_own { OnOk result (Uses (lines_left last.old) (lines_left last.new)
        (knows own.old) (knows own.new)) }
    ensures spent { IsErrOf result ShareStop.Spent
        → IsSpent (knows own.new) ⊎ HasMost (knows hand.new) }
{
    let mut alone = || -> Result<(), ShareStop>
        requires { IsSync G.row × IsOf desk.now own.now.pass
            × AreValid last.now.lines }
        ensures { IsOf desk.entry.now own.exit.now.pass
            × ((knows own.exit.now).parts ≡ (knows own.entry.now).parts)
            × (last.exit.now.who ≡ last.entry.now.who)
            × (last.exit.now.lines ≡ last.entry.now.lines)
            × OnOk result (Runs last.entry.now last.exit.now (knows own.entry.now)
            (knows own.exit.now))
            × Uses (lines_left last.entry.now) 0 (knows own.entry.now) (knows own.exit.now)
            × OnOk result (Uses (lines_left last.entry.now) (lines_left last.exit.now)
            (knows own.entry.now) (knows own.exit.now))
            × (IsErrOf result ShareStop.Spent → IsSpent (knows own.exit.now)) }
    { last.run(alloc, desk, own, gate) };
    let mut beside = || -> Result<(), ShareStop>
        requires { IsSync R.row × IsSync G.row × IsOf desk.now hand.now.pass
            × HasNone (knows hand.now) × AreFresh others.now × AreNumbered others.now
            × AllValid others.now
            × (length (knows hand.now).tickets + parts_for others.now
            < (knows hand.now).parts) }
        ensures { IsOf desk.entry.now hand.exit.now.pass
            × ((knows hand.exit.now).parts ≡ (knows hand.entry.now).parts)
            × AreSame others.entry.now others.exit.now
            × OnOk result (HaveRun others.exit.now (knows hand.entry.now)
            (knows hand.exit.now))
            × Uses (all_left others.entry.now) 0 (knows hand.entry.now) (knows hand.exit.now)
            × OnOk result (Uses (all_left others.entry.now) (all_left others.exit.now)
            (knows hand.entry.now) (knows hand.exit.now))
            × (IsErrOf result ShareStop.Spent → HasMost (knows hand.exit.now)) }
    { run_all(rt, alloc, desk, hand, gate, others) };
    let (ran, others_ran) = join_mut(rt, &mut alone, &mut beside);
    ran?;
    others_ran
}
