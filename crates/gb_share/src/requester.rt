//! A requester, which runs its lines in order.

ghost use Rattle.std.specs.Prelude.{◌≡◌, ◌≢◌, ◌+◌, ◌<◌, ◌≤◌, [], ◌∷◌, ◌++◌, false, true, OnErr};
ghost use Rattle.std.specs.Prelude.{IfOk, IsErrOf, OnOk, Ok, length};
ghost use Rattle.std.specs.Arc.{arc_value};
ghost use Rattle.gb_base.specs.declared.entry.Entry.TheVariants as entry;
ghost use Rattle.gb_base.specs.declared.refusal.Refusal.TheVariants as why;
ghost use Rattle.gb_desk.specs.Passes.{IsOf};
ghost use Rattle.gb_desk.specs.Rules.{all_parts};
ghost use Rattle.gb_share.specs.Lines.{AreAsking, AreValid, MayBeFull};
ghost use Rattle.gb_share.specs.Picks.{lines_by};
ghost use Rattle.gb_share.specs.Hands.{knows};

use crate::hand::Hand;
use crate::lines::Lines;
use crate::stop::ShareStop;
use crate::tries::tried;
use gb_base::{Asked, Entries, Entry, Gate, OutOfMemory, Refusal, Sequence};
use gb_desk::{Desk, DeskFault};
use std::alloc::Global;
use std::sync::Arc;

/// A caller with its lines. Those that were run have a mark each: whether they found no slot.
#[derive(Drop)]
pub struct Requester {
    pub(crate) who: u8,
    pub(crate) lines: Lines,
    pub(crate) full: Sequence<bool>,
    last: Entries,
    ghost short: { length lines < 4294967295 },
    ghost within: { length full ≤ length lines },
    ghost asking: { AreAsking lines full },
}

/// What is told of a line that found no slot.
pub fn full_told(alloc: Global) -> Result<Entries, OutOfMemory>
    ensures { IfOk result (λ told. told ≡ entry.Refused why.Full ∷ []) }
{
    let mut told = Entries::new(alloc);
    told.push(Entry::Refused { why: Refusal::Full })?;
    Ok(told)
}

impl Requester {
    ghost use Rattle.gb_share.specs.Alone.{IsAlone};
    ghost use Rattle.gb_share.specs.Requesters.{Runs};
    ghost use Rattle.gb_share.specs.Uses.{IsSpent, Uses, lines_left};

    /// A requester with its lines of a script, which has run nothing.
    pub fn new(
        alloc: Global,
        script: &Arc<Sequence<Asked>, Global>,
        who: u8,
    ) -> Result<Requester, OutOfMemory>
        requires few { length (arc_value script.now) ≤ 1048577 }
        ensures who { IfOk result (λ x. x.who ≡ who) }
        ensures lines { IfOk result (λ x. x.lines ≡ lines_by who (arc_value script.now)) }
        ensures full { IfOk result (λ x. x.full ≡ []) }
    {
        let lines = Lines::of(alloc, script, who)?;
        Ok(Requester {
            who,
            lines,
            full: Sequence::new(alloc),
            last: Entries::new(alloc),
        })
    }

    /// How many parts of a pass it needs: one for each ticket that a line can bring, and one more.
    pub fn parts(&self) -> u32
        ensures { result ≡ length self.now.lines + 1 }
    {
        self.lines.len() as u32 + 1
    }

    // The next line was run: what was told of it, and whether it found no slot.
    fn note(&mut self, told: Entries, full: bool) -> Result<(), OutOfMemory>
        requires left { length self.old.full < length self.old.lines }
        requires asking { MayBeFull self.old.lines self.old.full full }
        ensures who { self.new.who ≡ self.old.who }
        ensures lines { self.new.lines ≡ self.old.lines }
        ensures noted { OnOk result (self.new.full ≡ self.old.full ++ full ∷ []) }
    {
        self.full.push(full)?;
        self.last = told;
        Ok(())
    }

    // Tries the next line. The answer is whether it was run.
    fn next(&mut self, alloc: Global, desk: &Desk, hand: &mut Hand) -> Result<bool, ShareStop>
        requires own { IsOf desk.now hand.old.pass }
        requires left { length self.old.full < length self.old.lines }
        requires valid { AreValid self.old.lines }
        ensures own { IsOf desk.now hand.new.pass }
        ensures parts { (knows hand.new).parts ≡ (knows hand.old).parts }
        ensures who { self.new.who ≡ self.old.who }
        ensures lines { self.new.lines ≡ self.old.lines }
        ensures runs { OnOk result (Runs self.old self.new (knows hand.old) (knows hand.new)) }
        ensures uses { Uses (lines_left self.old) 0 (knows hand.old) (knows hand.new) }
        ensures left { OnOk result (Uses (lines_left self.old) (lines_left self.new)
            (knows hand.old) (knows hand.new)) }
        ensures spent { IsErrOf result ShareStop.Spent → IsSpent (knows hand.new) }
        ensures ran { result ≡ Ok true → length self.new.full ≡ length self.old.full + 1 }
        ensures kept { result ≡ Ok false → (knows hand.old).parts ≢ all_parts }
        ensures alone { IsAlone self.old (knows hand.old) hand.old.held.items
            → OnOk result (IsAlone self.new (knows hand.new) hand.new.held.items) }
    {
        let Some(line) = self.lines.get(self.full.items().len()) else {
            unreachable!()
        };
        match tried(hand, desk, self.who, &line.event) {
            Ok(told) => {
                self.note(told, false)?;
                Ok(true)
            }
            Err(DeskFault::Full) => {
                self.note(full_told(alloc)?, true)?;
                Ok(true)
            }
            Err(DeskFault::Busy) => Ok(false),
            Err(DeskFault::JournalSpent) => Err(ShareStop::Spent),
            Err(DeskFault::PassSpent) => Err(ShareStop::Spent),
            Err(DeskFault::Memory(refused)) => Err(ShareStop::Memory(refused)),
        }
    }

    /// Runs its lines in order, with a call of the gate before each of them and one behind the
    /// last. Where another caller has the turn too long, the line and all that follow are left.
    pub fn run<G: Gate>(
        &mut self,
        alloc: Global,
        desk: &Desk,
        hand: &mut Hand,
        gate: &G,
    ) -> Result<(), ShareStop>
        requires own { IsOf desk.now hand.old.pass }
        requires valid { AreValid self.old.lines }
        ensures own { IsOf desk.now hand.new.pass }
        ensures parts { (knows hand.new).parts ≡ (knows hand.old).parts }
        ensures who { self.new.who ≡ self.old.who }
        ensures lines { self.new.lines ≡ self.old.lines }
        ensures runs { OnOk result (Runs self.old self.new (knows hand.old) (knows hand.new)) }
        ensures uses { Uses (lines_left self.old) 0 (knows hand.old) (knows hand.new) }
        ensures left { OnOk result (Uses (lines_left self.old) (lines_left self.new)
            (knows hand.old) (knows hand.new)) }
        ensures spent { IsErrOf result ShareStop.Spent → IsSpent (knows hand.new) }
        ensures whole { (knows hand.old).parts ≡ all_parts
            → OnOk result (length self.new.full ≡ length self.new.lines) }
        ensures alone { IsAlone self.old (knows hand.old) hand.old.held.items
            → OnOk result (IsAlone self.new (knows hand.new) hand.new.held.items) }
    {
        while self.full.items().len() < self.lines.len() {
            gate.before(self.who, self.turn(), &self.last);
            if !self.next(alloc, desk, hand)? {
                return Ok(());
            }
            hand.give_way(self.full.items().len());
        }
        gate.before(self.who, self.turn(), &self.last);
        Ok(())
    }

    // The number of its next call of the gate, from 1.
    fn turn(&self) -> u64 {
        self.full.items().len() as u64 + 1
    }
}
