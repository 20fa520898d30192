//! Runs the script that is made from a number.

ghost use Rattle.std.specs.Prelude.{◌≡◌, ◌+◌, ◌<◌, ◌≤◌, IfOk, OnOk};
ghost use Rattle.gb_formats.specs.ValidEvents.{IsValid};
ghost use Rattle.gb_machine.specs.Events.{trace};
ghost use Rattle.gb_machine.specs.State.{State, first_state};
ghost use Rattle.gb_machine.specs.Summary.{counts, counts_at, is_refused, made_events, summary};
ghost use Rattle.gb_report.specs.Counted.{counts_of};
ghost use Rattle.gb_system.specs.Stands.{taken_of};
ghost use Rattle.gbus.specs.Answers.{bytes_in};

use crate::answer::{Answer, Output};
use gb_base::{Entries, Entry, Event, OutOfMemory, Status, Text};
use gb_bus::Tally;
use gb_report::{Counts, put_summary};
use gb_script::{MADE_LINES, Maker};
use gb_system::System;
use std::alloc::Global;

/// The system that a made script has brought about.
#[derive(Drop)]
pub struct Driven {
    system: System,
    /// What the last event brought about.
    entries: Entries,
    /// How many events were refused.
    refused: u64,
}

impl Driven {
    ghost use Rattle.gb_system.specs.Stands as system;
    ghost use Rattle.gbus.specs.Driving.{GoesAs};

    /// Before the first event.
    fn new(alloc: Global) -> Result<Driven, OutOfMemory>
        ensures stands { IfOk result (λ x. system.Stands x.system first_state) }
        ensures taken { IfOk result (λ x. taken_of x.system ≡ 0) }
        ensures refused { IfOk result (λ x. x.refused ≡ 0) }
    {
        Ok(Driven {
            system: System::new(alloc)?,
            entries: Entries::new(alloc),
            refused: 0,
        })
    }

    /// Steps the next event.
    fn take(&mut self, e: &Event) -> Result<(), OutOfMemory>
        requires valid { IsValid e.now }
        requires room { taken_of self.old.system < 4294967295 }
        requires few { self.old.refused ≤ taken_of self.old.system }
        ensures goes { (s : State) → system.Stands self.old.system s
            → GoesAs self.old self.new s e.now result }
        ensures taken { OnOk result (taken_of self.new.system ≡ taken_of self.old.system + 1) }
        ensures few { OnOk result (self.new.refused ≤ self.old.refused + 1) }
    {
        self.system.step_into(e, &mut self.entries)?;
        if is_refused(&self.entries) {
            self.refused += 1;
        }
        Ok(())
    }

    /// How many events were refused, and how the requests stand.
    fn counts(&self) -> Counts
        ensures { (s : State) → system.Stands self.now.system s
            → counts_of result ≡ counts_at self.now.refused s.bus }
    {
        let Tally {
            requests,
            answered,
            cancelled,
            timeout,
            disconnected,
            sent,
            left_open,
        } = self.system.tally();
        Counts {
            refused: self.refused,
            requests,
            answered,
            cancelled,
            timeout,
            disconnected,
            sent,
            left_open,
        }
    }
}

/// What is written for the script that is made from a number: its summary.
pub fn drive(alloc: Global, seed: u32) -> Result<Answer, OutOfMemory>
    requires { seed ≤ 2147483647 }
    ensures text { IfOk result (λ a. bytes_in a.output ≡ summary seed) }
    ensures status { IfOk result (λ a. a.status ≡ Status.Success) }
{
    let counts = made_counts(alloc, seed)?;
    let mut text = Text::new(alloc);
    put_summary(alloc, u64::from(MADE_LINES), &counts, &mut text)?;
    Ok(Answer {
        output: Output::Text(text),
        status: Status::Success,
    })
}

/// The counts of the script that is made from a number.
fn made_counts(alloc: Global, seed: u32) -> Result<Counts, OutOfMemory>
    requires { seed ≤ 2147483647 }
    ensures { IfOk result (λ c. counts_of c ≡ counts (trace (made_events seed))) }
{
    let mut driven = Driven::new(alloc)?;
    let mut maker = Maker::new(seed);
    for _ in 0..MADE_LINES {
        let event = maker.next(alloc)?;
        driven.take(&event)?;
    }
    Ok(driven.counts())
}

/// An event was refused, by what it brought about.
fn is_refused(entries: &Entries) -> bool
    ensures { result ≡ is_refused entries.now }
{
    matches!(entries.items().first(), Some(Entry::Refused { .. }))
}
