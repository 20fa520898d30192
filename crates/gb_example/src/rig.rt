//! A system that is stepped, and the report of its events.

ghost use Rattle.std.specs.Prelude.{◌≡◌, ◌+◌, ◌<◌, ◌≤◌, List, [], ◌∷◌, IfOk, OnOk};
ghost use Rattle.std.specs.String.{string_bytes};
ghost use Rattle.gb_base.specs.declared.event.Event as declared;
ghost use Rattle.gb_formats.specs.ValidEvents.{IsValid};
ghost use Rattle.gb_system.specs.Stands.{taken_of};

use gb_base::{Entries, Event, OutOfMemory};
use gb_report::append_all;
use gb_system::System;
use std::alloc::Global;

/// A system with the report of its events, which are numbered from 1.
#[derive(Drop)]
pub struct Rig {
    system: System,
    /// What the last event brought about.
    told: Entries,
    report: String,
    events: u32,
    ghost counted: { taken_of system ≤ events },
}

impl Rig {
    ghost use Rattle.gb_example.specs.Example.{HasRun, counted, reported};

    /// Nothing is plugged, and nothing was reported.
    pub fn new(alloc: Global) -> Result<Rig, OutOfMemory>
        ensures run { IfOk result (λ x. HasRun x []) }
        ensures count { IfOk result (λ x. counted x ≡ 0) }
    {
        Ok(Rig {
            system: System::new(alloc)?,
            told: Entries::new(alloc),
            report: String::new(alloc),
            events: 0,
        })
    }

    /// Steps an event. At most 4,294,967,294 may have been stepped before.
    pub fn step(&mut self, e: &Event) -> Result<(), OutOfMemory>
        requires valid { IsValid e.now }
        requires room { counted self.old < 4294967295 }
        ensures run { (es : List declared.Event) → HasRun self.old es
            → OnOk result (HasRun self.new (e.now ∷ es)) }
        ensures count { OnOk result (counted self.new ≡ counted self.old + 1) }
    {
        self.events += 1;
        self.system.step_into(e, &mut self.told)?;
        append_all(self.told.items(), self.events, false, &mut self.report)?;
        Ok(())
    }

    /// The report.
    pub fn report(&self) -> &str
        ensures { result.now ≡ reported self.now }
    {
        self.report.as_str()
    }
}
