//! The report of a script, line by line.

ghost use Rattle.std.specs.Prelude.{◌≡◌, ◌+◌, ◌<◌, ◌≤◌, ℕ, List, [], IfOk, OnOk};
ghost use Rattle.gb_machine.specs.State.{State, first_state};
ghost use Rattle.gb_script.specs.Readers.{IsLineOf};
ghost use Rattle.gb_system.specs.Stands.{taken_of};

use gb_base::{Entries, LineReason, OutOfMemory};
use gb_report::{append_all, append_refusal};
use gb_script::{Line, LineFault, event};
use gb_system::System;
use std::alloc::Global;

/// What became of a line.
#[derive(Clone, Copy, Debug, PartialEq, Eq)]
pub enum Ran {
    /// It was run, or has no event.
    Done,
    /// It is bad.
    Bad,
}

/// The system that a script has brought about, and the report of its last line.
#[derive(Drop)]
pub struct Reporter {
    alloc: Global,
    hex: bool,
    system: System,
    /// What the last event brought about.
    entries: Entries,
    text: String,
    /// How many lines were taken.
    number: u32,
    ghost counted: { taken_of system ≤ number },
}

impl Reporter {
    ghost use Rattle.gb_session.specs.Reporting.{RunsAs, Stands, number_of, reported_last};
    ghost use Rattle.gb_session.specs.Reporting.{shows_bytes};

    /// Before the first line.
    pub fn new(alloc: Global, hex: bool) -> Result<Reporter, OutOfMemory>
        ensures stands { IfOk result (λ x. Stands x first_state) }
        ensures number { IfOk result (λ x. number_of x ≡ 0) }
        ensures hex { IfOk result (λ x. shows_bytes x ≡ hex) }
        ensures text { IfOk result (λ x. reported_last x ≡ []) }
    {
        Ok(Reporter {
            alloc,
            hex,
            system: System::new(alloc)?,
            entries: Entries::new(alloc),
            text: String::new(alloc),
            number: 0,
        })
    }

    /// Takes the next line. One that is bad changes nothing but the text and the number.
    pub fn take(&mut self, line: Line<'_>) -> Result<Ran, OutOfMemory>
        requires { line.number ≡ number_of self.old + 1 }
        ensures ran { (s : State) → (whole : List ℕ) → Stands self.old s
            → IsLineOf line.entry.bytes.now line.entry.long whole
            → RunsAs self.new whole s result }
        ensures number { OnOk result (number_of self.new ≡ number_of self.old + 1) }
        ensures hex { OnOk result (shows_bytes self.new ≡ shows_bytes self.old) }
    {
        self.number = line.number;
        self.text.clear();
        if line.long {
            append_refusal(self.number, &LineReason::Long, &mut self.text)?;
            return Ok(Ran::Bad);
        }
        match event(self.alloc, line.bytes, 0) {
            Ok(None) => Ok(Ran::Done),
            Ok(Some(e)) => {
                self.system.step_into(&e, &mut self.entries)?;
                append_all(self.entries.items(), self.number, self.hex, &mut self.text)?;
                Ok(Ran::Done)
            }
            Err(LineFault::Bad(why)) => {
                append_refusal(self.number, &why, &mut self.text)?;
                Ok(Ran::Bad)
            }
            Err(LineFault::Memory(refused)) => Err(refused),
        }
    }

    /// Forgets the report of the last line.
    pub fn clear(&mut self)
        ensures text { reported_last self.new ≡ [] }
        ensures stands { (s : State) → Stands self.old s → Stands self.new s }
        ensures number { number_of self.new ≡ number_of self.old }
        ensures hex { shows_bytes self.new ≡ shows_bytes self.old }
    {
        self.text.clear();
    }

    /// The report of the last line.
    pub fn text(&self) -> &[u8]
        ensures { result.now ≡ reported_last self.now }
    {
        self.text.as_bytes()
    }

    /// How many lines were taken.
    pub fn number(&self) -> u32
        ensures { result ≡ number_of self.now }
    {
        self.number
    }
}
