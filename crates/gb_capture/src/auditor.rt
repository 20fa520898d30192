//! An audit line by line, with the text of each line.

ghost use Rattle.std.specs.Prelude.{◌≡◌, ◌+◌, ◌≤◌, ℕ, List, [], IfOk, OnOk};
ghost use Rattle.gb_capture.specs.Audits.{last_line};
ghost use Rattle.gb_formats.specs.AuditTexts.{closing_text};
ghost use Rattle.gb_script.specs.Readers.{IsLineOf};

use crate::audit::Audit;
use crate::capture::captured;
use gb_base::{CaptureFault, OutOfMemory};
use gb_report::{append_bad_capture, append_finding, append_verdict};
use gb_script::Line;
use std::alloc::Global;

/// How many bytes the message of a line has at most.
const ROOM: usize = 4_096;

/// A capture as far as it was taken, and what is written of its last line.
#[derive(Drop)]
pub struct Auditor {
    audit: Audit,
    /// Room for the bytes of a message.
    room: [u8; ROOM],
    text: String,
    /// How many lines were taken.
    number: u32,
    ghost counted: { last_line audit ≤ number },
}

/// What became of a line.
#[derive(Clone, Copy, Debug, PartialEq, Eq)]
pub enum Turn {
    /// It was taken, and the next line may be.
    Next,
    /// It is bad.
    Refused,
}

impl Auditor {
    ghost use Rattle.gb_capture.specs.Auditors.{HasTaken, TurnsAs, number_of, written};

    /// Before the first line.
    pub fn new(alloc: Global) -> Result<Auditor, OutOfMemory>
        ensures { IfOk result (λ a. HasTaken a []) }
    {
        Ok(Auditor {
            audit: Audit::new(alloc)?,
            room: [0; ROOM],
            text: String::new(alloc),
            number: 0,
        })
    }

    /// Takes the next line. After a bad line and after a refusal no further line may be taken.
    pub fn take(&mut self, line: Line<'_>) -> Result<Turn, OutOfMemory>
        requires { line.number ≡ number_of self.old + 1 }
        ensures turn { (given : List (List ℕ)) → (whole : List ℕ) → HasTaken self.old given
            → IsLineOf line.entry.bytes.now line.entry.long whole
            → TurnsAs self.new given whole result }
        ensures number { OnOk result (number_of self.new ≡ number_of self.old + 1) }
    {
        self.number = line.number;
        self.text.clear();
        if line.long {
            append_bad_capture(line.number, &CaptureFault::TooLong, &mut self.text)?;
            return Ok(Turn::Refused);
        }
        match captured(line.bytes, &mut self.room) {
            Ok(None) => Ok(Turn::Next),
            Ok(Some((from_ap, m))) => {
                if let Some(found) = self.audit.take(line.number, from_ap, &m) {
                    append_finding(line.number, &found, &mut self.text)?;
                }
                Ok(Turn::Next)
            }
            Err(why) => {
                append_bad_capture(line.number, &why, &mut self.text)?;
                Ok(Turn::Refused)
            }
        }
    }

    /// Makes the last line of the audit of the lines that were taken.
    pub fn close(&mut self) -> Result<(), OutOfMemory>
        ensures { OnOk result ((given : List (List ℕ)) → HasTaken self.old given
            → written self.new ≡ closing_text given) }
    {
        self.text.clear();
        append_verdict(&self.audit.verdict(), &mut self.text)
    }

    /// What is written of the line that was taken last, or the last line of the audit once
    /// it is closed.
    pub fn text(&self) -> &[u8]
        ensures { result.now ≡ written self.now }
    {
        self.text.as_bytes()
    }
}
