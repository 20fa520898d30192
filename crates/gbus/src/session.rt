//! What is done of an input line by line.

ghost use Rattle.std.specs.Prelude.{◌≡◌, ◌+◌, ℕ, List, [], IfOk, OnOk};
ghost use Rattle.gb_script.specs.Readers.{IsLineOf};
ghost use Rattle.gbus.specs.Jobs.{line_job_seen};
ghost use Rattle.gbus.specs.Program.{LineJob as Seen, last_text};
ghost use Rattle.gbus.specs.Sessions.{turn_of};

use crate::words::LineJob;
use gb_base::OutOfMemory;
use gb_capture::{Auditor, Turn};
use gb_script::Line;
use gb_session::{Ran, Reporter};
use std::alloc::Global;

/// What has been done of the lines of an input.
#[derive(Drop)]
pub enum Session {
    /// A script was run and is reported.
    Report(Reporter),
    /// A capture was audited.
    Audit(Auditor),
}

impl Session {
    ghost use Rattle.gbus.specs.Sessions.{IsBehind, TurnsAs, lines_taken, written};

    /// Before the first line.
    pub fn new(alloc: Global, job: LineJob) -> Result<Session, OutOfMemory>
        ensures behind { IfOk result (λ x. IsBehind x (line_job_seen job) []) }
        ensures number { IfOk result (λ x. lines_taken x ≡ 0) }
    {
        match job {
            LineJob::Report { hex } => {
                let reporter = Reporter::new(alloc, hex)?;
                Ok(Session::Report(reporter))
            }
            LineJob::Audit => {
                let auditor = Auditor::new(alloc)?;
                Ok(Session::Audit(auditor))
            }
        }
    }

    /// Takes the next line.
    pub fn take(&mut self, line: Line<'_>) -> Result<Turn, OutOfMemory>
        requires { line.number ≡ lines_taken self.old + 1 }
        ensures turn { (j : Seen) → (given : List (List ℕ)) → (whole : List ℕ)
            → IsBehind self.old j given → IsLineOf line.entry.bytes.now line.entry.long whole
            → TurnsAs self.new j given whole result }
        ensures number { OnOk result (lines_taken self.new ≡ lines_taken self.old + 1) }
    {
        match self {
            Session::Report(reporter) => {
                let ran = reporter.take(line)?;
                Ok(turn_of(ran))
            }
            Session::Audit(auditor) => auditor.take(line),
        }
    }

    /// Makes what is written behind all lines, where all are good and no more bytes came than may.
    pub fn close(&mut self) -> Result<(), OutOfMemory>
        ensures { (j : Seen) → (given : List (List ℕ)) → IsBehind self.old j given
            → OnOk result (written self.new ≡ last_text j given) }
    {
        match self {
            Session::Report(reporter) => {
                reporter.clear();
                Ok(())
            }
            Session::Audit(auditor) => auditor.close(),
        }
    }

    /// What is to be written of the last line, or behind all lines.
    pub fn text(&self) -> &[u8]
        ensures { result.now ≡ written self.now }
    {
        match self {
            Session::Report(reporter) => reporter.text(),
            Session::Audit(auditor) => auditor.text(),
        }
    }
}

/// What became of a line of a script.
fn turn_of(ran: Ran) -> Turn
    ensures { result ≡ turn_of ran }
{
    match ran {
        Ran::Done => Turn::Next,
        Ran::Bad => Turn::Refused,
    }
}
