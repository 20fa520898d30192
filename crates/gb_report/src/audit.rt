//! The lines of an audit.

ghost use Rattle.std.specs.Prelude.{◌≡◌, ◌++◌, OnOk};
ghost use Rattle.std.specs.String.{string_bytes};
ghost use Rattle.gb_formats.specs.AuditTexts.{bad_capture_text, found_text, verdict_text};

use crate::lines::end_line;
use crate::part::{Part, parts};
use gb_base::{CaptureFault, Finding, LineReason, OutOfMemory, RawFault, Verdict};

/// What is found of a message.
impl Part for Finding {
    ghost use Rattle.gb_formats.specs.AuditTexts.{finding_text};

    ghost text = { finding_text };

    fn append_to(&self, line: &mut String) -> Result<(), OutOfMemory> {
        match self {
            Finding::Orphan => " orphan".append_to(line),
            Finding::Double { asked } => parts!(" double ", asked).append_to(line),
            Finding::OtherType { asked } => parts!(" type ", asked).append_to(line),
            Finding::Reused { asked } => parts!(" reused ", asked).append_to(line),
        }
    }
}

/// Why a line is none of a capture.
impl Part for CaptureFault {
    ghost use Rattle.gb_formats.specs.AuditTexts.{capture_fault_text};

    ghost text = { capture_fault_text };

    fn append_to(&self, line: &mut String) -> Result<(), OutOfMemory> {
        match *self {
            CaptureFault::TooLong => LineReason::Long.append_to(line),
            CaptureFault::BadByte(at) => LineReason::BadByte(at).append_to(line),
            CaptureFault::BadWord(at) => LineReason::BadWord(at).append_to(line),
            CaptureFault::MissingWord(at) => LineReason::MissingWord(at).append_to(line),
            CaptureFault::ExtraWord(at) => LineReason::ExtraWord(at).append_to(line),
            CaptureFault::Wire(fault) => fault.append_to(line),
            CaptureFault::Extra { count } => RawFault::Extra { count }.append_to(line),
        }
    }
}

/// How many messages break the pairing.
#[derive(Clone, Copy)]
struct Faults(u32);

impl Part for Faults {
    ghost use Rattle.gb_formats.specs.AuditTexts.{faults_text};

    ghost text = { λ f. faults_text f.0 };

    fn append_to(&self, line: &mut String) -> Result<(), OutOfMemory> {
        let count = self.0;
        if count == 0 {
            "clean".append_to(line)
        } else {
            parts!("faults ", count).append_to(line)
        }
    }
}

/// Appends the text of what was found of the message of a line. After a refusal a front of it may
/// stand in `out`.
pub fn append_finding(line: u32, found: &Finding, out: &mut String) -> Result<(), OutOfMemory>
    ensures { OnOk result
        (string_bytes out.new ≡ string_bytes out.old ++ found_text (line, found.now)) }
{
    parts!("line ", line, found).append_to(out)?;
    end_line(out)
}

/// Appends the text that names a bad line of a capture. After a refusal a front of it may
/// stand in `out`.
pub fn append_bad_capture(
    line: u32,
    why: &CaptureFault,
    out: &mut String,
) -> Result<(), OutOfMemory>
    ensures { OnOk result
        (string_bytes out.new ≡ string_bytes out.old ++ bad_capture_text line why.now) }
{
    parts!("line ", line, ": ", why).append_to(out)?;
    end_line(out)
}

/// Appends the last line of an audit. After a refusal a front of it may stand in `out`.
pub fn append_verdict(verdict: &Verdict, out: &mut String) -> Result<(), OutOfMemory>
    ensures { OnOk result
        (string_bytes out.new ≡ string_bytes out.old ++ verdict_text verdict.now) }
{
    let faults = Faults(verdict.faults);
    parts!(faults, " pairs ", verdict.pairs, " open ", verdict.unpaired).append_to(out)?;
    end_line(out)
}
