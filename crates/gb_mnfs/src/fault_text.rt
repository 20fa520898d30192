//! Appends why no manifest is made of a text.

ghost use Rattle.std.specs.Prelude.{◌≡◌, ◌++◌, Err, IfOk, IsSomeAnd, OnErr, OnOk};
ghost use Rattle.std.specs.String.{string_bytes};
ghost use Rattle.gb_formats.specs.SourceTexts.{compile_text, mnfs_reason_text, source_fault_text};
ghost use Rattle.gb_mnfs.specs.Answers.{fault_of};

use crate::mnfs_fault::MnfsFault;
use gb_base::{MnfsReason, OutOfMemory, Text};
use gb_report::{line_of, put_line, reason_name};
use std::alloc::Global;

/// Appends the line of a fault: `line L: REASON`, `string ID too long`, `refused REASON` or
/// `manifest too long`. At a fault for want of memory nothing is appended, and it is answered.
/// After a refusal `out` is as before.
pub fn put_fault(alloc: Global, fault: &MnfsFault, out: &mut Text) -> Result<(), OutOfMemory>
    ensures ok { OnOk result
        (IsSomeAnd (fault_of fault.now) (λ why. out.new ≡ out.old ++ compile_text (Err why))) }
    ensures err { OnErr result (out.new ≡ out.old) }
{
    let mut line = fault_line(alloc, fault)?;
    put_line(&mut line, out)
}

/// The line of a fault, without its end.
fn fault_line(alloc: Global, fault: &MnfsFault) -> Result<String, OutOfMemory>
    ensures { IfOk result
        (λ s. IsSomeAnd (fault_of fault.now) (λ why. string_bytes s ≡ source_fault_text why)) }
{
    match fault {
        MnfsFault::Line { line, reason } => {
            line_of(alloc, &("line ", (line, (": ", mnfs_reason_name(*reason)))))
        }
        MnfsFault::StringLong { id } => line_of(alloc, &("string ", (id, " too long"))),
        MnfsFault::Rule(reason) => line_of(alloc, &("refused ", reason_name(*reason))),
        MnfsFault::TooLong => line_of(alloc, &"manifest too long"),
        MnfsFault::Memory(refused) => Err(*refused),
    }
}

/// Why a line is refused.
fn mnfs_reason_name(why: MnfsReason) -> &'static str
    ensures { result.now ≡ mnfs_reason_text why }
{
    match why {
        MnfsReason::NotALine => "not a line",
        MnfsReason::NotHere => "not here",
        MnfsReason::Twice => "twice",
        MnfsReason::BadValue => "bad value",
        MnfsReason::Missing => "missing",
    }
}
