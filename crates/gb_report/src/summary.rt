//! The summary of a made script.

ghost use Rattle.std.specs.Prelude.{◌≡◌, ◌++◌, OnOk, OnErr};
ghost use Rattle.gb_formats.specs.ShowTexts.{summary_text};
ghost use Rattle.gb_report.specs.Counted.{counts_of};

use crate::lines::{line_of, put_line};
use crate::part::parts;
use gb_base::{OutOfMemory, Text};
use std::alloc::Global;

/// How many lines of a script were refused, how many requests were made, and how those stand at
/// its end.
#[derive(Clone, Copy)]
pub struct Counts {
    /// Lines that were refused.
    pub refused: u64,
    /// Requests of both sides.
    pub requests: u64,
    /// Requests that were answered, with whatever result.
    pub answered: u64,
    /// Requests that were given up by a cancel.
    pub cancelled: u64,
    /// Requests that were given up after their time.
    pub timeout: u64,
    /// Requests whose connection ended first.
    pub disconnected: u64,
    /// Unidirectional requests, which get no answer and were sent.
    pub sent: u64,
    /// Requests that are still open.
    pub left_open: u64,
}

/// Appends the summary: how many lines the script has, and the counts. After a refusal `out`
/// is as before.
pub fn put_summary(
    alloc: Global,
    lines: u64,
    counts: &Counts,
    out: &mut Text,
) -> Result<(), OutOfMemory>
    ensures ok { OnOk result (out.new ≡ out.old ++ summary_text lines (counts_of counts.now)) }
    ensures err { OnErr result (out.new ≡ out.old) }
{
    let mut line = line_of(
        alloc,
        &parts!(
            "lines ",
            lines,
            " refused ",
            counts.refused,
            " requests ",
            counts.requests,
            " answered ",
            counts.answered,
            " cancelled ",
            counts.cancelled,
            " timeout ",
            counts.timeout,
            " disconnected ",
            counts.disconnected,
            " sent ",
            counts.sent,
            " open ",
            counts.left_open
        ),
    )?;
    put_line(&mut line, out)
}
