//! Appends lines to the report.

ghost use Rattle.std.specs.Prelude.{◌≡◌, ◌++◌, ℕ, List, IsAscii, OnOk, OnErr};
ghost use Rattle.std.specs.String.{string_bytes};
ghost use Rattle.gb_formats.specs.Texts.{IsWordOf, entries_text, entry_text, refusal_line_text};

use crate::entry::append_entry;
use crate::lines::{empty_line, end_line};
use crate::part::{Part, parts};
use gb_base::{Entry, LineReason, OutOfMemory, Text};
use std::alloc::Global;

/// Appends the text of an entry. `line` is the number of the script line; with `hex` the bytes of
/// messages are shown. After a refusal `out` is as before.
pub fn put(
    alloc: Global,
    entry: &Entry,
    line: u32,
    hex: bool,
    out: &mut Text,
) -> Result<(), OutOfMemory>
    ensures ok { OnOk result (out.new ≡ out.old ++ entry_text line hex entry.now) }
    ensures err { OnErr result (out.new ≡ out.old) }
{
    let mut text = empty_line(alloc)?;
    append_one(entry, line, hex, &mut text)?;
    out.append(&text)
}

/// Appends the text that names a bad line. After a refusal `out` is as before.
pub fn put_refusal(
    alloc: Global,
    line: u32,
    why: &LineReason,
    out: &mut Text,
) -> Result<(), OutOfMemory>
    ensures ok { OnOk result (out.new ≡ out.old ++ refusal_line_text line why.now) }
    ensures err { OnErr result (out.new ≡ out.old) }
{
    let mut text = empty_line(alloc)?;
    append_refusal(line, why, &mut text)?;
    out.append(&text)
}

/// Appends the texts of entries in order, as `put` does. After a refusal a front of them may stand
/// in `out`.
pub fn append_all(
    entries: &[Entry],
    line: u32,
    hex: bool,
    out: &mut String,
) -> Result<(), OutOfMemory>
    ensures { OnOk result
        (string_bytes out.new ≡ string_bytes out.old ++ entries_text line hex entries.now) }
{
    for entry in entries {
        append_one(entry, line, hex, out)?;
    }
    Ok(())
}

/// Appends the text of an entry, as `put` does. After a refusal a front of it may stand in `out`.
#[inline(always)]
fn append_one(entry: &Entry, line: u32, hex: bool, out: &mut String) -> Result<(), OutOfMemory>
    ensures text { OnOk result
        (string_bytes out.new ≡ string_bytes out.old ++ entry_text line hex entry.now) }
    ensures ascii { OnOk result ((word : List ℕ) → IsWordOf word entry.now → IsAscii word) }
{
    append_entry(entry, line, hex, out)?;
    end_line(out)
}

/// Appends the text that names a bad line. After a refusal a front of it may stand in `out`.
pub fn append_refusal(line: u32, why: &LineReason, out: &mut String) -> Result<(), OutOfMemory>
    ensures { OnOk result
        (string_bytes out.new ≡ string_bytes out.old ++ refusal_line_text line why.now) }
{
    parts!("line ", line, ": ", why).append_to(out)?;
    end_line(out)
}
