//! A line of the report: its parts, and its place in the text.

ghost use Rattle.std.specs.Prelude.{◌≡◌, ◌++◌, [], IfOk, IsAscii, OnErr, OnOk};
ghost use Rattle.std.specs.String.{string_bytes};
ghost use Rattle.gb_formats.specs.Texts.{ended};

use crate::part::Part;
use gb_base::{OutOfMemory, Text};
use std::alloc::Global;

/// Room for a usual line with its end, so that it takes memory once.
const ROOM: usize = 96;

/// A line with nothing in it, and room for a usual one.
pub fn empty_line(alloc: Global) -> Result<String, OutOfMemory>
    ensures { IfOk result (λ s. string_bytes s ≡ []) }
{
    Ok(String::with_capacity(alloc, ROOM)?)
}

/// The line of some parts, without its end.
pub fn line_of<P: Part>(alloc: Global, parts: &P) -> Result<String, OutOfMemory>
    ensures { IfOk result (λ s. string_bytes s ≡ P.text parts.now) }
{
    let mut line = empty_line(alloc)?;
    parts.append_to(&mut line)?;
    Ok(line)
}

/// Appends the end of a line.
pub fn end_line(line: &mut String) -> Result<(), OutOfMemory>
    ensures { OnOk result (string_bytes line.new ≡ ended (string_bytes line.old)) }
{
    line.push('\n')?;
    Ok(())
}

/// Appends a line and its end, which `line` then has too. After a refusal `out` is as before.
pub fn put_line(line: &mut String, out: &mut Text) -> Result<(), OutOfMemory>
    requires { IsAscii (ended (string_bytes line.old)) }
    ensures ok { OnOk result (out.new ≡ out.old ++ ended (string_bytes line.old)) }
    ensures err { OnErr result (out.new ≡ out.old) }
{
    end_line(line)?;
    out.append(line)
}
