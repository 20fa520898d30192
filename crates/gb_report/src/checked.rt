//! Appends what a check of a manifest says.

ghost use Rattle.std.specs.Prelude.{◌≡◌, ◌++◌, OnOk, OnErr};
ghost use Rattle.gb_formats.specs.Dump.{check_text, refused_text};
ghost use Rattle.gb_manifest.specs.Values.{refused_of};

use crate::lines::{line_of, put_line};
use crate::names::reason_name;
use crate::part::parts;
use gb_base::{OutOfMemory, Text};
use gb_manifest::{Manifest, Refused};
use std::alloc::Global;

/// Appends `manifest ok` and the size. After a refusal `out` is as before.
pub fn put_accepted(alloc: Global, m: &Manifest<'_>, out: &mut Text) -> Result<(), OutOfMemory>
    ensures ok { OnOk result (out.new ≡ out.old ++ check_text m.now) }
    ensures err { OnErr result (out.new ≡ out.old) }
{
    let mut line = line_of(alloc, &parts!("manifest ok ", m.size()))?;
    put_line(&mut line, out)
}

/// Appends `refused`, the place and the reason. After a refusal `out` is as before.
pub fn put_refused(alloc: Global, why: &Refused, out: &mut Text) -> Result<(), OutOfMemory>
    ensures ok { OnOk result (out.new ≡ out.old ++ refused_text (refused_of why.now)) }
    ensures err { OnErr result (out.new ≡ out.old) }
{
    let reason = reason_name(why.reason);
    let mut line = line_of(alloc, &parts!("refused ", why.at, " ", reason))?;
    put_line(&mut line, out)
}
