//! Checks and dumps manifests, makes them of texts, and writes their texts.

ghost use Rattle.std.specs.Prelude.{◌≡◌, ◌++◌, IfOk, OnOk, if◌then◌else◌};
ghost use Rattle.gb_formats.specs.Dump.{check_text, dump_text, manifest_text, manifest_verdict};
ghost use Rattle.gb_formats.specs.Manifest.{check_answer};
ghost use Rattle.gb_formats.specs.Source.{compile_answer};
ghost use Rattle.gb_formats.specs.SourceTexts.{
  compile_text,
  compile_verdict,
  decompile_text,
  decompile_verdict,
};
ghost use Rattle.gbus.specs.Answers.{bytes_in};

use crate::answer::{Answer, Output};
use gb_base::{OutOfMemory, Status, Text};
use gb_manifest::{Manifest, check};
use gb_mnfs::{compile, decompile, put_fault};
use gb_report::{put_accepted, put_dump, put_refused};
use std::alloc::Global;

/// Whether bytes are a manifest, or its dump.
pub fn checked(alloc: Global, bytes: &[u8], dump: bool) -> Result<Answer, OutOfMemory>
    ensures text { IfOk result (λ a.
        bytes_in a.output ≡ manifest_text dump (check_answer bytes.now)) }
    ensures status { IfOk result (λ a. a.status ≡ manifest_verdict (check_answer bytes.now)) }
{
    let mut text = Text::new(alloc);
    match check(bytes) {
        Ok(m) => {
            put_accepted_or_dump(alloc, &m, dump, &mut text)?;
            Ok(succeeded(text))
        }
        Err(why) => {
            put_refused(alloc, &why, &mut text)?;
            Ok(refused(text))
        }
    }
}

/// Appends that this is a manifest, or its dump.
fn put_accepted_or_dump(
    alloc: Global,
    m: &Manifest<'_>,
    dump: bool,
    out: &mut Text,
) -> Result<(), OutOfMemory>
    ensures { OnOk result (out.new
        ≡ out.old ++ (if dump then dump_text m.now else check_text m.now)) }
{
    if dump {
        put_dump(alloc, m, out)
    } else {
        put_accepted(alloc, m, out)
    }
}

/// The manifest of a text, or why there is none.
pub fn compiled(alloc: Global, source: &[u8]) -> Result<Answer, OutOfMemory>
    ensures text { IfOk result (λ a.
        bytes_in a.output ≡ compile_text (compile_answer source.now)) }
    ensures status { IfOk result (λ a. a.status ≡ compile_verdict (compile_answer source.now)) }
{
    match compile(alloc, source) {
        Ok(bytes) => Ok(Answer {
            output: Output::Bytes(bytes),
            status: Status::Success,
        }),
        Err(fault) => {
            let mut text = Text::new(alloc);
            put_fault(alloc, &fault, &mut text)?;
            Ok(refused(text))
        }
    }
}

/// The text of a manifest, or why bytes are none.
pub fn decompiled(alloc: Global, bytes: &[u8]) -> Result<Answer, OutOfMemory>
    ensures text { IfOk result (λ a.
        bytes_in a.output ≡ decompile_text (check_answer bytes.now)) }
    ensures status { IfOk result (λ a. a.status ≡ decompile_verdict (check_answer bytes.now)) }
{
    let mut text = Text::new(alloc);
    match check(bytes) {
        Ok(m) => {
            decompile(alloc, &m, &mut text)?;
            Ok(succeeded(text))
        }
        Err(why) => {
            put_refused(alloc, &why, &mut text)?;
            Ok(refused(text))
        }
    }
}

/// A text is written, and the program succeeds.
fn succeeded(text: Text) -> Answer
    ensures text { bytes_in result.output ≡ text }
    ensures status { result.status ≡ Status.Success }
{
    Answer {
        output: Output::Text(text),
        status: Status::Success,
    }
}

/// A text is written that says why the input is refused.
fn refused(text: Text) -> Answer
    ensures text { bytes_in result.output ≡ text }
    ensures status { result.status ≡ Status.Refused }
{
    Answer {
        output: Output::Text(text),
        status: Status::Refused,
    }
}
