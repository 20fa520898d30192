//! Makes manifests of texts.

ghost use Rattle.std.specs.Prelude.{◌≡◌, ℕ, Ok, List, IfOk, IsOkAnd};
ghost use Rattle.gb_formats.specs.ManifestSpec as formats;
ghost use Rattle.gb_formats.specs.Source.{IsSource, compile_answer};
ghost use Rattle.gb_mnfs.specs.Answers.{Compiles, IsMade, OkOrMemory, Reads, stop_fault};

use crate::draft::Draft;
use crate::mnfs_fault::{LineStop, MnfsFault};
use gb_base::Bytes;
use gb_manifest::{ManifestSpec, write};
use gb_script::first_line;
use std::alloc::Global;

/// The manifest of a text, with least sizes and zero pads; or the first refusal: a bad line, what
/// is missing, and then why the manifest isn't written.
pub fn compile(alloc: Global, text: &[u8]) -> Result<Bytes, MnfsFault>
    // The answer is that of the definition, unless memory is wanting.
    ensures answer { Compiles result (compile_answer text.now) }

    // What is written is the plain manifest of a spec of which the text is a source.
    ensures made { IfOk result (λ bytes. IsMade text.now bytes) }

    // Where the text is a source of a spec that can be written, it is, unless memory is wanting.
    ensures whole { (spec : formats.ManifestSpec) → (bytes : List ℕ) → IsSource text.now spec
        → formats.write_answer spec ≡ Ok bytes → OkOrMemory bytes result }
{
    let spec = read(alloc, text)?;
    let bytes = write(alloc, &spec)?;
    Ok(bytes)
}

/// The spec of a text, or its first bad line or what is missing.
fn read(alloc: Global, text: &[u8]) -> Result<ManifestSpec, MnfsFault>
    ensures { Reads text.now result }
{
    let mut draft = Draft::new(alloc);
    let mut left = text;
    let mut at = 1;
    while let Some((line, rest)) = first_line(left) {
        if let Err(stop) = draft.take(alloc, at, line) {
            return Err(stopped(at, stop));
        }
        left = rest;
        at += 1;
    }
    draft.finish()
}

/// The fault of a line that isn't taken.
fn stopped(line: u64, stop: LineStop) -> MnfsFault
    ensures { result ≡ stop_fault line stop }
{
    match stop {
        LineStop::Bad(reason) => MnfsFault::Line { line, reason },
        LineStop::Memory(refused) => MnfsFault::Memory(refused),
    }
}
