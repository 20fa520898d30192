//! Which bytes are a manifest.

ghost use Rattle.std.specs.Prelude.{◌≡◌, ◌↔◌, None, Ok, List, [], IfOk, IsOk, IsOkAnd};
ghost use Rattle.gb_formats.specs.Manifest as formats;
ghost use Rattle.gb_formats.specs.Manifest.{IsManifest, check_answer, refusal};
ghost use Rattle.gb_formats.specs.ManifestRules.{Placed};
ghost use Rattle.gb_manifest.specs.Checks.{Answers, Gathers, IsHeader};
ghost use Rattle.gb_manifest.specs.Met.{AreDeclared, AreUndeclared};
ghost use Rattle.gb_manifest.specs.Walks.{walk_of};

use crate::declared::Declared;
use crate::manifest::{HEADER, Manifest};
use crate::refusal::Refused;
use crate::rules::rules_refusal;
use crate::undeclared::Undeclared;
use crate::walk::Walk;
use byteorder::{ByteOrder, LittleEndian};
use gb_base::Reason;

/// The manifest that the bytes are, or where and why they aren't one.
pub fn check(bytes: &[u8]) -> Result<Manifest<'_>, Refused>
    // The answer is that of the definition: the manifest, or the first step of the table.
    ensures answer { Answers result (check_answer bytes.now) }

    // Ok comes exactly where the bytes are a manifest, and tells which.
    ensures manifest { IfOk result (λ m. IsManifest bytes.now m) }
    ensures whole { (m : formats.Manifest) → IsManifest bytes.now m → IsOkAnd result (λ v. v ≡ m) }

    // No bytes are two manifests, and there is no refusal exactly where they are one.
    ensures only { (m n : formats.Manifest)
        → IsManifest bytes.now m → IsManifest bytes.now n → m ≡ n }
    ensures law { (refusal bytes.now ≡ None) ↔ ((m : formats.Manifest) × IsManifest bytes.now m) }
{
    checked(bytes)
}

/// The answer, by walking over the bytes twice: once for the descriptors and what they declare, and
/// once for what they speak of.
fn checked(bytes: &[u8]) -> Result<Manifest<'_>, Refused>
    ensures { Answers result (check_answer bytes.now) }
{
    let size = header(bytes)?;
    let (_, rest) = bytes.split_at(HEADER);
    let walk = Walk::new(HEADER as u32, rest);
    let mut declared = Declared::new();
    gather(walk, &mut declared)?;
    let undeclared = undeclared(walk, &declared);
    match rules_refusal(size as u32, &declared, &undeclared) {
        Some(refused) => Err(refused),
        None => Ok(Manifest::accepted(bytes)),
    }
}

/// The size in the header, or what the header breaks.
fn header(bytes: &[u8]) -> Result<u16, Refused>
    ensures { IsHeader bytes.now result }
{
    if bytes.len() < HEADER {
        return Err(Refused::new(bytes.len() as u32, Reason::ShortHeader));
    }
    let size = LittleEndian::read_u16(bytes);
    if size as usize != bytes.len() {
        return Err(Refused::new(0, Reason::Size));
    }
    if bytes[2] > 0 {
        return Err(Refused::new(2, Reason::Version));
    }
    Ok(size)
}

/// What the descriptors of a walk declare, or the refusal of the first that isn't one.
fn gather(walk: Walk<'_>, declared: &mut Declared) -> Result<(), Refused>
    requires { AreDeclared declared.old [] }
    ensures { Gathers (walk_of walk.entry) declared.new result }
{
    let mut walk = walk;
    while !walk.is_done() {
        let size = walk.size()?;
        let (at, d) = walk.pass(size);
        declared.take(at, &d);
    }
    Ok(())
}

/// What the descriptors of a walk speak of, where they declare this.
fn undeclared(walk: Walk<'_>, declared: &Declared) -> Undeclared
    requires { IsOk (walk_of walk) }
    ensures { (all : List Placed) → walk_of walk.entry ≡ Ok all → AreDeclared declared.now all
        → AreUndeclared result all all }
{
    let mut walk = walk;
    let mut undeclared = Undeclared::new();
    while let Some((at, d)) = walk.next() {
        undeclared.take(declared, at, &d);
    }
    undeclared
}
