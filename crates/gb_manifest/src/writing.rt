//! Writes a manifest from a spec.

ghost use Rattle.std.specs.Prelude.{◌≡◌, None, Ok, length, map, IfOk, option_map};
ghost use Rattle.gb_formats.specs.Manifest.{check_answer};
ghost use Rattle.gb_formats.specs.ManifestRules.{rules_refusal};
ghost use Rattle.gb_formats.specs.ManifestSpec.{long_string, plain, plain_size};
ghost use Rattle.gb_formats.specs.ManifestSpec.{spec_descriptors, write_answer};
ghost use Rattle.gb_manifest.specs.Met.{AreDeclared, AreUndeclared};
ghost use Rattle.gb_manifest.specs.Writes.{IsSizeOf, Writes, spec_of, string_spec};
ghost use Rattle.gb_manifest.specs.Writes.{unplaced, written};

use crate::declared::Declared;
use crate::listed::Listed;
use crate::plain_descriptor::{append, least_size, put_descriptor};
use crate::rules::rules_refusal;
use crate::spec::{ManifestSpec, StringSpec};
use crate::undeclared::Undeclared;
use byteorder::{ByteOrder, LittleEndian};
use gb_base::{Bytes, OutOfMemory, Reason};
use std::alloc::Global;

/// Why no manifest is written.
#[derive(Clone, Copy, Debug, PartialEq, Eq)]
pub enum WriteFault {
    /// A string has more than 255 bytes.
    StringLong {
        /// The id of the first such string.
        id: u8,
    },
    /// The descriptors break a rule.
    Rule(Reason),
    /// The size is above 65,535.
    TooLong,
    /// No memory was found.
    Memory(OutOfMemory),
}

impl From<OutOfMemory> for WriteFault {
    ghost use Rattle.std.specs.Prelude.{◌≡◌};
    ghost use Rattle.gb_manifest.specs.declared.writing.WriteFault.TheVariants as fault;

    ghost from_gives = { λ refused e. e ≡ fault.Memory refused };

    fn from(refused: OutOfMemory) -> WriteFault {
        WriteFault::Memory(refused)
    }
}

/// The manifest of a spec, with least sizes and zero pads. The faults are tried in the order in
/// which they stand.
pub fn write(alloc: Global, spec: &ManifestSpec) -> Result<Bytes, WriteFault>
    // The answer is that of the definition, unless memory is wanting.
    ensures answer { Writes result (write_answer (spec_of spec.now)) }

    // A check of what is written gives the spec back.
    ensures back { IfOk result (λ bytes.
        check_answer bytes ≡ Ok (written (spec_of spec.now) (length bytes))) }
{
    if let Some(id) = long_string(spec.strings.items()) {
        return Err(WriteFault::StringLong { id });
    }
    if let Some(reason) = broken_rule(spec) {
        return Err(WriteFault::Rule(reason));
    }
    let Some(size) = size(spec) else {
        return Err(WriteFault::TooLong);
    };
    let bytes = plain(alloc, spec, size)?;
    Ok(bytes)
}

/// The id of the first string that is too long.
fn long_string(strings: &[StringSpec]) -> Option<u8>
    ensures { result ≡ long_string (map string_spec strings.now) }
{
    for s in strings {
        if s.bytes.items().len() > 255 {
            return Some(s.id);
        }
    }
    None
}

/// The first rule that the descriptors of a spec break.
fn broken_rule(spec: &ManifestSpec) -> Option<Reason>
    ensures { result ≡ option_map (λ why. why.reason)
        (rules_refusal 0 (unplaced (spec_descriptors (spec_of spec.now)))) }
{
    let declared = declared_by(spec);
    let undeclared = undeclared_by(spec, &declared);
    rules_refusal(0, &declared, &undeclared).map(|why| why.reason)
}

/// What the descriptors of a spec declare.
fn declared_by(spec: &ManifestSpec) -> Declared
    ensures { AreDeclared result (unplaced (spec_descriptors (spec_of spec.now))) }
{
    let mut declared = Declared::new();
    let mut left = Listed::of(spec);
    while let Some(d) = left.next() {
        declared.take(0, &d);
    }
    declared
}

/// What the descriptors of a spec speak of, where they declare this.
fn undeclared_by(spec: &ManifestSpec, declared: &Declared) -> Undeclared
    ensures { AreDeclared declared.now (unplaced (spec_descriptors (spec_of spec.now)))
        → AreUndeclared result (unplaced (spec_descriptors (spec_of spec.now)))
        (unplaced (spec_descriptors (spec_of spec.now))) }
{
    let mut undeclared = Undeclared::new();
    let mut left = Listed::of(spec);
    while let Some(d) = left.next() {
        undeclared.take(declared, 0, &d);
    }
    undeclared
}

/// The size of the manifest, None where it is above 65,535.
fn size(spec: &ManifestSpec) -> Option<u16>
    ensures { IsSizeOf (spec_of spec.now) result }
{
    let mut size = 4;
    let mut left = Listed::of(spec);
    while let Some(d) = left.next() {
        size += least_size(&d);
        if size > 65_535 {
            return None;
        }
    }
    Some(size as u16)
}

/// The bytes of the manifest, which has this size.
fn plain(alloc: Global, spec: &ManifestSpec, size: u16) -> Result<Bytes, OutOfMemory>
    requires size { size ≡ plain_size (spec_of spec.now) }
    requires short { long_string (spec_of spec.now).strings ≡ None }
    ensures { IfOk result (λ bytes. bytes ≡ plain (spec_of spec.now)) }
{
    let mut head = [0, 0, 0, spec.minor];
    LittleEndian::write_u16(&mut head[..2], size);
    let mut bytes = Bytes::new(alloc);
    append(&head, &mut bytes)?;
    let mut left = Listed::of(spec);
    while let Some(d) = left.next() {
        put_descriptor(&d, &mut bytes)?;
    }
    Ok(bytes)
}
