//! Descriptors with their least sizes and zero pads.

ghost use Rattle.std.specs.Prelude.{◌≡◌, ◌≤◌, ◌++◌, length, OnOk};
ghost use Rattle.gb_formats.specs.Descriptors as formats;
ghost use Rattle.gb_formats.specs.Descriptors.{least_size, plain_descriptor};
ghost use Rattle.gb_manifest.specs.Values.{descriptor_of};
ghost use Rattle.gb_manifest.specs.Writes.{IsShort};

use crate::descriptor::{BUNDLE, CPORT, Descriptor, INTERFACE, WORDS, words_size};
use byteorder::{ByteOrder, LittleEndian};
use gb_base::{Bytes, OutOfMemory};

/// The least size of a descriptor.
pub fn least_size(d: &Descriptor<'_>) -> usize
    ensures { result ≡ least_size (descriptor_of d.now) }
{
    match d {
        Descriptor::Interface { .. } => 8,
        Descriptor::Words { bytes, .. } => words_size(bytes.len()),
        Descriptor::Bundle { .. } => 8,
        Descriptor::Cport { .. } => 8,
    }
}

/// Appends bytes. After a refusal a front of them was appended.
pub fn append(piece: &[u8], out: &mut Bytes) -> Result<(), OutOfMemory>
    ensures { OnOk result (out.new ≡ out.old ++ piece.now) }
{
    for byte in piece {
        out.push(*byte)?;
    }
    Ok(())
}

/// Appends a descriptor.
pub fn put_descriptor(d: &Descriptor<'_>, out: &mut Bytes) -> Result<(), OutOfMemory>
    requires { IsShort (descriptor_of d.now) }
    ensures { OnOk result (out.new ≡ out.old ++ plain_descriptor (descriptor_of d.now)) }
{
    match d {
        Descriptor::Interface {
            vendor,
            product,
            features,
        } => append(&[8, 0, INTERFACE, 0, *vendor, *product, *features, 0], out),
        Descriptor::Words { id, bytes } => put_words(*id, bytes, out),
        Descriptor::Bundle { id, class } => append(&[8, 0, BUNDLE, 0, *id, *class, 0, 0], out),
        Descriptor::Cport {
            id,
            bundle,
            protocol,
        } => {
            let mut bytes = [8, 0, CPORT, 0, 0, 0, *bundle, *protocol];
            LittleEndian::write_u16(&mut bytes[4..6], *id);
            append(&bytes, out)
        }
    }
}

/// Appends the descriptor of a string.
fn put_words(id: u8, string: &[u8], out: &mut Bytes) -> Result<(), OutOfMemory>
    requires { length string.now ≤ 255 }
    ensures { OnOk result (out.new
        ≡ out.old ++ plain_descriptor (formats.Descriptor.Words id string.now)) }
{
    let size = words_size(string.len());
    let mut head = [0, 0, WORDS, 0, string.len() as u8, id];
    LittleEndian::write_u16(&mut head[..2], size as u16);
    append(&head, out)?;
    append(string, out)?;
    append(&[0; 3][..size - 6 - string.len()], out)
}
