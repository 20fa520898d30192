//! Descriptors, and how they are read from the front of bytes.

ghost use Rattle.std.specs.Prelude.{◌≡◌, ◌+◌, ◌<◌, ◌≤◌, length};
ghost use Rattle.gb_formats.specs.Descriptors.{descriptor_at, least_size_at, words_size};
ghost use Rattle.gb_manifest.specs.Values.{descriptor_of};
ghost use Rattle.gb_manifest.specs.Walks.{IsSized};

use crate::refusal::Refused;
use byteorder::{ByteOrder, LittleEndian};
use gb_base::Reason;

/// The type of an interface descriptor.
pub(crate) const INTERFACE: u8 = 1;

/// The type of a string descriptor.
pub(crate) const WORDS: u8 = 2;

/// The type of a bundle descriptor.
pub(crate) const BUNDLE: u8 = 3;

/// The type of a CPort descriptor.
pub(crate) const CPORT: u8 = 4;

/// How many bytes the size, the type and the pad of a descriptor have.
const HEADER: usize = 4;

/// The least size of a descriptor.
const LEAST: usize = 8;

/// A manifest descriptor (Greybus Specification, "Manifest"; in
/// Linux's greybus_manifest.h `greybus_descriptor`).
#[derive(Clone, Copy)]
pub enum Descriptor<'a> {
    /// The interface.
    Interface {
        /// The id of the vendor's string, 0 where there is none.
        vendor: u8,
        /// The id of the product's string, 0 where there is none.
        product: u8,
        /// The features.
        features: u8,
    },
    /// A string.
    Words {
        /// Its id.
        id: u8,
        /// Its bytes, at most 255.
        bytes: &'a [u8],
    },
    /// A bundle.
    Bundle {
        /// Its id.
        id: u8,
        /// Its class.
        class: u8,
    },
    /// A CPort.
    Cport {
        /// Its id.
        id: u16,
        /// The id of its bundle.
        bundle: u8,
        /// Its protocol.
        protocol: u8,
    },
}

/// The least size of a string descriptor whose string has so many bytes.
pub(crate) fn words_size(len: usize) -> usize
    requires { len < 9223372036854775808 }
    ensures { result ≡ words_size len }
{
    (len + 9) / 4 * 4
}

/// The size of the descriptor at the front of these bytes, which are left from this place on; or
/// what it breaks by itself.
pub(crate) fn size_at_front(at: u32, bytes: &[u8]) -> Result<usize, Refused>
    requires { at + 2 < 4294967296 }
    ensures { IsSized at bytes.now result }
{
    if bytes.len() < HEADER {
        return Err(Refused::new(at, Reason::ShortDescriptor));
    }
    let size = LittleEndian::read_u16(bytes) as usize;
    if size < HEADER || size % 4 != 0 || size > bytes.len() {
        return Err(Refused::new(at, Reason::DescriptorSize));
    }
    let kind = bytes[2];
    if kind < INTERFACE || kind > CPORT {
        return Err(Refused::new(at + 2, Reason::DescriptorType));
    }
    if size < LEAST || kind == WORDS && size < words_size(bytes[4] as usize) {
        return Err(Refused::new(at, Reason::DescriptorShort));
    }
    Ok(size)
}

/// The descriptor at the front of these bytes.
pub(crate) fn front(bytes: &[u8]) -> Descriptor<'_>
    requires { least_size_at bytes.now ≤ length bytes.now }
    ensures { descriptor_of result ≡ descriptor_at bytes.now }
{
    match bytes[2] {
        INTERFACE => Descriptor::Interface {
            vendor: bytes[4],
            product: bytes[5],
            features: bytes[6],
        },
        WORDS => Descriptor::Words {
            id: bytes[5],
            bytes: &bytes[6..6 + bytes[4] as usize],
        },
        BUNDLE => Descriptor::Bundle {
            id: bytes[4],
            class: bytes[5],
        },
        _ => Descriptor::Cport {
            id: LittleEndian::read_u16(&bytes[4..]),
            bundle: bytes[6],
            protocol: bytes[7],
        },
    }
}
