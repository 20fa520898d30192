//! Manifests that were checked.

ghost use Rattle.std.specs.Prelude.{◌≡◌, ◌<◌, Ok, option_map};
ghost use Rattle.gb_formats.specs.Manifest as formats;
ghost use Rattle.gb_formats.specs.Manifest.{check_answer};
ghost use Rattle.gb_manifest.specs.Checks.{IsAccepted};
ghost use Rattle.gb_manifest.specs.Values.{SaysOfCport, descriptor_of, view_of};

use crate::descriptor::Descriptor;
use crate::descriptors::Descriptors;
use crate::walk::Walk;
use byteorder::{ByteOrder, LittleEndian};
use std::marker::Model;

/// How many bytes a manifest's header has.
pub(crate) const HEADER: usize = 4;

/// A CPort's bundle and protocol.
#[derive(Clone, Copy, Debug, PartialEq, Eq)]
pub struct CportView {
    /// The id of the bundle.
    pub bundle: u8,
    /// The protocol.
    pub protocol: u8,
}

/// A manifest (Greybus Specification, "Manifest"), lent from the bytes that were checked.
#[derive(Drop)]
pub struct Manifest<'a> {
    minor: u8,
    size: u16,
    descriptors: Descriptors<'a>,
}

impl<'a> Model for Manifest<'a> {
    ghost use Rattle.gb_formats.specs.Manifest as formats;

    ghost Value = { formats.Manifest };

    ghost view = { λ m. record { minor = m.minor; size = m.size; descriptors = m.descriptors } };
}

impl<'a> Manifest<'a> {
    /// The manifest of bytes that a check accepted. They aren't checked again.
    pub fn accepted(bytes: &'a [u8]) -> Manifest<'a>
        requires { IsAccepted bytes.now }
        ensures { check_answer bytes.now ≡ Ok result }
    {
        let size = LittleEndian::read_u16(bytes);
        let (_, rest) = bytes.split_at(HEADER);
        let walk = Walk::new(HEADER as u32, rest);
        Manifest {
            minor: bytes[3],
            size,
            descriptors: Descriptors::new(walk),
        }
    }

    /// The minor version. The major version is 0.
    pub fn minor(&self) -> u8
        ensures { result ≡ self.now.minor }
    {
        self.minor
    }

    /// The size in bytes.
    pub fn size(&self) -> u16
        ensures { result ≡ self.now.size }
    {
        self.size
    }

    /// The descriptors in order.
    pub fn descriptors(&self) -> Descriptors<'a>
        ensures { result ≡ self.now.descriptors }
    {
        self.descriptors.again()
    }

    /// The CPort with this id, None exactly where the manifest declares none.
    pub fn cport(&self, id: u16) -> Option<CportView>
        ensures { option_map view_of result ≡ formats.cport self.now id }
    {
        for d in self.descriptors() {
            if let Some(found) = cport_view(id, &d) {
                return Some(found);
            }
        }
        None
    }
}

/// What a descriptor says of the CPort with this id.
fn cport_view(id: u16, d: &Descriptor<'_>) -> Option<CportView>
    ensures { SaysOfCport id (descriptor_of d.now) (option_map view_of result) }
{
    match d {
        Descriptor::Cport {
            id: other,
            bundle,
            protocol,
        } if *other == id => Some(CportView {
            bundle: *bundle,
            protocol: *protocol,
        }),
        _ => None,
    }
}
