//! The sections of a manifest's text.

ghost use Rattle.std.specs.Prelude.{◌≡◌};
ghost use Rattle.gb_formats.specs.SourceLines.{bundle_with, cport_with, header_with};
ghost use Rattle.gb_formats.specs.SourceLines.{interface_with, lacks_key, section_with, words_with};
ghost use Rattle.gb_mnfs.specs.Sections.{GivesSection, MakesSection, Sets, section_of};

use crate::mnfs_fault::LineStop;
use crate::number::byte;
use crate::string::string;
use gb_base::{Bytes, MnfsReason};
use gb_script::is;
use std::alloc::Global;

/// A section, with the values that its key lines gave so far.
#[derive(Drop)]
pub enum Section {
    /// The header.
    Header {
        /// The major version, which is 0.
        major: Option<u8>,
        /// The minor version.
        minor: Option<u8>,
    },
    /// The interface.
    Interface {
        /// The id of the vendor's string.
        vendor: Option<u8>,
        /// The id of the product's string.
        product: Option<u8>,
        /// The features, which may be left out.
        features: Option<u8>,
    },
    /// A string.
    Words {
        /// Its id.
        id: u8,
        /// Its bytes.
        bytes: Option<Bytes>,
    },
    /// A bundle.
    Bundle {
        /// Its id.
        id: u8,
        /// Its class.
        class: Option<u8>,
    },
    /// A CPort.
    Cport {
        /// Its id.
        id: u16,
        /// The id of its bundle.
        bundle: Option<u8>,
        /// Its protocol.
        protocol: Option<u8>,
    },
}

impl Section {
    /// The section with a key line more, or why the line is bad there.
    pub fn with(self, alloc: Global, key: &[u8], value: &[u8]) -> Result<Section, LineStop>
        ensures { GivesSection (section_with (section_of self) key.now value.now) result }
    {
        match self {
            Section::Header { major, minor } => Ok(header(major, minor, key, value)?),
            Section::Interface {
                vendor,
                product,
                features,
            } => Ok(interface(vendor, product, features, key, value)?),
            Section::Words { id, bytes } => words(alloc, id, bytes, key, value),
            Section::Bundle { id, class } => Ok(bundle(id, class, key, value)?),
            Section::Cport {
                id,
                bundle,
                protocol,
            } => Ok(cport(id, bundle, protocol, key, value)?),
        }
    }

    /// Whether it lacks a key. The interface's `features` may be left out.
    pub fn lacks_key(&self) -> bool
        ensures { result ≡ lacks_key (section_of self.now) }
    {
        match self {
            Section::Header { major, minor } => major.is_none() || minor.is_none(),
            Section::Interface {
                vendor,
                product,
                features: _,
            } => vendor.is_none() || product.is_none(),
            Section::Words { bytes, .. } => bytes.is_none(),
            Section::Bundle { class, .. } => class.is_none(),
            Section::Cport {
                bundle,
                protocol,
                ..
            } => bundle.is_none() || protocol.is_none(),
        }
    }
}

/// The value that a key gives, up to the greatest, unless it came before or the value is bad.
fn set(before: Option<u8>, value: &[u8], greatest: u8) -> Result<u8, MnfsReason>
    ensures { Sets before greatest value.now result }
{
    if before.is_some() {
        return Err(MnfsReason::Twice);
    }
    match byte(value, greatest) {
        Some(value) => Ok(value),
        None => Err(MnfsReason::BadValue),
    }
}

/// The header with a key line more.
fn header(
    major: Option<u8>,
    minor: Option<u8>,
    key: &[u8],
    value: &[u8],
) -> Result<Section, MnfsReason>
    ensures { MakesSection (header_with major minor key.now value.now) result }
{
    if is(key, "version-major") {
        let major = Some(set(major, value, 0)?);
        Ok(Section::Header { major, minor })
    } else if is(key, "version-minor") {
        let minor = Some(set(minor, value, 255)?);
        Ok(Section::Header { major, minor })
    } else {
        Err(MnfsReason::NotHere)
    }
}

/// The interface with a key line more.
fn interface(
    vendor: Option<u8>,
    product: Option<u8>,
    features: Option<u8>,
    key: &[u8],
    value: &[u8],
) -> Result<Section, MnfsReason>
    ensures { MakesSection (interface_with vendor product features key.now value.now) result }
{
    if is(key, "vendor-string-id") {
        let vendor = Some(set(vendor, value, 255)?);
        Ok(Section::Interface {
            vendor,
            product,
            features,
        })
    } else if is(key, "product-string-id") {
        let product = Some(set(product, value, 255)?);
        Ok(Section::Interface {
            vendor,
            product,
            features,
        })
    } else if is(key, "features") {
        let features = Some(set(features, value, 255)?);
        Ok(Section::Interface {
            vendor,
            product,
            features,
        })
    } else {
        Err(MnfsReason::NotHere)
    }
}

/// The string with a key line more.
fn words(
    alloc: Global,
    id: u8,
    bytes: Option<Bytes>,
    key: &[u8],
    value: &[u8],
) -> Result<Section, LineStop>
    ensures { GivesSection (words_with id bytes key.now value.now) result }
{
    if !is(key, "string") {
        return Err(LineStop::Bad(MnfsReason::NotHere));
    }
    if bytes.is_some() {
        return Err(LineStop::Bad(MnfsReason::Twice));
    }
    let bytes = string(alloc, value)?;
    if bytes.is_none() {
        return Err(LineStop::Bad(MnfsReason::BadValue));
    }
    Ok(Section::Words { id, bytes })
}

/// The bundle with a key line more.
fn bundle(id: u8, class: Option<u8>, key: &[u8], value: &[u8]) -> Result<Section, MnfsReason>
    ensures { MakesSection (bundle_with id class key.now value.now) result }
{
    if is(key, "class") {
        let class = Some(set(class, value, 255)?);
        Ok(Section::Bundle { id, class })
    } else {
        Err(MnfsReason::NotHere)
    }
}

/// The CPort with a key line more.
fn cport(
    id: u16,
    bundle: Option<u8>,
    protocol: Option<u8>,
    key: &[u8],
    value: &[u8],
) -> Result<Section, MnfsReason>
    ensures { MakesSection (cport_with id bundle protocol key.now value.now) result }
{
    if is(key, "bundle") {
        let bundle = Some(set(bundle, value, 255)?);
        Ok(Section::Cport {
            id,
            bundle,
            protocol,
        })
    } else if is(key, "protocol") {
        let protocol = Some(set(protocol, value, 255)?);
        Ok(Section::Cport {
            id,
            bundle,
            protocol,
        })
    } else {
        Err(MnfsReason::NotHere)
    }
}
