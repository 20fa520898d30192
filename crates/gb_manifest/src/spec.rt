//! What a manifest that is written is to have.

use gb_base::{Bytes, Sequence};

/// A string.
#[derive(Drop)]
pub struct StringSpec {
    /// Its id, from 1.
    pub id: u8,
    /// Its bytes, at most 255.
    pub bytes: Bytes,
}

/// A bundle.
#[derive(Clone, Copy, Debug, PartialEq, Eq)]
pub struct BundleSpec {
    /// Its id.
    pub id: u8,
    /// Its class.
    pub class: u8,
}

/// A CPort.
#[derive(Clone, Copy, Debug, PartialEq, Eq)]
pub struct CportSpec {
    /// Its id, at most 4,095.
    pub id: u16,
    /// The id of its bundle.
    pub bundle: u8,
    /// Its protocol.
    pub protocol: u8,
}

/// Strings in order.
pub type Strings = Sequence<StringSpec>;

/// Bundles in order.
pub type Bundles = Sequence<BundleSpec>;

/// CPorts in order.
pub type Cports = Sequence<CportSpec>;

/// A manifest's version and its descriptors, without their sizes and pads. The major version is 0.
#[derive(Drop)]
pub struct ManifestSpec {
    /// The minor version.
    pub minor: u8,
    /// The id of the vendor's string, 0 where there is none.
    pub vendor: u8,
    /// The id of the product's string, 0 where there is none.
    pub product: u8,
    /// The features.
    pub features: u8,
    /// The strings.
    pub strings: Strings,
    /// The bundles.
    pub bundles: Bundles,
    /// The CPorts.
    pub cports: Cports,
}
