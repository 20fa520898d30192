//! An image.

use gb_base::{Bytes, Tag};
use std::marker::Model;

/// An image under its tag.
#[derive(Drop)]
pub struct Image {
    /// The tag.
    pub tag: Tag,
    /// The bytes.
    pub bytes: Bytes,
}

impl Model for Image {
    ghost use Rattle.gb_formats.specs.Images as formats;

    ghost Value = { formats.Image };

    ghost view = { λ i. record { tag = i.tag; bytes = i.bytes } };
}
