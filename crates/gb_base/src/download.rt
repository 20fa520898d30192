//! What follows in a firmware download.

use crate::{OwnAsk, Tag};

/// What follows in a firmware download once the request that it waited for has ended.
#[derive(Drop)]
pub enum Next {
    /// The next request is made.
    Ask(OwnAsk),
    /// The download is done, and the device keeps the image.
    Done {
        /// The tag of the image.
        tag: Tag,
        /// How many bytes the image has.
        size: u32,
    },
    /// The download failed.
    Failed {
        /// The tag of the image.
        tag: Tag,
    },
}
