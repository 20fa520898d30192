//! What is wrong with a message, a line, a manifest or its text.

/// Why bytes don't begin with an operation message.
#[derive(Clone, Copy, Debug, PartialEq, Eq)]
pub enum WireFault {
    /// Bytes are missing.
    Short {
        /// How many are needed.
        need: u32,
    },
    /// The size field is below 8, the size of a header.
    SizeBelowEight {
        /// The size field.
        size: u16,
    },
    /// A request has a result byte that isn't 0.
    RequestResult {
        /// The result byte.
        result: u8,
    },
}

/// Why injected bytes aren't one message.
#[derive(Clone, Copy, Debug, PartialEq, Eq)]
pub enum RawFault {
    /// They don't begin with one.
    Wire(WireFault),
    /// Bytes follow it.
    Extra {
        /// How many bytes follow.
        count: u32,
    },
}

/// Why a script line is bad. Words and bytes are counted from 1.
#[derive(Clone, Copy, Debug, PartialEq, Eq)]
pub enum LineReason {
    /// It has more than 8,192 bytes.
    Long,
    /// The byte at this place is outside 0x20 to 0x7e.
    BadByte(u32),
    /// The word at this place doesn't fit.
    BadWord(u32),
    /// The word at this place is missing.
    MissingWord(u32),
    /// The word at this place is one too many.
    ExtraWord(u32),
}

/// Why a line of a capture holds no message. Words and bytes are counted from 1.
#[derive(Clone, Copy, Debug, PartialEq, Eq)]
pub enum CaptureFault {
    /// It has more than 8,192 bytes.
    TooLong,
    /// The byte at this place is outside 0x20 to 0x7e.
    BadByte(u32),
    /// The word at this place doesn't fit.
    BadWord(u32),
    /// The word at this place is missing.
    MissingWord(u32),
    /// The word at this place is one too many.
    ExtraWord(u32),
    /// Its bytes don't begin with a message.
    Wire(WireFault),
    /// Bytes follow the message.
    Extra {
        /// How many bytes follow.
        count: u32,
    },
}

/// Why bytes aren't a manifest.
#[derive(Clone, Copy, Debug, PartialEq, Eq)]
pub enum Reason {
    /// Fewer than four bytes.
    ShortHeader,
    /// The size field isn't the whole length.
    Size,
    /// The major version is above 0.
    Version,
    /// One to three bytes are left.
    ShortDescriptor,
    /// A descriptor's size is below 4, no multiple of four, or more than is left.
    DescriptorSize,
    /// A descriptor's type isn't 1 to 4.
    DescriptorType,
    /// A descriptor is shorter than its type needs.
    DescriptorShort,
    /// No interface descriptor.
    NoInterface,
    /// A further interface descriptor.
    SecondInterface,
    /// A string descriptor with id 0.
    StringId,
    /// An earlier string descriptor has the id.
    StringTwice,
    /// An earlier bundle descriptor has the id.
    BundleTwice,
    /// A CPort id above 4,095.
    CportId,
    /// An earlier CPort descriptor has the id.
    CportTwice,
    /// The CPort's bundle isn't declared.
    CportBundle,
    /// CPort 0 isn't in bundle 0, or hasn't protocol 0.
    ControlCport,
    /// The vendor string isn't declared.
    VendorString,
    /// The product string isn't declared.
    ProductString,
}

/// Why the text of a manifest is refused at a line.
#[derive(Clone, Copy, Debug, PartialEq, Eq)]
pub enum MnfsReason {
    /// The line is none of a section, and none of a key and its value.
    NotALine,
    /// The key isn't one of the section in which it stands.
    NotHere,
    /// The key came before in its section, or the only section of its kind came before.
    Twice,
    /// A number or a string isn't of its form or not in its range.
    BadValue,
    /// The section lacks a key; or, at line 0, one of the two needed sections isn't there.
    Missing,
}
