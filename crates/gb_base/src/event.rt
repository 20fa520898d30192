//! The events of the bus, one for each line of a script.

ghost use Rattle.gb_base.specs.Copies.{IsSmallEvent};

use crate::{BridgeAsk, Bytes, End, Kinds, Name, OutOfMemory, Tag, TryCopy};

/// The kinds of interface that a script can plug by name.
#[derive(Clone, Copy, Debug, Default, PartialEq, Eq)]
pub enum Kind {
    /// Eight GPIO lines.
    #[default]
    Gpio,
    /// An I2C adapter with a memory of 256 bytes.
    I2c,
    /// An SPI master with an echo.
    Spi,
    /// A UART that echoes.
    Uart,
    /// All four.
    Bridge,
    /// A loopback device, which sends back what it was sent.
    Loopback,
    /// A firmware device, which downloads images.
    Firmware,
}

/// One event of the bus. `intf` is 2 to 31 and `cport` 0 to 4,095.
#[derive(Clone, Drop)]
pub enum Event {
    /// The supervisory controller starts.
    Boot,
    /// A module is plugged.
    Insert {
        /// Its primary interface.
        intf: u8,
        /// The kinds of its interfaces, one to four.
        kinds: Kinds,
    },
    /// A module of one interface with this manifest is plugged.
    InsertRaw {
        /// The interface.
        intf: u8,
        /// The bytes of its manifest.
        manifest: Bytes,
    },
    /// A module is pulled, with all of its interfaces.
    Pull {
        /// One of them.
        intf: u8,
    },
    /// The application processor begins to connect to a CPort.
    Connect {
        /// The interface.
        intf: u8,
        /// The CPort.
        cport: u16,
    },
    /// The application processor begins to close a connection.
    Disconnect {
        /// The interface.
        intf: u8,
        /// The CPort.
        cport: u16,
    },
    /// The application processor asks nothing more on a connection, and begins to close it once its
    /// open requests there have ended.
    Drain {
        /// The interface.
        intf: u8,
        /// The CPort.
        cport: u16,
    },
    /// The application processor sends a request.
    Send {
        /// The name that the request gets.
        name: Name,
        /// To whom: the supervisory controller or a module's CPort.
        to: End,
        /// The type, 0x00 to 0x7f.
        kind: u8,
        /// The payload.
        payload: Bytes,
        /// The timeout in milliseconds, at least 1.
        timeout: u32,
    },
    /// The application processor sends a request of a bridged protocol.
    Bridge {
        /// The name that the request gets.
        name: Name,
        /// The interface.
        intf: u8,
        /// The CPort.
        cport: u16,
        /// The request.
        ask: BridgeAsk,
    },
    /// The outside level of a GPIO line changes.
    Level {
        /// The interface.
        intf: u8,
        /// The CPort.
        cport: u16,
        /// The line, 0 to 7.
        line: u8,
        /// The level, 0 or 1.
        value: u8,
    },
    /// The serial state of a UART changes.
    SerialState {
        /// The interface.
        intf: u8,
        /// The CPort.
        cport: u16,
        /// The control bits.
        control: u8,
    },
    /// The front message of a queue is delivered.
    Deliver {
        /// The end at which it arrives.
        at: End,
    },
    /// Messages are delivered in a fixed order until none waits.
    Settle {
        /// At most so many, 1 to 65,535.
        most: u16,
    },
    /// Requests that are delivered there are held from now on.
    Hold {
        /// The interface.
        intf: u8,
        /// The CPort.
        cport: u16,
    },
    /// A held request is served.
    Answer {
        /// The interface.
        intf: u8,
        /// The CPort.
        cport: u16,
        /// Which one, the oldest being 1.
        place: u32,
    },
    /// A request is given up.
    Cancel {
        /// Its name.
        name: Name,
    },
    /// A second name for a request.
    Copy {
        /// The name that it has.
        from: Name,
        /// The name that it gets.
        to: Name,
    },
    /// A name is free again.
    Forget {
        /// The name.
        name: Name,
    },
    /// Time passes.
    Tick {
        /// Milliseconds, at least 1.
        millis: u32,
    },
    /// A module puts raw bytes in the queue toward the application processor.
    Inject {
        /// The interface.
        intf: u8,
        /// The CPort.
        cport: u16,
        /// The bytes.
        bytes: Bytes,
    },
    /// The application processor is given a firmware image.
    Image {
        /// Its tag.
        tag: Tag,
        /// Its bytes.
        bytes: Bytes,
    },
    /// A firmware device begins to download an image.
    Load {
        /// The interface.
        intf: u8,
        /// The CPort.
        cport: u16,
        /// The tag of the image.
        tag: Tag,
    },
    /// The state is shown.
    Show,
}

impl TryCopy for Event {
    ghost is_infallible = { IsSmallEvent };

    fn copy(&self) -> Result<Event, OutOfMemory> {
        Ok(self.clone()?)
    }
}
