//! What an event brings about, one entry for each line of the report.

ghost use Rattle.gb_base.specs.Copies.{IsSmallEntry};

use crate::{
    Bytes, End, OutOfMemory, Outcome, RawFault, Reading, Reason, Refusal, Sequence, Tag, Text,
    TryCopy,
};

/// The state of a connection, as the report tells it.
#[derive(Clone, Copy, Debug, PartialEq, Eq)]
pub enum ConnState {
    /// Its connect sequence runs.
    Opening,
    /// It is open.
    Open,
    /// It is open for what was asked, and closes once all of that has ended.
    Draining,
    /// Its close sequence runs.
    Closing,
    /// It is closed, and there no more.
    Closed,
    /// A sequence failed.
    Failed,
}

/// The stage of an interface, as the application processor sees it.
#[derive(Clone, Copy, Debug, PartialEq, Eq)]
pub enum IntfStage {
    /// Its enumeration runs.
    Enumerating,
    /// It is enumerated.
    Enumerated,
    /// Its enumeration failed.
    Failed,
    /// Its removal was handled.
    Removed,
}

/// What an event brings about.
pub type Entries = Sequence<Entry>;

/// One thing that an event brings about. `number` is a request's, None where the item is raw bytes.
#[derive(Clone, Drop)]
pub enum Entry {
    /// The event is done.
    Done,
    /// The event is refused, and changes nothing.
    Refused {
        /// Why.
        why: Refusal,
    },
    /// A request is made.
    Asked {
        /// Its number.
        number: u64,
        /// Who sends it.
        from: End,
        /// To whom.
        to: End,
        /// Its type.
        kind: u8,
        /// The size of its message.
        size: u16,
        /// The bytes of its message.
        bytes: Bytes,
        /// It is lost, since the connection isn't wired.
        lost: bool,
    },
    /// A request is answered.
    Replied {
        /// The request.
        number: Option<u64>,
        /// Who answers.
        from: End,
        /// To whom.
        to: End,
        /// The result byte.
        result: u8,
        /// The size of the response.
        size: u16,
        /// The bytes of the response.
        bytes: Bytes,
    },
    /// A request is held.
    Held {
        /// The request.
        number: Option<u64>,
    },
    /// A request ends.
    Ended {
        /// The request.
        number: u64,
        /// How.
        outcome: Outcome,
        /// What its answer says.
        reading: Reading,
    },
    /// An answer came to a request that was given up.
    Late {
        /// The request.
        number: u64,
    },
    /// An answer came with the identifier of a request that was given up, on a connection with
    /// injected bytes.
    LateLabel {
        /// The identifier.
        label: u16,
    },
    /// An answer came with an identifier that isn't in use, on a connection with injected bytes.
    UnknownLabel {
        /// The identifier.
        label: u16,
    },
    /// A message is dropped by an end that doesn't take it.
    Dropped {
        /// The request.
        number: Option<u64>,
        /// It is a response.
        reply: bool,
    },
    /// Raw bytes are injected.
    Raw {
        /// The module's CPort.
        from: End,
        /// The CPort of the application processor.
        to: End,
        /// How many.
        size: u16,
        /// The bytes.
        bytes: Bytes,
    },
    /// Raw bytes aren't one message.
    BadRaw {
        /// Why.
        fault: RawFault,
    },
    /// A unidirectional request is ignored.
    Ignored {
        /// Its type.
        kind: u8,
    },
    /// An interface has a new stage.
    Interface {
        /// The interface.
        intf: u8,
        /// The stage.
        stage: IntfStage,
    },
    /// A manifest is refused.
    Manifest {
        /// The interface.
        intf: u8,
        /// The place in bytes.
        at: u32,
        /// Why.
        reason: Reason,
    },
    /// A connection has a new state.
    Connection {
        /// Its number.
        number: u64,
        /// The CPort of the application processor.
        ap: u16,
        /// The interface.
        intf: u8,
        /// The module's CPort.
        cport: u16,
        /// The state.
        state: ConnState,
    },
    /// A GPIO line had an interrupt.
    Irq {
        /// The interface.
        intf: u8,
        /// The CPort.
        cport: u16,
        /// The line.
        line: u8,
    },
    /// Data came through a UART.
    Received {
        /// The interface.
        intf: u8,
        /// The CPort.
        cport: u16,
        /// The data.
        bytes: Bytes,
    },
    /// The serial state of a UART changed.
    Serial {
        /// The interface.
        intf: u8,
        /// The CPort.
        cport: u16,
        /// The control bits.
        control: u8,
    },
    /// A UART gave credits back.
    Credits {
        /// The interface.
        intf: u8,
        /// The CPort.
        cport: u16,
        /// The credits now.
        total: u16,
    },
    /// A firmware download is over.
    Download {
        /// The interface.
        intf: u8,
        /// The CPort.
        cport: u16,
        /// The tag of the image.
        tag: Tag,
        /// How many bytes the image has that the device keeps now, None where the download failed.
        size: Option<u32>,
    },
    /// A settle is over.
    Settled {
        /// How many messages it delivered.
        count: u16,
    },
    /// A line of `show`.
    Shown {
        /// The line, without its end.
        text: Text,
    },
}

impl TryCopy for Entry {
    ghost is_infallible = { IsSmallEntry };

    fn copy(&self) -> Result<Entry, OutOfMemory> {
        Ok(self.clone()?)
    }
}
