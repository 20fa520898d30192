//! What the calls of the bus answer.

ghost use Rattle.std.specs.Prelude.{◌≡◌};
ghost use Rattle.gb_bus.specs.declared.answers.AttachFault.TheVariants as attach;
ghost use Rattle.gb_bus.specs.declared.answers.DeliverFault.TheVariants as deliver;
ghost use Rattle.gb_bus.specs.declared.answers.SendFault.TheVariants as send;

use gb_base::{Bytes, OutOfMemory, RawFault, Side};

/// Why a connection isn't made. The bus is as before.
#[derive(Clone, Copy)]
pub enum AttachFault {
    /// A live connection has the number, that CPort of the application processor or that of the
    /// module.
    Taken,
    /// No memory was found, or no number is left.
    Memory(OutOfMemory),
}

impl From<OutOfMemory> for AttachFault {
    ghost from_gives = { λ m e. e ≡ attach.Memory m };

    fn from(refused: OutOfMemory) -> AttachFault {
        AttachFault::Memory(refused)
    }
}

/// A request that was made.
#[derive(Clone, Copy)]
pub struct Sent {
    /// Its number, from 1.
    pub number: u64,
    /// Its identifier, 0 where it is unidirectional.
    pub label: u16,
    /// It is lost, since the connection isn't wired.
    pub lost: bool,
}

/// Why a request isn't made.
#[derive(Clone, Copy)]
pub enum SendFault {
    /// No identifier is left on that side of the connection. The bus is as before.
    NoLabel,
    /// No live connection has the number. The bus is as before.
    NoConnection,
    /// No memory was found. Nothing is said of the bus then.
    Memory(OutOfMemory),
}

impl From<OutOfMemory> for SendFault {
    ghost from_gives = { λ m e. e ≡ send.Memory m };

    fn from(refused: OutOfMemory) -> SendFault {
        SendFault::Memory(refused)
    }
}

/// A message that was delivered.
#[derive(Drop)]
pub struct Arrived {
    /// The connection on which it came.
    pub connection: u64,
    /// What came.
    pub item: Arrival,
}

/// What a delivery brings.
#[derive(Drop)]
pub enum Arrival {
    /// A request, to be answered.
    Ask {
        /// How to answer it.
        asked: Asked,
        /// Its payload.
        payload: Bytes,
    },
    /// An answer, which ended its request.
    Ended {
        /// The request.
        number: u64,
        /// The type of the request.
        kind: u8,
        /// The result byte.
        result: u8,
        /// The payload, empty where the result isn't 0.
        payload: Bytes,
    },
    /// An answer to a request that had ended before.
    Late {
        /// The request.
        number: u64,
    },
    /// A response whose identifier is that of a request which was given up. It came on an unclean
    /// connection, or as raw bytes.
    LateLabel {
        /// The identifier. It is free now.
        label: u16,
    },
    /// A response whose identifier no request of the end has. It came on an unclean connection, or
    /// as raw bytes.
    UnknownLabel {
        /// The identifier.
        label: u16,
    },
    /// Raw bytes that aren't one whole message.
    BadRaw {
        /// Why not.
        fault: RawFault,
    },
    /// A message that the end doesn't take.
    Dropped {
        /// The request, None where the message came as raw bytes or answers such a one.
        number: Option<u64>,
        /// It is a response.
        reply: bool,
    },
}

/// A request that was delivered, as its answer has to name it.
#[derive(Clone, Copy)]
pub struct Asked {
    /// Its number, None where it came as raw bytes.
    pub number: Option<u64>,
    /// Its identifier, 0 where it gets no answer.
    pub label: u16,
    /// Its type.
    pub kind: u8,
}

/// Where a request was made, and its type.
#[derive(Clone, Copy)]
pub struct About {
    /// The connection.
    pub connection: u64,
    /// The side of it that asked.
    pub side: Side,
    /// The type.
    pub kind: u8,
}

/// Why nothing is delivered.
#[derive(Clone, Copy)]
pub enum DeliverFault {
    /// No wired connection names the end. The bus is as before.
    NoConnection,
    /// No message waits there. The bus is as before.
    QueueEmpty,
    /// No memory was found. Nothing is said of the bus then.
    Memory(OutOfMemory),
}

impl From<OutOfMemory> for DeliverFault {
    ghost from_gives = { λ m e. e ≡ deliver.Memory m };

    fn from(refused: OutOfMemory) -> DeliverFault {
        DeliverFault::Memory(refused)
    }
}

/// A request had ended before. The bus is as before.
#[derive(Clone, Copy)]
pub struct AlreadyEnded;
