//! Requests of the bridged protocols, as a script line asks them.

ghost use Rattle.std.specs.Prelude.{◌≡◌};
ghost use Rattle.gb_base.specs.Copies.{IsSmallAsk, IsSmallI2cOp, IsSmallSpiOp};

use crate::{Bytes, OutOfMemory, Sequence, TryCopy};
use std::alloc::AllocError;

/// A request of a bridge line.
#[derive(Drop)]
pub enum BridgeAsk {
    /// A GPIO request.
    Gpio {
        /// The type of the request.
        kind: u8,
        /// The line number, 0 where the type has none.
        line: u8,
        /// The value, debounce time in microseconds or interrupt type, 0 where the type has none.
        value: u16,
    },
    /// Asks for the functionality of the I2C adapter.
    I2cFunctionality,
    /// An I2C transfer.
    I2cTransfer {
        /// The operations in order.
        ops: I2cOps,
    },
    /// Asks for the configuration of the SPI master.
    SpiConfig,
    /// Asks for the configuration of an SPI device.
    SpiDevice {
        /// The chip select.
        select: u8,
    },
    /// An SPI transfer.
    SpiTransfer {
        /// The chip select.
        select: u8,
        /// The SPI mode.
        mode: u8,
        /// The entries in order.
        ops: SpiOps,
    },
    /// Sends data through the UART.
    UartSend {
        /// The data.
        bytes: Bytes,
    },
    /// Sets the line coding of the UART.
    UartCoding {
        /// Bits a second.
        rate: u32,
        /// Stop bits: 0 is one, 1 one and a half, 2 two.
        format: u8,
        /// Parity: 0 none, 1 odd, 2 even, 3 mark, 4 space.
        parity: u8,
        /// Data bits, 5 to 8.
        bits: u8,
        /// Flow control, 0 or 1.
        flow: u8,
    },
    /// A UART request of one byte.
    UartByte {
        /// The type of the request.
        kind: u8,
        /// The byte.
        value: u8,
    },
    /// Asks a loopback device for an answer without bytes.
    LoopPing,
    /// Sends bytes to a loopback device.
    LoopBytes {
        /// The type of the request.
        kind: u8,
        /// The bytes.
        bytes: Bytes,
    },
}

/// The operations of an I2C transfer.
pub type I2cOps = Sequence<I2cOp>;

/// One operation of an I2C transfer.
#[derive(Drop)]
pub enum I2cOp {
    /// A read.
    Get {
        /// The seven-bit address.
        addr: u8,
        /// How many bytes to read.
        len: u16,
    },
    /// A write.
    Put {
        /// The seven-bit address.
        addr: u8,
        /// The bytes to write.
        bytes: Bytes,
    },
}

/// The entries of an SPI transfer.
pub type SpiOps = Sequence<SpiOp>;

/// One entry of an SPI transfer.
#[derive(Drop)]
pub enum SpiOp {
    /// A read.
    Get {
        /// How many bytes to read.
        len: u16,
    },
    /// A write.
    Put {
        /// The bytes to write.
        bytes: Bytes,
    },
    /// A write that reads as many bytes.
    Both {
        /// The bytes to write.
        bytes: Bytes,
    },
}

/// The request that a bridge line became.
#[derive(Clone, Copy, Debug, PartialEq, Eq)]
pub struct Bridged {
    /// The type of the request.
    pub kind: u8,
    /// The length of its payload.
    pub len: usize,
}

/// What the answer to a bridged request says, for the report.
#[derive(Clone, Copy, Debug, PartialEq, Eq)]
pub enum Reading {
    /// Nothing is read from it.
    Nothing,
    /// A number.
    Number(u32),
    /// The direction of a GPIO line is out.
    Out,
    /// The direction of a GPIO line is in.
    In,
    /// The payload isn't one that the request's type can have.
    Bad,
}

impl TryCopy for BridgeAsk {
    ghost is_infallible = { IsSmallAsk };

    fn copy(&self) -> Result<BridgeAsk, OutOfMemory> {
        match self {
            BridgeAsk::Gpio { kind, line, value } => Ok(BridgeAsk::Gpio {
                kind: *kind,
                line: *line,
                value: *value,
            }),
            BridgeAsk::I2cFunctionality => Ok(BridgeAsk::I2cFunctionality),
            BridgeAsk::I2cTransfer { ops } => Ok(BridgeAsk::I2cTransfer { ops: ops.copy()? }),
            BridgeAsk::SpiConfig => Ok(BridgeAsk::SpiConfig),
            BridgeAsk::SpiDevice { select } => Ok(BridgeAsk::SpiDevice { select: *select }),
            BridgeAsk::SpiTransfer { select, mode, ops } => Ok(BridgeAsk::SpiTransfer {
                select: *select,
                mode: *mode,
                ops: ops.copy()?,
            }),
            BridgeAsk::UartSend { bytes } => Ok(BridgeAsk::UartSend {
                bytes: bytes.copy()?,
            }),
            BridgeAsk::UartCoding {
                rate,
                format,
                parity,
                bits,
                flow,
            } => Ok(BridgeAsk::UartCoding {
                rate: *rate,
                format: *format,
                parity: *parity,
                bits: *bits,
                flow: *flow,
            }),
            BridgeAsk::UartByte { kind, value } => Ok(BridgeAsk::UartByte {
                kind: *kind,
                value: *value,
            }),
            BridgeAsk::LoopPing => Ok(BridgeAsk::LoopPing),
            BridgeAsk::LoopBytes { kind, bytes } => Ok(BridgeAsk::LoopBytes {
                kind: *kind,
                bytes: bytes.copy()?,
            }),
        }
    }
}

impl Clone for BridgeAsk {
    ghost is_clone = { λ x y. y ≡ x };

    ghost is_infallible = { IsSmallAsk };

    fn clone(&self) -> Result<BridgeAsk, AllocError> {
        Ok(self.copy()?)
    }
}

impl TryCopy for I2cOp {
    ghost is_infallible = { IsSmallI2cOp };

    fn copy(&self) -> Result<I2cOp, OutOfMemory> {
        match self {
            I2cOp::Get { addr, len } => Ok(I2cOp::Get {
                addr: *addr,
                len: *len,
            }),
            I2cOp::Put { addr, bytes } => Ok(I2cOp::Put {
                addr: *addr,
                bytes: bytes.copy()?,
            }),
        }
    }
}

impl TryCopy for SpiOp {
    ghost is_infallible = { IsSmallSpiOp };

    fn copy(&self) -> Result<SpiOp, OutOfMemory> {
        match self {
            SpiOp::Get { len } => Ok(SpiOp::Get { len: *len }),
            SpiOp::Put { bytes } => Ok(SpiOp::Put {
                bytes: bytes.copy()?,
            }),
            SpiOp::Both { bytes } => Ok(SpiOp::Both {
                bytes: bytes.copy()?,
            }),
        }
    }
}
