//! Responses of the SPI protocol.

ghost use Rattle.std.specs.Prelude.{◌≡◌, IfOk, take};
ghost use Rattle.gb_formats.specs.SpiRecords.{read_device, read_spi_reply, spi_reply_kind};
ghost use Rattle.gb_formats.specs.SpiRecords.{spi_reply_payload};
ghost use Rattle.gb_bridge_payload.specs.Conditions.{IsSpiReply};
ghost use Rattle.gb_bridge_payload.specs.Protocols.{spi_replies};
ghost use Rattle.gb_bridge_payload.specs.Views.{spi_reply_of};
ghost use Rattle.gb_payload.specs.Answers.{Answers};
ghost use Rattle.gb_payload.specs.Fields.{Puts};
ghost use Rattle.gb_payload.specs.Meaning.{IsRead, Means};

use crate::spi_kinds::{DEVICE_CONFIG, MASTER_CONFIG, TRANSFER};
use byteorder::{ByteOrder, LittleEndian};
use gb_base::NoRoom;
use gb_payload::Field::{Bytes, U8, U16, U32};
use gb_payload::{Fields, PayloadFault, put, read_record};

/// How many bytes the name of a device has.
const NAME_SIZE: usize = 32;

/// A response of the SPI protocol (Greybus Specification, "SPI Protocol").
#[derive(Clone, Copy, PartialEq, Eq)]
pub enum SpiReply<'a> {
    /// What the controller can do.
    MasterConfig {
        /// A mask of the sizes of words: bit n - 1 is set for words of n bits.
        mask: u32,
        /// The least speed in Hz.
        least: u32,
        /// The greatest speed in Hz.
        greatest: u32,
        /// The modes: clock phase 1, clock polarity 2, and those of Linux's spi.h above them.
        mode: u16,
        /// The flags: half duplex 1, nothing is read 2, nothing is written 4.
        flags: u16,
        /// How many chip selects there are.
        selects: u8,
    },
    /// What the device at a chip select can do.
    DeviceConfig {
        /// The mode: clock phase 1, clock polarity 2.
        mode: u16,
        /// How many bits a word has.
        bits: u8,
        /// The greatest speed in Hz.
        speed: u32,
        /// The type of device: 0 plain, 1 a NOR flash, 2 the one that the name says.
        device: u8,
        /// The name, in 32 bytes.
        name: &'a [u8],
    },
    /// The transfer is done.
    Transfer {
        /// The bytes of the entries that read, in their order.
        data: &'a [u8],
    },
}

impl<'a> SpiReply<'a> {
    /// Reads the payload of a type, which is that of the request.
    pub fn read(kind: u8, payload: &'a [u8]) -> Result<SpiReply<'a>, PayloadFault>
        ensures answer { Answers spi_reply_of (read_spi_reply kind payload.now) result }
        ensures means { Means spi_replies spi_reply_of kind payload.now result }
    {
        row(kind, payload)
    }

    /// Writes the payload to the front of `out`, and answers its length. A name has 32 bytes.
    /// NoRoom exactly where `out` is shorter, and `out` is then unchanged.
    pub fn write(&self, out: &mut [u8]) -> Result<usize, NoRoom>
        requires { IsSpiReply (spi_reply_of self.now) }
        ensures bytes { Puts (spi_reply_payload (spi_reply_of self.now)) out.old out.new result }
        ensures again { IfOk result
            (λ n. IsRead spi_replies (spi_reply_of self.now) (take n out.new)) }
    {
        match self {
            SpiReply::MasterConfig {
                mask,
                least,
                greatest,
                mode,
                flags,
                selects,
            } => put(
                &[
                    U32(*mask),
                    U32(*least),
                    U32(*greatest),
                    U16(*mode),
                    U16(*flags),
                    U8(*selects),
                ],
                out,
            ),
            SpiReply::DeviceConfig {
                mode,
                bits,
                speed,
                device,
                name,
            } => put(
                &[U16(*mode), U8(*bits), U32(*speed), U8(*device), Bytes(name)],
                out,
            ),
            SpiReply::Transfer { data } => put(&[Bytes(data)], out),
        }
    }

    /// The type of the request.
    pub fn kind(&self) -> u8
        ensures { result ≡ spi_reply_kind (spi_reply_of self.now) }
    {
        match self {
            SpiReply::MasterConfig { .. } => MASTER_CONFIG,
            SpiReply::DeviceConfig { .. } => DEVICE_CONFIG,
            SpiReply::Transfer { .. } => TRANSFER,
        }
    }
}

/// The record of a type that a payload is.
fn row(kind: u8, payload: &[u8]) -> Result<SpiReply<'_>, PayloadFault>
    ensures { Answers spi_reply_of (read_spi_reply kind payload.now) result }
{
    match kind {
        MASTER_CONFIG => master(payload),
        DEVICE_CONFIG => device(payload),
        TRANSFER => Ok(SpiReply::Transfer { data: payload }),
        _ => Err(PayloadFault::UnknownKind),
    }
}

/// What the master can do.
fn master(payload: &[u8]) -> Result<SpiReply<'_>, PayloadFault>
    ensures { Answers spi_reply_of (read_spi_reply 0x02 payload.now) result }
{
    read_record!(payload => SpiReply::MasterConfig {
        mask: u32, least: u32, greatest: u32, mode: u16, flags: u16, selects: u8
    })
}

/// What a device can do.
fn device(payload: &[u8]) -> Result<SpiReply<'_>, PayloadFault>
    ensures { Answers spi_reply_of (read_device payload.now) result }
{
    Fields::of(payload, 8 + NAME_SIZE)?;
    Ok(SpiReply::DeviceConfig {
        mode: LittleEndian::read_u16(payload),
        bits: payload[2],
        speed: LittleEndian::read_u32(&payload[3..]),
        device: payload[7],
        name: &payload[8..],
    })
}
