//! Requests of the SPI protocol.

ghost use Rattle.std.specs.Prelude.{◌≡◌, IfOk, drop, take};
ghost use Rattle.byteorder.specs.Endian.{little_number};
ghost use Rattle.gb_formats.specs.SpiRecords.{read_spi_ask, read_spi_transfer, spi_ask_kind};
ghost use Rattle.gb_formats.specs.SpiRecords.{spi_ask_payload};
ghost use Rattle.gb_bridge_payload.specs.Conditions.{IsSpiAsk};
ghost use Rattle.gb_bridge_payload.specs.Protocols.{spi_asks};
ghost use Rattle.gb_bridge_payload.specs.Views.{spi_ask_of};
ghost use Rattle.gb_payload.specs.Answers.{Answers};
ghost use Rattle.gb_payload.specs.Fields.{Puts};
ghost use Rattle.gb_payload.specs.Meaning.{IsRead, Means};

use crate::reading::front;
use crate::spi_kinds::{DEVICE_CONFIG, MASTER_CONFIG, TRANSFER};
use crate::transfer_entry::{ENTRY_SIZE, written_by_entries};
use byteorder::{ByteOrder, LittleEndian};
use gb_base::NoRoom;
use gb_payload::Field::{Bytes, U8, U16};
use gb_payload::{Fields, PayloadFault, put, read_record};

/// A request of the SPI protocol (Greybus Specification, "SPI Protocol").
#[derive(Clone, Copy, PartialEq, Eq)]
pub enum SpiAsk<'a> {
    /// Asks what the controller can do.
    MasterConfig,
    /// Asks what the device at a chip select can do.
    DeviceConfig {
        /// The chip select.
        select: u8,
    },
    /// Reads and writes.
    Transfer {
        /// The chip select.
        select: u8,
        /// The mode: clock polarity and phase.
        mode: u8,
        /// The entries, of 13 bytes each, as they stand in the payload.
        entries: &'a [u8],
        /// The bytes of the entries that write, in their order.
        data: &'a [u8],
    },
}

impl<'a> SpiAsk<'a> {
    /// Reads the payload of a type.
    pub fn read(kind: u8, payload: &'a [u8]) -> Result<SpiAsk<'a>, PayloadFault>
        ensures answer { Answers spi_ask_of (read_spi_ask kind payload.now) result }
        ensures means { Means spi_asks spi_ask_of kind payload.now result }
    {
        row(kind, payload)
    }

    /// Writes the payload to the front of `out`, and answers its length. The entries are whole, at
    /// most 65,535, and have as much data as they write. NoRoom exactly where `out` is shorter, and
    /// `out` is then unchanged.
    pub fn write(&self, out: &mut [u8]) -> Result<usize, NoRoom>
        requires { IsSpiAsk (spi_ask_of self.now) }
        ensures bytes { Puts (spi_ask_payload (spi_ask_of self.now)) out.old out.new result }
        ensures again { IfOk result (λ n. IsRead spi_asks (spi_ask_of self.now) (take n out.new)) }
    {
        match self {
            SpiAsk::MasterConfig => put(&[], out),
            SpiAsk::DeviceConfig { select } => put(&[U8(*select)], out),
            SpiAsk::Transfer {
                select,
                mode,
                entries,
                data,
            } => {
                let count = (entries.len() / ENTRY_SIZE) as u16;
                put(
                    &[
                        U8(*select),
                        U8(*mode),
                        U16(count),
                        Bytes(entries),
                        Bytes(data),
                    ],
                    out,
                )
            }
        }
    }

    /// The type.
    pub fn kind(&self) -> u8
        ensures { result ≡ spi_ask_kind (spi_ask_of self.now) }
    {
        match self {
            SpiAsk::MasterConfig => MASTER_CONFIG,
            SpiAsk::DeviceConfig { .. } => DEVICE_CONFIG,
            SpiAsk::Transfer { .. } => TRANSFER,
        }
    }
}

/// The record of a type that a payload is.
fn row(kind: u8, payload: &[u8]) -> Result<SpiAsk<'_>, PayloadFault>
    ensures { Answers spi_ask_of (read_spi_ask kind payload.now) result }
{
    match kind {
        MASTER_CONFIG => read_record!(payload => SpiAsk::MasterConfig),
        DEVICE_CONFIG => read_record!(payload => SpiAsk::DeviceConfig { select: u8 }),
        TRANSFER => transfer(payload),
        _ => Err(PayloadFault::UnknownKind),
    }
}

/// A transfer: chip select, mode, the count of the entries, the entries, and the data.
fn transfer(payload: &[u8]) -> Result<SpiAsk<'_>, PayloadFault>
    ensures { Answers spi_ask_of
        (read_spi_transfer (little_number 2 (drop 2 payload.now)) payload.now) result }
{
    let count = LittleEndian::read_u16(&front(payload, 4)?[2..]);
    let end = 4 + ENTRY_SIZE * count as usize;
    let entries = &front(payload, end)?[4..];
    Fields::of(payload, end + written_by_entries(count, entries))?;
    Ok(SpiAsk::Transfer {
        select: payload[0],
        mode: payload[1],
        entries,
        data: &payload[end..],
    })
}
