//! The entries of a bridge line's transfer.

ghost use Rattle.std.specs.Prelude.{◌≡◌, ◌≤◌, nat_le, length, sum_by};
ghost use Rattle.gb_formats.specs.Bridges.{spi_op_bytes, spi_read_size, spi_written};
ghost use Rattle.gb_formats.specs.Results.{most_payload};
ghost use Rattle.gb_payload.specs.Fields.{spelled};
ghost use Rattle.gb_spi.specs.Sizes.{bridged_size};

use gb_base::SpiOp;
use gb_bridge_payload::{ENTRY_SIZE, MOST_PAYLOAD};
use gb_payload::Field;
use gb_payload::Field::{U8, U16, U32};

/// How many bytes stand before the entries: chip select, mode and the number of entries.
const HEAD_SIZE: usize = 4;

/// The speed of each entry in Hz.
const SPEED: u32 = 1_000_000;

/// How many bits a word has.
const BITS: u8 = 8;

/// The flag of an entry that reads (in Linux's greybus_protocols.h `GB_SPI_XFER_READ`).
const READS: u8 = 1;

/// The flag of an entry that writes (`GB_SPI_XFER_WRITE`).
const WRITES: u8 = 2;

/// What an entry writes.
pub fn written(op: &SpiOp) -> &[u8]
    ensures { result.now ≡ spi_written op.now }
{
    match op {
        SpiOp::Get { .. } => &[],
        SpiOp::Put { bytes } | SpiOp::Both { bytes } => bytes.items(),
    }
}

/// How many bytes an entry reads.
pub fn reads(op: &SpiOp) -> usize
    ensures { result ≡ spi_read_size op.now }
{
    match op {
        SpiOp::Get { len } => usize::from(*len),
        SpiOp::Put { .. } => 0,
        SpiOp::Both { bytes } => bytes.items().len(),
    }
}

/// The fields of an entry in a payload.
pub fn fields(op: &SpiOp) -> [Field<'static>; 6]
    requires { length (spi_written op.now) ≤ most_payload }
    ensures { spelled result ≡ spi_op_bytes op.now }
{
    let (len, flags) = match op {
        SpiOp::Get { len } => (u32::from(*len), READS),
        SpiOp::Put { bytes } => (bytes.items().len() as u32, WRITES),
        SpiOp::Both { bytes } => (bytes.items().len() as u32, READS | WRITES),
    };
    [U32(SPEED), U32(len), U16(0), U8(0), U8(BITS), U8(flags)]
}

/// A transfer of these entries fits into a payload.
pub fn payload_fits(ops: &[SpiOp]) -> bool
    ensures { result ≡ nat_le (bridged_size ops.now) most_payload }
{
    let mut room = MOST_PAYLOAD - HEAD_SIZE;
    for op in ops {
        let Some(rest) = room.checked_sub(ENTRY_SIZE) else {
            return false;
        };
        let Some(rest) = rest.checked_sub(written(op).len()) else {
            return false;
        };
        room = rest;
    }
    true
}

/// The bytes that entries read fit into a payload.
pub fn reads_fit(ops: &[SpiOp]) -> bool
    ensures { result ≡ nat_le (sum_by spi_read_size ops.now) most_payload }
{
    let mut room = MOST_PAYLOAD;
    for op in ops {
        let Some(rest) = room.checked_sub(reads(op)) else {
            return false;
        };
        room = rest;
    }
    true
}
