//! The ops of an I2C transfer.

ghost use Rattle.std.specs.Prelude.{◌≡◌, ◌≤◌, ◌*◌, drop, length, sum_by};
ghost use Rattle.gb_bridge_payload.specs.Views.{op_of};
ghost use Rattle.gb_formats.specs.I2cRecords.{op_at, op_read_size, op_reads, op_size};
ghost use Rattle.gb_formats.specs.I2cRecords.{op_written_size, ops_at};

use byteorder::{ByteOrder, LittleEndian};

/// How many bytes an op has.
pub const OP_SIZE: usize = 6;

/// An op of an I2C transfer (in Linux's greybus_protocols.h `gb_i2c_transfer_op`).
#[derive(Clone, Copy, Debug, PartialEq, Eq)]
pub struct TransferOp {
    /// The address of the device on the I2C bus.
    pub addr: u16,
    /// The flags. Bit 0 is set where the op reads.
    pub flags: u16,
    /// How many bytes it reads or writes.
    pub size: u16,
}

impl TransferOp {
    /// The op in the first bytes, and what follows it.
    pub fn first(bytes: &[u8]) -> (TransferOp, &[u8])
        requires { op_size ≤ length bytes.now }
        ensures op { op_of result.0 ≡ op_at bytes.now }
        ensures rest { result.1.now ≡ drop op_size bytes.now }
    {
        let op = TransferOp {
            addr: LittleEndian::read_u16(bytes),
            flags: LittleEndian::read_u16(&bytes[2..]),
            size: LittleEndian::read_u16(&bytes[4..]),
        };
        (op, &bytes[OP_SIZE..])
    }

    /// Whether it reads.
    pub fn reads(&self) -> bool
        ensures { result ≡ op_reads (op_of self.now) }
    {
        self.flags % 2 == 1
    }

    /// How many bytes it reads.
    pub fn read_size(&self) -> u16
        ensures { result ≡ op_read_size (op_of self.now) }
    {
        if self.reads() { self.size } else { 0 }
    }

    /// How many bytes it writes.
    pub fn written_size(&self) -> u16
        ensures { result ≡ op_written_size (op_of self.now) }
    {
        if self.reads() { 0 } else { self.size }
    }
}

/// How many bytes so many ops write.
pub fn written_by_ops(count: u16, ops: &[u8]) -> usize
    requires { length ops.now ≡ op_size * count }
    ensures written { result ≡ sum_by op_written_size (ops_at count ops.now) }
    ensures bound { result ≤ 65535 * count }
{
    let mut size = 0;
    let mut rest = ops;
    for _ in 0..count {
        let (op, later) = TransferOp::first(rest);
        size += op.written_size() as usize;
        rest = later;
    }
    size
}
