//! The ops of a bridge line's transfer.

ghost use Rattle.std.specs.Prelude.{◌≡◌, ◌≤◌, length, not};
ghost use Rattle.gb_base.specs.declared.bridge.BridgeAsk.TheVariants as ask;
ghost use Rattle.gb_formats.specs.Bridges.{i2c_op_bytes, i2c_read_size, i2c_written, is_too_large};
ghost use Rattle.gb_formats.specs.Results.{most_payload};
ghost use Rattle.gb_payload.specs.Fields.{spelled};

use gb_base::I2cOp;
use gb_bridge_payload::{MOST_PAYLOAD, OP_SIZE};
use gb_payload::Field;
use gb_payload::Field::U16;

/// How many bytes the count of the ops has.
const COUNT_SIZE: usize = 2;

/// The flag of an op that reads (in Linux's i2c.h `I2C_M_RD`).
const READS: u16 = 1;

/// The flags of an op that writes.
const WRITES: u16 = 0;

/// Whether neither the payload nor the reads of a transfer have more than 2,040 bytes.
pub fn fits(ops: &[I2cOp]) -> bool
    ensures { result ≡ not (is_too_large (ask.I2cTransfer ops.now)) }
{
    let mut size = COUNT_SIZE;
    let mut read = 0;
    for op in ops {
        size += OP_SIZE + written(op).len();
        read += read_size(op) as usize;
        if size > MOST_PAYLOAD || read > MOST_PAYLOAD {
            return false;
        }
    }
    true
}

/// What an op writes.
pub fn written(op: &I2cOp) -> &[u8]
    ensures { result.now ≡ i2c_written op.now }
{
    match op {
        I2cOp::Get { .. } => &[],
        I2cOp::Put { bytes, .. } => bytes.items(),
    }
}

/// How many bytes an op reads.
fn read_size(op: &I2cOp) -> u16
    ensures { result ≡ i2c_read_size op.now }
{
    match op {
        I2cOp::Get { len, .. } => *len,
        I2cOp::Put { .. } => 0,
    }
}

/// The fields of an op in a payload.
pub fn fields(op: &I2cOp) -> [Field<'static>; 3]
    requires { length (i2c_written op.now) ≤ most_payload }
    ensures { spelled result ≡ i2c_op_bytes op.now }
{
    let (addr, flags, size) = match op {
        I2cOp::Get { addr, len } => (*addr, READS, *len),
        I2cOp::Put { addr, bytes } => (*addr, WRITES, bytes.items().len() as u16),
    };
    [U16(u16::from(addr)), U16(flags), U16(size)]
}
