//! The ops of a transfer, done at the memory.

ghost use Rattle.std.specs.Prelude.{◌≡◌, ◌++◌, IsOk, OnOk, length};
ghost use Rattle.gb_base.specs.Bytes.{AreFew};
ghost use Rattle.gb_bridge_payload.specs.Views.{op_of};
ghost use Rattle.gb_formats.specs.I2cDevice.{after_op, op_read_bytes, ops_run};
ghost use Rattle.gb_formats.specs.I2cRecords.{op_written_size, ops_at};
ghost use Rattle.gb_formats.specs.Results.{tells};
ghost use Rattle.gb_i2c.specs.Counted.{AreCounted};

use crate::memory::Memory;
use gb_base::{Bytes, OutOfMemory};
use gb_bridge_payload::TransferOp;

/// Does so many ops in order, and adds the bytes that they read to `answer`. Few in all take no
/// memory. After want of memory some may have been done.
pub fn run(
    count: u16,
    ops: &[u8],
    bytes: &[u8],
    memory: &mut Memory,
    answer: &mut Bytes,
) -> Result<(), OutOfMemory>
    requires { AreCounted count ops.now bytes.now }
    ensures step { OnOk result (ops_run memory.old bytes.now answer.old (ops_at count ops.now)
        ≡ tells memory.new answer.new) }
    ensures few { AreFew
        (ops_run memory.old bytes.now answer.old (ops_at count ops.now)).served.payload
        → IsOk result }
{
    let mut ops = ops;
    let mut bytes = bytes;
    for _ in 0..count {
        let (op, later) = TransferOp::first(ops);
        let (written, left) = bytes.split_at(op.written_size() as usize);
        apply(&op, written, memory, answer)?;
        ops = later;
        bytes = left;
    }
    Ok(())
}

/// Does an op, and adds the bytes that it reads to `answer`.
fn apply(
    op: &TransferOp,
    bytes: &[u8],
    memory: &mut Memory,
    answer: &mut Bytes,
) -> Result<(), OutOfMemory>
    requires { length bytes.now ≡ op_written_size (op_of op.now) }
    ensures memory { OnOk result (memory.new ≡ after_op memory.old bytes.now (op_of op.now)) }
    ensures answer { OnOk result
        (answer.new ≡ answer.old ++ op_read_bytes memory.old (op_of op.now)) }
    ensures few { AreFew (answer.old ++ op_read_bytes memory.old (op_of op.now)) → IsOk result }
{
    if op.reads() {
        return memory.read(op.size, answer);
    }
    memory.write(bytes);
    Ok(())
}
