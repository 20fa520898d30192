//! What the ops of a transfer are refused for.

ghost use Rattle.std.specs.Prelude.{◌≡◌, ◌≤◌, ◌<◌, ◌*◌, ◌/◌, length, sum_by};
ghost use Rattle.std.specs.List.{list_any};
ghost use Rattle.gb_formats.specs.I2cDevice.{has_strange_flags, is_elsewhere};
ghost use Rattle.gb_formats.specs.I2cRecords.{op_read_size, op_size, ops_at};
ghost use Rattle.gb_i2c.specs.Refusals.{IsRefusedBy};

use gb_bridge_payload::{INVALID, MOST_PAYLOAD, NONEXISTENT, OVERFLOW, TransferOp};

/// The address of the memory.
const ADDRESS: u16 = 0x50;

/// What is asked of the ops of a transfer.
#[derive(Clone, Copy)]
struct Survey {
    /// One has a flag word other than 0 and 1.
    strange: bool,
    /// One has another address.
    elsewhere: bool,
    /// How many bytes they read.
    read: usize,
}

/// Refuses so many ops: INVALID where one has strange flags, then NONEXISTENT where one has another
/// address, then OVERFLOW where they read more than a payload has.
pub fn check(count: u16, ops: &[u8]) -> Result<(), u8>
    requires { length ops.now ≡ op_size * count }
    ensures { IsRefusedBy (ops_at count ops.now) result }
{
    let survey = Survey::of(count, ops);
    if survey.strange {
        return Err(INVALID);
    }
    if survey.elsewhere {
        return Err(NONEXISTENT);
    }
    if survey.read > MOST_PAYLOAD {
        return Err(OVERFLOW);
    }
    Ok(())
}

impl Survey {
    /// Looks at so many ops.
    fn of(count: u16, ops: &[u8]) -> Survey
        requires { length ops.now ≡ op_size * count }
        ensures strange { result.strange ≡ list_any has_strange_flags (ops_at count ops.now) }
        ensures elsewhere { result.elsewhere ≡ list_any is_elsewhere (ops_at count ops.now) }
        ensures read { result.read ≡ sum_by op_read_size (ops_at count ops.now) }
    {
        let mut survey = Survey {
            strange: false,
            elsewhere: false,
            read: 0,
        };
        let mut rest = ops;
        for _ in 0..count {
            let (op, later) = TransferOp::first(rest);
            survey.strange |= op.flags > 1;
            survey.elsewhere |= op.addr != ADDRESS;
            survey.read += op.read_size() as usize;
            rest = later;
        }
        survey
    }
}
