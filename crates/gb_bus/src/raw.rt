//! The bus: raw bytes that a module injects.

ghost use Rattle.std.specs.Prelude.{◌≡◌, ◌≤◌, IfOk, OnOk, length};
ghost use Rattle.gb_bus.specs.Raw.{raw_item};
ghost use Rattle.gb_formats.specs.Wire.{raw_message};

use crate::Bus;
use crate::queue::Item;
use gb_base::{Bytes, OutOfMemory, RawFault, Side};
use gb_wire::decode;
use std::alloc::Global;

/// How many raw bytes are injected at once at most: as many as a message has that goes
/// over the bus.
pub const LONGEST_RAW: usize = 2048;

impl Bus {
    ghost use Rattle.gb_bus.specs.Delivering.{InjectsAs};

    /// Injects at most `LONGEST_RAW` raw bytes on a wired connection. They wait toward the
    /// application processor, as the message that they are or why they aren't one, and the
    /// connection is unclean from then on. After want of memory, and where the connection isn't
    /// wired, nothing is said.
    pub fn inject(&mut self, k: u64, bytes: &[u8]) -> Result<(), OutOfMemory>
        requires { length bytes.now ≤ LONGEST_RAW }
        ensures step { OnOk result (InjectsAs self.old self.new k bytes.now) }
    {
        let item = item(self.alloc, bytes)?;
        self.connections.soil(k);
        self.connections.push(k, Side::Ap, item)?;
        Ok(())
    }
}

/// Raw bytes as they wait in a queue.
fn item(alloc: Global, bytes: &[u8]) -> Result<Item, OutOfMemory>
    requires { length bytes.now ≤ LONGEST_RAW }
    ensures { IfOk result (λ i. i ≡ raw_item (raw_message bytes.now)) }
{
    let (message, size) = match decode(bytes) {
        Ok(found) => found,
        Err(fault) => {
            return Ok(Item::BadRaw {
                fault: RawFault::Wire(fault),
            });
        }
    };
    if bytes.len() != size {
        let count = (bytes.len() - size) as u32;
        return Ok(Item::BadRaw {
            fault: RawFault::Extra { count },
        });
    }
    Ok(Item::Raw {
        label: message.id,
        kind: message.kind,
        result: message.result,
        payload: Bytes::from_slice(alloc, message.payload)?,
    })
}
