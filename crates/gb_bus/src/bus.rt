//! The bus.

ghost use Rattle.std.specs.Prelude.{[], IfOk};
ghost use Rattle.gb_machine.specs.Bus.{first_bus};

use crate::connections::Connections;
use crate::slots::Slots;
use gb_base::OutOfMemory;
use std::alloc::Global;

/// Connections, requests and queues. Connection 1 is that of the supervisory controller. A call
/// that names a connection which isn't live changes no connection.
#[derive(Drop)]
pub struct Bus {
    pub(crate) alloc: Global,
    pub(crate) made: u64,
    pub(crate) connections: Connections,
    pub(crate) slots: Slots,
}

impl Bus {
    ghost use Rattle.gb_bus.specs.Stands.{Stands, around_of};

    /// The bus on which nothing was sent. It has the connection of the supervisory controller.
    pub fn new(alloc: Global) -> Result<Bus, OutOfMemory>
        ensures { IfOk result (λ x. Stands (around_of [] []) x first_bus) }
    {
        Ok(Bus {
            alloc,
            made: 1,
            connections: Connections::new(alloc)?,
            slots: Slots::new(alloc),
        })
    }
}
