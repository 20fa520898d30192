//! Connections that are there no more.

ghost use Rattle.std.specs.Prelude.{◌≡◌, IfOk};
ghost use Rattle.gb_bus.specs.Parts.{new_connection};
ghost use Rattle.gb_bus.specs.Seen.{seen};

use crate::connection::Connection;
use gb_base::{End, OutOfMemory};
use std::alloc::Global;

/// Connections that are there no more, whose memory the next ones use: each has lists of 16 KiB.
/// They are at most as many as were live at once.
#[derive(Drop)]
pub struct Spare {
    connections: Vec<Connection>,
}

impl Spare {
    /// None is kept. It takes no memory yet.
    pub fn new(alloc: Global) -> Spare {
        Spare {
            connections: Vec::new(alloc),
        }
    }

    /// A connection that isn't wired, on which nothing was drawn.
    pub fn take(
        &mut self,
        alloc: Global,
        ap: u16,
        peer: End,
        protocol: u8,
    ) -> Result<Connection, OutOfMemory>
        ensures { IfOk result (λ x. seen 0 x ≡ new_connection 0 ap peer protocol) }
    {
        match self.connections.pop() {
            Some(gone) => Ok(gone.renewed(ap, peer, protocol)),
            None => Connection::new(alloc, ap, peer, protocol),
        }
    }

    /// Keeps a connection that is there no more. It is dropped for want of memory.
    pub fn keep(&mut self, gone: Connection) {
        if self.connections.reserve(1).is_err() {
            drop(gone);
            return;
        }
        self.connections.push_reserved(gone);
    }
}
