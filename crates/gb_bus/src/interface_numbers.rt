//! The numbers of connections by the interfaces of their far ends.

ghost use Rattle.std.specs.Prelude.{◌≡◌, OnErr, OnOk};
ghost use Rattle.gb_bus.specs.Index.{Enters, Leaves};

use gb_base::{End, OutOfMemory};
use gb_groups::Groups;

/// An interface has the number of a connection more, where the far end is at it. After want of
/// memory all is as before.
pub fn add(grouped: &mut Groups, far: End, number: u64) -> Result<(), OutOfMemory>
    ensures added { OnOk result (Enters grouped.old grouped.new far number) }
    ensures unchanged { OnErr result (grouped.new ≡ grouped.old) }
{
    match far {
        End::Module { intf, .. } => grouped.add(intf, number),
        End::Ap(_) | End::Svc => Ok(()),
    }
}

/// An interface doesn't have the number of a connection any more, where the far end is at it.
pub fn remove(grouped: &mut Groups, far: End, number: u64)
    ensures { Leaves grouped.old grouped.new far number }
{
    match far {
        End::Module { intf, .. } => grouped.remove(intf, number),
        End::Ap(_) | End::Svc => {}
    }
}
