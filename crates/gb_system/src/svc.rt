//! The types that a script may not send on the connection of the supervisory controller.

ghost use Rattle.std.specs.Prelude.{◌≡◌};
ghost use Rattle.gb_machine.specs.Refusals.{is_reserved};

use gb_payload::svc_kinds::{
    CONN_CREATE, CONN_DESTROY, INTF_ACTIVATE, INTF_DEVICE_ID, REFCLK_ENABLE, ROUTE_CREATE,
    ROUTE_DESTROY, UNIPRO_ENABLE, VSYS_ENABLE,
};

/// Whether the application processor keeps a type for its own sequences.
pub fn is_reserved(kind: u8) -> bool
    ensures { result ≡ is_reserved kind }
{
    matches!(
        kind,
        INTF_DEVICE_ID
            | CONN_CREATE
            | CONN_DESTROY
            | ROUTE_CREATE
            | ROUTE_DESTROY
            | VSYS_ENABLE
            | REFCLK_ENABLE
            | UNIPRO_ENABLE
            | INTF_ACTIVATE
    )
}
