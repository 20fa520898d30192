//! The UART device of a module, which sends back what it is sent, and the credits of its peer.
#![tactic(auto)]

mod bridging;
mod credits;
mod device;
mod readings;

pub use bridging::bridge;
pub use credits::{Credits, MOST_CREDITS, NoCredit, TooMany};
pub use device::Device;
pub use gb_bridge_payload::BridgeFault;
pub use readings::reading;
