//! The GPIO device of a module: eight lines, their requests, and what comes from outside.
#![tactic(auto)]

mod bridging;
mod change;
mod deciding;
mod device;
mod effect;
mod irq;
mod line;
mod readings;

pub use bridging::bridge;
pub use device::Device;
pub use gb_bridge_payload::BridgeFault;
pub use readings::reading;
