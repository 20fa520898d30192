//! The I2C device of a module: an adapter with a memory of 256 bytes at address 50 (hex).
#![tactic(auto)]

mod bridging;
mod device;
mod memory;
mod ops;
mod readings;
mod survey;
mod transfer;

pub use bridging::bridge;
pub use device::Device;
pub use gb_bridge_payload::BridgeFault;
pub use readings::reading;
