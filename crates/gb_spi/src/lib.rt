//! The SPI device of a module: an echo at chip select 0.
#![tactic(auto)]

mod bridging;
mod device;
mod entries;
mod ops;
mod readings;
mod transfer;

pub use bridging::bridge;
pub use device::Device;
pub use gb_bridge_payload::BridgeFault;
pub use readings::reading;
