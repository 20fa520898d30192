//! Firmware images and downloads: what the application processor answers, and the loader of a
//! module's device. And the Loopback device of a module, which sends back what it is sent.
#![tactic(auto)]

mod asking;
mod bridging;
mod download;
mod image;
mod images;
mod loader;
mod loans;
mod loopback;

pub use bridging::bridge;
pub use gb_bridge_payload::BridgeFault;
pub use images::{Images, PutFault};
pub use loader::{LoadFault, Loader};
pub use loopback::Loopback;
