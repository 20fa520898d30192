//! One interface of a module by itself: the bytes of its manifest, its CPorts with a device each,
//! its Control responder, and the downloads of its firmware devices.
#![tactic(auto)]

mod control;
mod cport_state;
mod declared;
mod device;
mod kinds;
mod loads;
mod module;
mod port;
mod ports;
mod stir;
mod turn;

pub use cport_state::CportState;
pub use module::Module;
pub use stir::{Stir, StirFault};
