//! All parties of the bus, stepped by events.
#![tactic(auto)]

mod acting;
mod answering;
mod asking;
mod bridging;
mod connecting;
mod deciding;
mod delivering;
mod ending;
mod held;
mod holding;
mod injecting;
mod key;
mod loading;
mod loads;
mod marks;
mod message;
mod module_loading;
mod module_serving;
mod modules;
mod names;
mod naming;
mod parties;
mod plugging;
mod sending;
mod serving;
mod showing;
mod stirring;
mod stop;
mod svc;
mod system;
mod taking;
mod tickets;
mod ticking;

pub use system::System;
