//! Reads and writes the payloads of the Control and SVC protocols.
#![tactic(auto)]

mod control_ask;
pub mod control_kinds;
mod control_reply;
pub mod first;
mod payload_fault;
pub mod protocols;
mod reading;
mod results;
mod svc_ask;
pub mod svc_kinds;
mod svc_reply;
mod writing;

pub use control_ask::ControlAsk;
pub use control_reply::ControlReply;
pub use payload_fault::PayloadFault;
pub use reading::{Fields, mismatch};
pub use results::{INVALID, NONEXISTENT, OVERFLOW, PROTOCOL_BAD, RETRY, SUCCESS, fault_result};
pub use svc_ask::SvcAsk;
pub use svc_reply::{GREYBUS, SvcReply};
pub use writing::{Field, put};
