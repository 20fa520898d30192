//! The application processor: what it knows of interfaces and connections, the firmware images that
//! it lends, and what it does of its own.
#![tactic(auto)]

mod acts;
mod asking;
mod awaited;
mod bridging;
mod connecting;
mod connections;
mod cports;
mod ends;
mod enumerating;
mod failing;
mod host;
mod images;
mod interfaces;
mod links;
mod payloads;
mod places;
mod refusing;
mod removing;
mod replies;
mod served;
mod serving;
mod turning;
mod waiting;

pub use acts::{Act, Acts};
pub use gb_firmware::PutFault;
pub use host::{Host, IntfView, SVC};
pub use served::HostServed;
