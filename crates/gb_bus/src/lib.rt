//! Connections, requests and queues: the bus part of the machine.
#![tactic(auto)]

mod answers;
mod bus;
mod connection;
mod connections;
mod deadlines;
mod delivering;
mod end_numbers;
mod ends;
mod giving_up;
mod interface_numbers;
mod listing;
mod lookups;
mod naming;
mod numbered;
mod overview;
mod queue;
mod raw;
mod sending;
mod slots;
mod spare;
mod tally;
mod wiring;

pub use answers::{
    About, AlreadyEnded, Arrival, Arrived, Asked, AttachFault, DeliverFault, SendFault, Sent,
};
pub use bus::Bus;
pub use ends::other_side;
pub use overview::{Known, Waiting};
pub use raw::LONGEST_RAW;
pub use tally::Tally;
