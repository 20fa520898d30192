//! Reads captures of a connection, and finds the messages that break the pairing of
//! requests and responses.
#![tactic(auto)]

mod audit;
mod auditor;
mod capture;
mod counts;
mod hearing;
mod laws;
mod table;
#[cfg(test)]
mod tests;

pub use audit::Audit;
pub use auditor::{Auditor, Turn};
pub use capture::captured;
pub use laws::{
    each_pair_relates, each_response_is_paired, no_identifier_is_used_twice,
    no_message_is_paired_twice,
};
