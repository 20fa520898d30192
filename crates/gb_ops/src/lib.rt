//! The requests of one side of a connection whose identifiers are in use.
#![tactic(auto)]

mod entries;
mod open_list;
mod ops;
mod tables;

pub use entries::{BeginFault, Holder, Matched, Pending};
pub use ops::Ops;
