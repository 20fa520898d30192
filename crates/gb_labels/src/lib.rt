//! The identifiers of the operations that one side of a connection has on the way.
#![tactic(auto)]

mod labels;
mod word;

pub use labels::{Labels, NoLabel};
