//! A map from numbers that stand close together.
#![tactic(auto)]

mod table;

pub use table::Table;
