//! Numbers in groups.
#![tactic(auto)]

mod groups;

pub use groups::Groups;
