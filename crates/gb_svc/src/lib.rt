//! The responder of the supervisory controller.
#![tactic(auto)]

mod answers;
mod served;
mod table;

pub use served::SvcServed;
pub use table::serve;
