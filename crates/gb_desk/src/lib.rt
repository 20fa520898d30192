//! A bus that several threads share: one turn, one history, and a pass for each caller.
#![tactic(auto)]

mod desk;
mod desk_fault;
mod events;
mod journal;
mod pass;
mod seat;
mod slots;
mod stored;
mod ticket;
mod view;

pub use desk::Desk;
pub use desk_fault::{Busy, DeskFault, PassSpent};
pub use events::asks;
pub use journal::{Journal, PastEvent, PastEvents};
pub use pass::Pass;
pub use slots::Told;
pub use ticket::{Opened, Ticket};
