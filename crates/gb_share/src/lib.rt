//! Requesters that run their lines at once, each in a thread of its own, over one desk.
#![tactic(auto)]

mod hand;
mod lines;
mod merging;
mod parting;
mod requester;
mod sharing;
mod stop;
mod text;
mod threads;
mod tries;

pub use requester::Requester;
pub use sharing::share;
pub use stop::ShareStop;
pub use text::shared_text;
