//! The switch between the application processor and the modules: the power sequence of interfaces,
//! and what waits at each end.
#![tactic(auto)]

mod ladder;
mod place;
mod port;
mod queue;
mod rung;
mod waiting;

pub use ladder::Ladder;
pub use place::Place;
pub use queue::Queue;
pub use rung::{NotReady, NotRouted, Rung};
pub use waiting::Waiting;
