//! Sessions: one line of a script in, and its report out.
#![tactic(auto)]

mod laws;
mod reporter;
mod session;

pub use laws::a_report_is_that_of_its_lines;
pub use reporter::{Ran, Reporter};
pub use session::{Ended, Session};
