//! What the application processor hears of a connection in a run, and that the audit of a capture
//! finds nothing there. The statements stand in specs/, their proofs in proofs/.
#![tactic(auto)]

mod laws;

pub use laws::{clean_was_always_clean, heard_has_no_finding, nothing_is_found_while_clean};
