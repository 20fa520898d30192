//! Writes the lines of reports and audits.
#![tactic(auto)]

mod audit;
mod checked;
mod digits;
mod dump;
mod entry;
mod lines;
mod names;
mod part;
mod parts;
mod report;
mod shared;
mod show;
mod summary;

pub use audit::{append_bad_capture, append_finding, append_verdict};
pub use checked::{put_accepted, put_refused};
pub use digits::Hex;
pub use dump::put_dump;
pub use lines::{empty_line, line_of, put_line};
pub use names::reason_name;
pub use part::{Part, append_ascii};
pub use report::{append_all, append_refusal, put, put_refusal};
pub use shared::{append_order, append_ticket};
pub use show::{connection_line, interface_line, name_line, now_line, queue_line};
pub use summary::{Counts, put_summary};
