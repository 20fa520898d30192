//! What a request does that is served.

use crate::line::Line;
use gb_bridge_payload::GpioReply;

/// What a request does that is served.
#[derive(Clone, Copy)]
pub enum Effect {
    /// The line of this number changes, and is then this one.
    Changes(u8, Line),
    /// Nothing changes, and the response tells this.
    Tells(GpioReply),
}
