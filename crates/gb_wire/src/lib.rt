//! Operation messages as bytes.
#![tactic(auto)]

mod decoder;
mod division;
mod feeder;
mod laws;
mod message;
mod owned;

pub use decoder::decode;
pub use feeder::{FeedFault, Feeder};
pub use laws::{encoded_is_decoded, one_division, one_spelling};
pub use message::{HEADER, Message, RESPONSE, encode_into};
pub use owned::{Messages, OwnedMessage};
