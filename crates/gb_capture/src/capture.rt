//! The message of a line.

ghost use Rattle.std.specs.Prelude.{◌≡◌, ◌≤◌, length};
ghost use Rattle.gb_capture.specs.Captures.{captured_of};
ghost use Rattle.gb_formats.specs.Captures as formats;
ghost use Rattle.gb_formats.specs.Captures.{by_message, word_fault};
ghost use Rattle.gb_formats.specs.Wire.{raw_message};

use gb_base::{CaptureFault, LineReason};
use gb_script::captured_bytes;
use gb_wire::{Message, decode};

/// The message of a line of a capture, and whether the application processor sent it or took it.
/// None for a blank or comment line. The message's bytes come to the front of `room`.
///
/// The faults in the order in which they are tried: TooLong, BadByte, then the words from the left,
/// then Wire, then Extra.
pub fn captured<'a>(
    line: &[u8],
    room: &'a mut [u8],
) -> Result<Option<(bool, Message<'a>)>, CaptureFault>
    requires { 4096 ≤ length room.old }
    ensures { captured_of result ≡ formats.captured line.now }
{
    match captured_bytes(line, room) {
        Ok(None) => Ok(None),
        Ok(Some((from_ap, bytes))) => whole_message(from_ap, bytes),
        Err(why) => Err(word_fault(why)),
    }
}

/// The one message that bytes are, and whether the application processor sent it.
fn whole_message(from_ap: bool, bytes: &[u8]) -> Result<Option<(bool, Message<'_>)>, CaptureFault>
    requires { length bytes.now ≤ 4096 }
    ensures { captured_of result ≡ by_message from_ap (raw_message bytes.now) }
{
    match decode(bytes) {
        Ok((message, size)) => {
            if size == bytes.len() {
                Ok(Some((from_ap, message)))
            } else {
                let count = (bytes.len() - size) as u32;
                Err(CaptureFault::Extra { count })
            }
        }
        Err(fault) => Err(CaptureFault::Wire(fault)),
    }
}

/// Why a line is none of a capture, by why its words are bad.
fn word_fault(why: LineReason) -> CaptureFault
    ensures { result ≡ word_fault why }
{
    match why {
        LineReason::Long => CaptureFault::TooLong,
        LineReason::BadByte(at) => CaptureFault::BadByte(at),
        LineReason::BadWord(at) => CaptureFault::BadWord(at),
        LineReason::MissingWord(at) => CaptureFault::MissingWord(at),
        LineReason::ExtraWord(at) => CaptureFault::ExtraWord(at),
    }
}
