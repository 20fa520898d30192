//! Reads the lines of a capture.

ghost use Rattle.std.specs.Prelude.{◌≡◌, ◌≤◌, length, IfOk, IfSome};
ghost use Rattle.gb_formats.specs.Captures.{line_holds, way_word};
ghost use Rattle.gb_script.specs.Captures.{held_of};

use crate::hex_words::hex_into;
use crate::plain_line::plain_line;
use crate::words::{first_word, is};
use gb_base::LineReason;

/// What a line of a capture holds: whether the application processor sent the message, and its
/// bytes, which come to the front of `room`. None for a blank or comment line.
pub fn captured_bytes<'a>(
    line: &[u8],
    room: &'a mut [u8],
) -> Result<Option<(bool, &'a [u8])>, LineReason>
    requires { 4096 ≤ length room.old }
    ensures held { held_of result ≡ line_holds line.now }
    ensures short { IfOk result (λ held. IfSome held (λ h. length h.1.now ≤ 4096)) }
{
    plain_line(line)?;
    let Some((first, rest)) = first_word(line) else {
        return Ok(None);
    };
    if first.first() == Some(&b'#') {
        return Ok(None);
    }
    let Some(from_ap) = way(first) else {
        return Err(LineReason::BadWord(1));
    };
    let Some((word, rest)) = first_word(rest) else {
        return Err(LineReason::MissingWord(2));
    };
    let Some(count) = hex_into(word, room) else {
        return Err(LineReason::BadWord(2));
    };
    if first_word(rest).is_some() {
        return Err(LineReason::ExtraWord(3));
    }
    Ok(Some((from_ap, &room[..count])))
}

/// `>` where the application processor sent the message, `<` where it took it.
fn way(word: &[u8]) -> Option<bool>
    ensures { result ≡ way_word word.now }
{
    if is(word, ">") {
        Some(true)
    } else if is(word, "<") {
        Some(false)
    } else {
        None
    }
}
