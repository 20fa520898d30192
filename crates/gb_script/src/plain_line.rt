//! The bytes that a line may have.

ghost use Rattle.std.specs.Prelude.{◌≡◌, ◌+◌, ◌≤◌, ◌<◌, true, false, Some, None, nat_le, length};
ghost use Rattle.std.specs.Prelude.{OnOk};
ghost use Rattle.std.specs.List.{list_all};
ghost use Rattle.gb_formats.specs.Script.{is_printable};
ghost use Rattle.gb_script.specs.Plainness.{JudgesCapture, JudgesPart, JudgesScript};

use gb_base::LineReason;

/// How many bytes a line may have.
pub const LONGEST_LINE: usize = 8_192;

/// Tells why a line is bad by its length, or else by its first byte that isn't printable ASCII.
pub fn plain_line(line: &[u8]) -> Result<(), LineReason>
    ensures script { JudgesScript line.now result }
    ensures capture { JudgesCapture line.now result }
    ensures part { JudgesPart line.now result }
    ensures short { OnOk result (length line.now ≤ 8192) }
{
    if line.len() > LONGEST_LINE {
        return Err(LineReason::Long);
    }
    if are_printable(line) {
        return Ok(());
    }
    let mut place = 1;
    for b in line {
        if !is_printable(*b) {
            return Err(LineReason::BadByte(place));
        }
        place += 1;
    }
    Ok(())
}

/// Whether all bytes are printable ASCII. All are looked at, which is done for many at once.
fn are_printable(line: &[u8]) -> bool
    ensures { result ≡ list_all is_printable line.now }
{
    let mut printable = true;
    for b in line {
        printable &= is_printable(*b);
    }
    printable
}

/// Whether a byte is printable ASCII.
fn is_printable(b: u8) -> bool
    ensures { result ≡ is_printable b }
{
    (b' '..=b'~').contains(&b)
}
