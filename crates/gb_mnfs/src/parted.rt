//! Parts a line in two.

ghost use Rattle.std.specs.Prelude.{◌≡◌, Some, None, MatchOption};
ghost use Rattle.gb_formats.specs.SourceValues.{parted};

/// What stands before the first such byte, and what behind it. None where there is none.
pub fn parted(line: &[u8], by: u8) -> Option<(&[u8], &[u8])>
    ensures { MatchOption result (parted by line.now ≡ None)
        (λ p. parted by line.now ≡ Some (p.0.now, p.1.now)) }
{
    for (i, b) in line.iter().enumerate() {
        if *b == by {
            return Some((&line[..i], &line[i + 1..]));
        }
    }
    None
}
