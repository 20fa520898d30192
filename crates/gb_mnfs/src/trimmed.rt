//! Spaces at the ends of a line don't count.

ghost use Rattle.std.specs.Prelude.{◌≡◌};
ghost use Rattle.gb_formats.specs.SourceValues.{trimmed, without_back, without_front};

/// A line without the spaces at both ends.
pub fn trimmed(line: &[u8]) -> &[u8]
    ensures { result.now ≡ trimmed line.now }
{
    without_back(without_front(line))
}

/// A line without the spaces in front.
fn without_front(line: &[u8]) -> &[u8]
    ensures { result.now ≡ without_front line.now }
{
    for (i, b) in line.iter().enumerate() {
        if *b != b' ' {
            return &line[i..];
        }
    }
    &[]
}

/// A line without the spaces at the end.
fn without_back(line: &[u8]) -> &[u8]
    ensures { result.now ≡ without_back line.now }
{
    let mut end = line.len();
    while end > 0 && line[end - 1] == b' ' {
        end -= 1;
    }
    &line[..end]
}
