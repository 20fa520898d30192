//! Cuts a text into lines.

ghost use Rattle.std.specs.Prelude.{◌≡◌, ◌<◌, [], ◌∷◌, length, MatchOption, IfSome};
ghost use Rattle.gb_formats.specs.Lines.{lines, without_cr};

/// The first line of a text, without its end, and the text behind it. None at the end.
///
/// Lines end with LF, which the last may lack. One CR before the LF belongs to the end.
pub fn first_line(text: &[u8]) -> Option<(&[u8], &[u8])>
    ensures cut { MatchOption result (lines text.now ≡ [])
        (λ f. lines text.now ≡ f.0.now ∷ lines f.1.now) }
    ensures shorter { IfSome result (λ f. length f.1.now < length text.now) }
{
    for (i, b) in text.iter().enumerate() {
        if *b == b'\n' {
            return Some((without_cr(&text[..i]), &text[i + 1..]));
        }
    }
    if text.is_empty() {
        None
    } else {
        Some((text, &[]))
    }
}

/// A line without the CR at its end, if it has one.
pub fn without_cr(line: &[u8]) -> &[u8]
    ensures { result.now ≡ without_cr line.now }
{
    if line.last() == Some(&b'\r') {
        &line[..line.len() - 1]
    } else {
        line
    }
}
