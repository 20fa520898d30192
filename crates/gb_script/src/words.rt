//! Cuts a line into words.

ghost use Rattle.std.specs.Prelude.{◌≡◌, ◌<◌, ◌≤◌, [], ◌∷◌, length, IfSome, MatchOption};
ghost use Rattle.std.specs.Str.{bytes_eq};
ghost use Rattle.gb_formats.specs.Words.{words};

/// The first word of a line, and the line behind it. None where there are no words.
pub fn first_word(line: &[u8]) -> Option<(&[u8], &[u8])>
    ensures cut { MatchOption result (words line.now ≡ [])
        (λ f. words line.now ≡ f.0.now ∷ words f.1.now) }
    ensures shorter { IfSome result (λ f. length f.1.now < length line.now) }
    ensures within { IfSome result (λ f. length f.0.now ≤ length line.now) }
{
    let mut start = 0;
    while start < line.len() && line[start] == b' ' {
        start += 1;
    }
    if start == line.len() {
        return None;
    }
    let mut end = start;
    while end < line.len() && line[end] != b' ' {
        end += 1;
    }
    Some((&line[start..end], &line[(end + 1).min(line.len())..]))
}

/// Whether a word is this one.
#[inline]
pub fn is(word: &[u8], this: &str) -> bool
    ensures { result ≡ bytes_eq word.now this.now }
{
    let bytes = this.as_bytes();
    if word.len() != bytes.len() {
        return false;
    }
    for i in 0..word.len() {
        if word[i] != bytes[i] {
            return false;
        }
    }
    true
}
