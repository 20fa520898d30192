//! The order and the tickets of `share`.

ghost use Rattle.std.specs.Prelude.{◌≡◌, ◌++◌, [], OnOk, codes, if◌then◌else◌, option_copied};
ghost use Rattle.std.specs.String.{string_bytes};
ghost use Rattle.gb_formats.specs.ShowTexts.{order_text, ticket_line};
ghost use Rattle.gb_formats.specs.Texts.{ended};

use crate::lines::end_line;
use crate::part::{Part, parts};
use crate::show::Standing;
use gb_base::{Name, OutOfMemory, Outcome};

/// A place of the order: its requester, and whether its line is full.
#[derive(Clone, Copy)]
struct Place(u8, bool);

impl Part for Place {
    ghost use Rattle.gb_formats.specs.ShowTexts.{place_text};

    ghost text = { λ p. place_text p.0 p.1 };

    fn append_to(&self, line: &mut String) -> Result<(), OutOfMemory> {
        parts!(" ", self.0, full_mark(self.1)).append_to(line)
    }
}

/// What is behind the requester of a full line.
fn full_mark(full: bool) -> &'static str
    ensures { result.now ≡ (if full then codes "f" else []) }
{
    if full { "f" } else { "" }
}

/// Appends the order of lines: at each place the requester, 0 to 8, and whether its line is full.
/// After a refusal a front of it may stand in `out`.
pub fn append_order(places: &[(u8, bool)], out: &mut String) -> Result<(), OutOfMemory>
    ensures { OnOk result (string_bytes out.new ≡ string_bytes out.old ++ order_text places.now) }
{
    "order".append_to(out)?;
    for place in places {
        Place(place.0, place.1).append_to(out)?;
    }
    end_line(out)
}

/// Appends the line of a name: its requester and word, the number of its request, and how that
/// ended, None where it is open. After a refusal a front of it may stand in `out`.
pub fn append_ticket(
    name: &Name,
    number: u64,
    how: Option<&Outcome>,
    out: &mut String,
) -> Result<(), OutOfMemory>
    ensures { OnOk result (string_bytes out.new ≡ string_bytes out.old
        ++ ended (ticket_line name.now number (option_copied how.entry))) }
{
    let word = name.word.text();
    parts!(
        "ticket ",
        name.who,
        " ",
        "@",
        word,
        " #",
        number,
        " ",
        Standing(how)
    )
    .append_to(out)?;
    end_line(out)
}
