//! How a message changes the last requests, and what is found of it.

ghost use Rattle.std.specs.Prelude.{◌≡◌, ◌∷◌, List, Some};
ghost use Rattle.gb_capture.specs.Audits.{Keeps, heard_at};
ghost use Rattle.gb_capture.specs.Tables.{Changes, answered_by, last_in, request_by, response_by};
ghost use Rattle.gb_formats.specs.Audit.{finding_of};
ghost use Rattle.gb_formats.specs.Captures.{Heard};
ghost use Rattle.gb_wire.specs.MessageOf.{message_of};

use crate::table::{Asked, Table};
use gb_base::Finding;
use gb_wire::{Message, RESPONSE};

/// How the next message breaks the pairing, if it does. The table stands for it from now on.
pub fn hear(table: &mut Table, line: u32, from_ap: bool, m: &Message<'_>) -> Option<Finding>
    ensures finding { (past : List Heard) → Keeps table.old past
        → result ≡ finding_of past (heard_at line from_ap (message_of m.now)) }
    ensures keeps { (past : List Heard) → Keeps table.old past
        → Keeps table.new (heard_at line from_ap (message_of m.now) ∷ past) }
{
    let id = m.id;
    if m.kind >= RESPONSE {
        return answer(table, !from_ap, id, m.kind % RESPONSE);
    }
    if id == 0 {
        return None;
    }
    let asked = Asked {
        line,
        kind: m.kind,
        answered: false,
    };
    ask(table, from_ap, id, asked)
}

/// How a response that repeats this type breaks the pairing, if it does. Otherwise its request, of
/// this direction, is answered from now on.
fn answer(table: &mut Table, from_ap: bool, id: u16, kind: u8) -> Option<Finding>
    ensures found { result ≡ response_by kind (last_in table.old from_ap id) }
    ensures after { Changes (last_in table.old) (last_in table.new) from_ap id
        (answered_by kind (last_in table.old from_ap id)) }
{
    let Some(asked) = table.get(from_ap, id) else {
        return Some(Finding::Orphan);
    };
    if asked.answered {
        return Some(Finding::Double { asked: asked.line });
    }
    if kind != asked.kind {
        return Some(Finding::OtherType { asked: asked.line });
    }
    table.set(
        from_ap,
        id,
        Asked {
            answered: true,
            ..asked
        },
    );
    None
}

/// How a request breaks the pairing, if it does. It is the last one of its direction with its
/// identifier from now on.
fn ask(table: &mut Table, from_ap: bool, id: u16, asked: Asked) -> Option<Finding>
    ensures found { result ≡ request_by (last_in table.old from_ap id) }
    ensures after { Changes (last_in table.old) (last_in table.new) from_ap id (Some asked) }
{
    let earlier = table.get(from_ap, id);
    table.set(from_ap, id, asked);
    let earlier = earlier?;
    if earlier.answered {
        None
    } else {
        Some(Finding::Reused {
            asked: earlier.line,
        })
    }
}
