//! The forms on interfaces and connections.

ghost use Rattle.std.specs.Prelude.{◌≡◌, ◌<◌, ◌≤◌, ◌++◌, ℕ, List, [], ◌∷◌, Some, Ok, Err};
ghost use Rattle.std.specs.Prelude.{MatchResult, codes, length};
ghost use Rattle.gb_base.specs.Kinds.{most_kinds};
ghost use Rattle.gb_base.specs.declared.event.Event.{Event};
ghost use Rattle.gb_base.specs.declared.event.Event.TheVariants as event;
ghost use Rattle.gb_formats.specs.Grammar.{behind_four, behind_one, behind_three, behind_two};
ghost use Rattle.gb_formats.specs.Grammar.{disconnecting, disconnecting_how, inserting};
ghost use Rattle.gb_formats.specs.Grammar.{inserting_kinds, of_cport, of_intf};
ghost use Rattle.gb_script.specs.Parts.{inserting_raw};
ghost use Rattle.gb_formats.specs.Said.{Said};
ghost use Rattle.gb_script.specs.Tells.{GoesOnByKind, StopsAtKind, StopsBy, Tells};

use crate::LineFault;
use crate::rest::Rest;
use crate::values::kind_word;
use crate::words::is;
use gb_base::{Event, Kind, Kinds, LineReason};
use std::alloc::Global;

/// `insert I KIND ..`, with one to four kinds, or `insert I raw HEX`.
pub fn insert(alloc: Global, rest: &Rest<'_>) -> Result<Option<Event>, LineFault>
    ensures { Tells result (inserting rest.now) }
{
    let (intf, rest) = rest.intf()?;
    let (word, behind) = rest.next()?;
    if is(word, "raw") {
        return insert_raw(alloc, intf, &behind);
    }
    insert_kinds(intf, &rest)
}

/// `HEX` behind `insert I raw`.
fn insert_raw(alloc: Global, intf: u8, rest: &Rest<'_>) -> Result<Option<Event>, LineFault>
    ensures { Tells result (inserting_raw intf rest.now) }
{
    let (manifest, rest) = rest.bytes(alloc)?;
    rest.end()?;
    Ok(Some(Event::InsertRaw { intf, manifest }))
}

/// `KIND ..` behind `insert I`.
fn insert_kinds(intf: u8, rest: &Rest<'_>) -> Result<Option<Event>, LineFault>
    ensures { Tells result (inserting_kinds intf rest.now) }
{
    let (kind, rest) = rest.kind()?;
    behind_one(intf, Kinds::one(kind), &rest)
}

/// Nothing, or a kind more, behind one kind.
fn behind_one(intf: u8, kinds: Kinds, rest: &Rest<'_>) -> Result<Option<Event>, LineFault>
    requires { length kinds ≤ 1 }
    ensures { Tells result (behind_one intf kinds rest.now) }
{
    let Some((kind, rest)) = next_kind(rest)? else {
        return Ok(Some(Event::Insert { intf, kinds }));
    };
    behind_two(intf, with_kind(kinds, kind), &rest)
}

/// Nothing, or a kind more, behind two kinds.
fn behind_two(intf: u8, kinds: Kinds, rest: &Rest<'_>) -> Result<Option<Event>, LineFault>
    requires { length kinds ≤ 2 }
    ensures { Tells result (behind_two intf kinds rest.now) }
{
    let Some((kind, rest)) = next_kind(rest)? else {
        return Ok(Some(Event::Insert { intf, kinds }));
    };
    behind_three(intf, with_kind(kinds, kind), &rest)
}

/// Nothing, or a kind more, behind three kinds.
fn behind_three(intf: u8, kinds: Kinds, rest: &Rest<'_>) -> Result<Option<Event>, LineFault>
    requires { length kinds ≤ 3 }
    ensures { Tells result (behind_three intf kinds rest.now) }
{
    let Some((kind, rest)) = next_kind(rest)? else {
        return Ok(Some(Event::Insert { intf, kinds }));
    };
    behind_four(intf, with_kind(kinds, kind), &rest)
}

/// Nothing behind four kinds.
fn behind_four(intf: u8, kinds: Kinds, rest: &Rest<'_>) -> Result<Option<Event>, LineFault>
    ensures { Tells result (behind_four intf kinds rest.now) }
{
    rest.end()?;
    Ok(Some(Event::Insert { intf, kinds }))
}

/// The next word as a kind, and the words behind it. None where no word is left.
fn next_kind<'a>(rest: &Rest<'a>) -> Result<Option<(Kind, Rest<'a>)>, LineReason>
    ensures { MatchResult result (GoesOnByKind rest.now) (StopsAtKind rest.now) }
{
    let Some((word, behind)) = rest.split_first() else {
        return Ok(None);
    };
    match kind_word(word) {
        Some(kind) => Ok(Some((kind, behind))),
        None => Err(rest.bad_word()),
    }
}

/// The kinds with one more behind them.
fn with_kind(mut kinds: Kinds, kind: Kind) -> Kinds
    requires { length kinds < most_kinds }
    ensures { result ≡ kinds ++ kind ∷ [] }
{
    kinds.push(kind);
    kinds
}

/// `pull I`.
pub fn pull(rest: &Rest<'_>) -> Result<Option<Event>, LineFault>
    ensures { Tells result (of_intf event.Pull rest.now) }
{
    let (intf, rest) = rest.intf()?;
    rest.end()?;
    Ok(Some(Event::Pull { intf }))
}

/// `connect I C`.
pub fn connect(rest: &Rest<'_>) -> Result<Option<Event>, LineFault>
    ensures { Tells result (of_cport event.Connect rest.now) }
{
    let (intf, cport) = only_cport(rest)?;
    Ok(Some(Event::Connect { intf, cport }))
}

/// `disconnect I C`, or `disconnect I C drain`.
pub fn disconnect(rest: &Rest<'_>) -> Result<Option<Event>, LineFault>
    ensures { Tells result (disconnecting rest.now) }
{
    let (intf, cport, rest) = rest.intf_cport()?;
    disconnect_how(intf, cport, &rest)
}

/// `drain`, or nothing, behind `disconnect I C`.
fn disconnect_how(intf: u8, cport: u16, rest: &Rest<'_>) -> Result<Option<Event>, LineFault>
    ensures { Tells result (disconnecting_how intf cport rest.now) }
{
    let Some((word, behind)) = rest.split_first() else {
        return Ok(Some(Event::Disconnect { intf, cport }));
    };
    if !is(word, "drain") {
        return Err(LineFault::Bad(rest.extra_word()));
    }
    behind.end()?;
    Ok(Some(Event::Drain { intf, cport }))
}

/// `I C` as the only words behind the first.
pub fn only_cport(rest: &Rest<'_>) -> Result<(u8, u16), LineFault>
    ensures { MatchResult result
        (λ f. (make : ℕ → ℕ → Event) → of_cport make rest.now ≡ Ok (Some (make f.0 f.1)))
        (λ fault. StopsBy fault
        (λ why. (make : ℕ → ℕ → Event) → of_cport make rest.now ≡ Err why)) }
{
    let (intf, cport, rest) = rest.intf_cport()?;
    rest.end()?;
    Ok((intf, cport))
}
