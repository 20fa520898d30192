//! The line of each entry.

ghost use Rattle.std.specs.Prelude.{◌≡◌, ◌++◌, ℕ, Bool, true, List, OnOk, IsAscii};
ghost use Rattle.std.specs.String.{string_bytes};
ghost use Rattle.gb_formats.specs.Texts.{IsWordOf, entry_line};
ghost use Rattle.gb_base.specs.Groups.{is_device, is_link, is_message, is_raw, is_request};

use crate::digits::{Digits, Hex};
use crate::names::{reason_name, refusal_name, stage_name, state_name};
use crate::part::{Part, parts};
use crate::parts::{Downloaded, Dropped, Item, Lost, Reply, Size, Way};
use gb_base::{Entry, OutOfMemory};
use std::str;

/// Appends the line of an entry, without its end.
#[inline(always)]
pub fn append_entry(
    entry: &Entry,
    line: u32,
    hex: bool,
    out: &mut String,
) -> Result<(), OutOfMemory>
    ensures text { OnOk result
        (string_bytes out.new ≡ string_bytes out.old ++ entry_line line hex entry.now) }
    ensures ascii { OnOk result ((word : List ℕ) → IsWordOf word entry.now → IsAscii word) }
{
    match entry {
        Entry::Done => parts!("line ", line, " ok").append_to(out),
        Entry::Refused { why } => {
            parts!("line ", line, " refused ", refusal_name(*why)).append_to(out)
        }
        Entry::Asked { .. } | Entry::Replied { .. } => append_message(entry, hex, out),
        Entry::Held { .. }
        | Entry::Ended { .. }
        | Entry::Late { .. }
        | Entry::Dropped { .. }
        | Entry::Ignored { .. } => append_request(entry, out),
        Entry::Raw { .. }
        | Entry::BadRaw { .. }
        | Entry::LateLabel { .. }
        | Entry::UnknownLabel { .. } => append_raw(entry, hex, out),
        Entry::Interface { .. } | Entry::Manifest { .. } | Entry::Connection { .. } => {
            append_link(entry, out)
        }
        Entry::Irq { .. }
        | Entry::Received { .. }
        | Entry::Serial { .. }
        | Entry::Credits { .. }
        | Entry::Download { .. } => append_device(entry, out),
        Entry::Settled { count } => parts!("settled ", count).append_to(out),
        Entry::Shown { text } => {
            let text = str::from_utf8(text.items()).unwrap();
            text.append_to(out)
        }
    }
}

/// Appends the line of a message that is put in a queue.
fn append_message(entry: &Entry, hex: bool, out: &mut String) -> Result<(), OutOfMemory>
    requires { is_message entry.now ≡ true }
    ensures { (line : ℕ) → OnOk result
        (string_bytes out.new ≡ string_bytes out.old ++ entry_line line hex entry.now) }
{
    match entry {
        Entry::Asked {
            number,
            from,
            to,
            kind,
            size,
            bytes,
            lost,
        } => {
            let way = Way(*from, *to);
            let size = Size {
                hex,
                size: *size,
                bytes,
            };
            parts!(
                "ask #",
                number,
                way,
                " type ",
                Hex(*kind),
                " size ",
                size,
                Lost(*lost)
            )
            .append_to(out)
        }
        Entry::Replied {
            number,
            from,
            to,
            result: code,
            size,
            bytes,
        } => {
            let (reply, way) = (Reply(*number), Way(*from, *to));
            let size = Size {
                hex,
                size: *size,
                bytes,
            };
            parts!(reply, way, " result ", Hex(*code), " size ", size).append_to(out)
        }
        _ => unreachable!(),
    }
}

/// Appends the line that tells what became of a request.
fn append_request(entry: &Entry, out: &mut String) -> Result<(), OutOfMemory>
    requires { is_request entry.now ≡ true }
    ensures { (line : ℕ) (hex : Bool) → OnOk result
        (string_bytes out.new ≡ string_bytes out.old ++ entry_line line hex entry.now) }
{
    match entry {
        Entry::Held { number } => parts!("held ", Item(*number)).append_to(out),
        Entry::Ended {
            number,
            outcome,
            reading,
        } => parts!("end #", number, outcome, reading).append_to(out),
        Entry::Late { number } => parts!("late #", number).append_to(out),
        Entry::Dropped { number, reply } => {
            parts!("drop ", Dropped(*number, *reply)).append_to(out)
        }
        Entry::Ignored { kind } => parts!("ignored type ", Hex(*kind)).append_to(out),
        _ => unreachable!(),
    }
}

/// Appends the line of injected bytes, or of what comes of them.
#[inline(never)]
fn append_raw(entry: &Entry, hex: bool, out: &mut String) -> Result<(), OutOfMemory>
    requires { is_raw entry.now ≡ true }
    ensures { (line : ℕ) → OnOk result
        (string_bytes out.new ≡ string_bytes out.old ++ entry_line line hex entry.now) }
{
    match entry {
        Entry::Raw {
            from,
            to,
            size,
            bytes,
        } => {
            let way = Way(*from, *to);
            let size = Size {
                hex,
                size: *size,
                bytes,
            };
            parts!("raw", way, " size ", size).append_to(out)
        }
        Entry::BadRaw { fault } => parts!("bad raw ", fault).append_to(out),
        Entry::LateLabel { label } => parts!("late label ", label).append_to(out),
        Entry::UnknownLabel { label } => parts!("unknown label ", label).append_to(out),
        _ => unreachable!(),
    }
}

/// Appends the line of an interface or a connection.
fn append_link(entry: &Entry, out: &mut String) -> Result<(), OutOfMemory>
    requires { is_link entry.now ≡ true }
    ensures { (line : ℕ) (hex : Bool) → OnOk result
        (string_bytes out.new ≡ string_bytes out.old ++ entry_line line hex entry.now) }
{
    match entry {
        Entry::Interface { intf, stage } => {
            parts!("interface ", intf, " ", stage_name(*stage)).append_to(out)
        }
        Entry::Manifest { intf, at, reason } => {
            parts!(
                "manifest ",
                intf,
                " refused ",
                at,
                " ",
                reason_name(*reason)
            )
            .append_to(out)
        }
        Entry::Connection {
            number,
            ap,
            intf,
            cport,
            state,
        } => {
            let state = state_name(*state);
            parts!(
                "connection ",
                number,
                " ap ",
                ap,
                " ",
                intf,
                " ",
                cport,
                " ",
                state
            )
            .append_to(out)
        }
        _ => unreachable!(),
    }
}

/// Appends the line of what a device told.
#[inline(never)]
fn append_device(entry: &Entry, out: &mut String) -> Result<(), OutOfMemory>
    requires { is_device entry.now ≡ true }
    ensures text { (line : ℕ) (hex : Bool) → OnOk result
        (string_bytes out.new ≡ string_bytes out.old ++ entry_line line hex entry.now) }
    ensures ascii { OnOk result ((word : List ℕ) → IsWordOf word entry.now → IsAscii word) }
{
    match entry {
        Entry::Irq { intf, cport, line } => {
            parts!("irq ", intf, " ", cport, " ", line).append_to(out)
        }
        Entry::Received { intf, cport, bytes } => {
            parts!(
                "uart ",
                intf,
                " ",
                cport,
                " received ",
                Digits(bytes.items())
            )
            .append_to(out)
        }
        Entry::Serial {
            intf,
            cport,
            control,
        } => parts!("serial ", intf, " ", cport, " ", control).append_to(out),
        Entry::Credits { intf, cport, total } => {
            parts!("credits ", intf, " ", cport, " ", total).append_to(out)
        }
        Entry::Download {
            intf,
            cport,
            tag,
            size,
        } => {
            let how = Downloaded(*size);
            parts!("download ", intf, " ", cport, " ", tag.text(), " ", how).append_to(out)
        }
        _ => unreachable!(),
    }
}
