//! The lines of `show`, each without its end.

ghost use Rattle.std.specs.Prelude.{◌≡◌, IfOk, IsAscii, option_copied};
ghost use Rattle.gb_formats.specs.ShowTexts.{
  connection_line,
  interface_line,
  name_line,
  now_line,
  queue_line,
  unclean_text,
};

use crate::digits::Hex;
use crate::lines::line_of;
use crate::names::{stage_name, state_name};
use crate::part::{Part, parts};
use gb_base::{ConnState, End, IntfStage, Name, OutOfMemory, Outcome, Text};
use std::alloc::Global;

/// A device id, shown behind the interface that has it.
#[derive(Clone, Copy)]
struct Device(Option<u8>);

impl Part for Device {
    ghost use Rattle.gb_formats.specs.ShowTexts.{device_text};

    ghost text = { λ d. device_text d.0 };

    fn append_to(&self, line: &mut String) -> Result<(), OutOfMemory> {
        match self.0 {
            None => Ok(()),
            Some(id) => parts!(" device ", id).append_to(line),
        }
    }
}

/// A requester, shown in front of a name that isn't that of requester 0.
#[derive(Clone, Copy)]
struct Requester(u8);

impl Part for Requester {
    ghost use Rattle.gb_formats.specs.ShowTexts.{requester_text};

    ghost text = { λ r. requester_text r.0 };

    fn append_to(&self, line: &mut String) -> Result<(), OutOfMemory> {
        let who = self.0;
        if who == 0 {
            Ok(())
        } else {
            parts!(who, " ").append_to(line)
        }
    }
}

/// How a request stands, without the payload of its answer, and as `open` where it hasn't ended.
#[derive(Clone, Copy)]
pub struct Standing<'a>(pub Option<&'a Outcome>);

impl<'a> Part for Standing<'a> {
    ghost use Rattle.std.specs.Prelude.{option_copied};
    ghost use Rattle.gb_formats.specs.ShowTexts.{standing_text};

    ghost text = { λ s. standing_text (option_copied s.0) };

    fn append_to(&self, line: &mut String) -> Result<(), OutOfMemory> {
        match self.0 {
            None => "open".append_to(line),
            Some(Outcome::Answered { result: code, .. }) => {
                parts!("answered ", Hex(*code)).append_to(line)
            }
            Some(Outcome::Cancelled) => "cancelled".append_to(line),
            Some(Outcome::Timeout) => "timeout".append_to(line),
            Some(Outcome::Disconnected) => "disconnected".append_to(line),
            Some(Outcome::Sent) => "sent".append_to(line),
        }
    }
}

/// The time in milliseconds.
pub fn now_line(alloc: Global, now: u64) -> Result<Text, OutOfMemory>
    ensures { IfOk result (λ t. t ≡ now_line now) }
{
    let line = line_of(alloc, &parts!("now ", now))?;
    text_of(alloc, &line)
}

/// An interface, with its device id where it has one.
pub fn interface_line(
    alloc: Global,
    intf: u8,
    stage: IntfStage,
    device: Option<u8>,
) -> Result<Text, OutOfMemory>
    ensures { IfOk result (λ t. t ≡ interface_line intf stage device) }
{
    let (stage, device) = (stage_name(stage), Device(device));
    let line = line_of(alloc, &parts!("interface ", intf, " ", stage, device))?;
    text_of(alloc, &line)
}

/// A connection: its number, the CPort of the application processor and the far end. It is clean
/// where no bytes were injected.
pub fn connection_line(
    alloc: Global,
    number: u64,
    ap: u16,
    peer: End,
    protocol: u8,
    state: ConnState,
    clean: bool,
) -> Result<Text, OutOfMemory>
    ensures { IfOk result (λ t. t ≡ connection_line number ap peer protocol state clean) }
{
    let protocol = Hex(protocol);
    let (state, unclean) = (state_name(state), unclean_mark(clean));
    let line = line_of(
        alloc,
        &parts!(
            "connection ",
            number,
            " ap ",
            ap,
            peer,
            " protocol ",
            protocol,
            " ",
            state,
            unclean
        ),
    )?;
    text_of(alloc, &line)
}

/// An end, and how many messages wait there.
pub fn queue_line(alloc: Global, at: End, count: u64) -> Result<Text, OutOfMemory>
    ensures { IfOk result (λ t. t ≡ queue_line at count) }
{
    let line = line_of(alloc, &parts!("queue", at, " ", count))?;
    text_of(alloc, &line)
}

/// A name, the number of its request, and how that ended, None where it is open.
pub fn name_line(
    alloc: Global,
    name: &Name,
    number: u64,
    how: Option<&Outcome>,
) -> Result<Text, OutOfMemory>
    ensures { IfOk result (λ t. t ≡ name_line name.now number (option_copied how.entry)) }
{
    let (requester, word) = (Requester(name.who), name.word.text());
    let line = line_of(
        alloc,
        &parts!(
            "name ",
            requester,
            "@",
            word,
            " #",
            number,
            " ",
            Standing(how)
        ),
    )?;
    text_of(alloc, &line)
}

/// What is behind a connection on which bytes were injected.
fn unclean_mark(clean: bool) -> &'static str
    ensures { result.now ≡ unclean_text clean }
{
    if clean { "" } else { " unclean" }
}

/// A line as a text of the report.
fn text_of(alloc: Global, line: &str) -> Result<Text, OutOfMemory>
    requires { IsAscii line.now }
    ensures { IfOk result (λ t. t ≡ line.now) }
{
    let mut text = Text::new(alloc);
    text.append(line)?;
    Ok(text)
}
