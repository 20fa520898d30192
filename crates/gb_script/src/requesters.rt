//! Reads the lines of a script with requesters.

ghost use Rattle.std.specs.Prelude.{◌≡◌, ◌≤◌, ℕ, [], ◌∷◌, IfOk, MatchOption, false, true, length};
ghost use Rattle.gb_formats.specs.Lines.{longest_input};
ghost use Rattle.gb_formats.specs.Parts.{heading, is_heading, part_of, parts};
ghost use Rattle.gb_formats.specs.Words.{words};
ghost use Rattle.gb_script.specs.PartLines.{AreRising, AreValidLines, TellsHeading, TellsPart};

use crate::LineFault;
use crate::forms::event;
use crate::lines::first_line;
use crate::plain_line::plain_line;
use crate::values::number_word;
use crate::words::{first_word, is};
use gb_base::{Asked, Event, LineReason, OutOfMemory, Parts, Sequence};
use std::alloc::Global;

/// How many requesters a script may have, besides requester 0.
const MOST: u8 = 8;

/// What a line is to a script with requesters.
#[derive(Drop)]
enum Part {
    /// It is blank or a comment.
    Nothing,
    /// It is the heading of a requester.
    Heading(u8),
    /// It is an event.
    Asks(Event),
}

/// The lines of requesters that were read.
#[derive(Drop)]
struct Requesters {
    alloc: Global,
    asked: Sequence<Asked>,
    /// Whose lines follow.
    who: u8,
    ghost small: { who ≤ 8 },
}

impl Requesters {
    ghost use Rattle.gb_script.specs.PartLines.{TakesAs};

    /// Takes the next line, which has this number.
    fn take(&mut self, number: u32, line: &[u8]) -> Result<(), LineFault>
        ensures { TakesAs number self.old.who line.now self.old.asked self.new.asked self.new.who
            result }
    {
        match line_part(self.alloc, line, self.who)? {
            Part::Nothing => Ok(()),
            Part::Heading(next) => {
                self.who = next;
                Ok(())
            }
            Part::Asks(event) => {
                self.asked.push(Asked {
                    line: number,
                    who: self.who,
                    event,
                })?;
                Ok(())
            }
        }
    }

    /// These lines, up to a bad line where there is one.
    fn up_to(self, bad: Option<(u32, LineReason)>) -> Parts
        ensures { result ≡ record { asked = self.asked; bad = bad } }
    {
        let Requesters {
            alloc: _,
            asked,
            who: _,
        } = self;
        Parts { asked, bad }
    }
}

/// The lines of a script with requesters that are events, up to the first bad line.
///
/// Lines in front of the first heading are requester 0's. A heading is the word `requester` and a
/// number; these rise by one from 1, and are at most 8.
pub fn parts(alloc: Global, text: &[u8]) -> Result<Parts, OutOfMemory>
    requires within { length text.now ≤ longest_input }
    ensures parts { IfOk result (λ p. p ≡ parts text.now) }
    ensures valid { IfOk result (λ p. AreValidLines p.asked) }
    ensures rising { IfOk result (λ p. AreRising 0 p.asked) }
{
    let mut read = Requesters {
        alloc,
        asked: Sequence::new(alloc),
        who: 0,
    };
    let mut number = 1;
    let mut rest = text;
    while let Some((line, behind)) = first_line(rest) {
        match read.take(number, line) {
            Ok(()) => {}
            Err(LineFault::Bad(why)) => return Ok(read.up_to(Some((number, why)))),
            Err(LineFault::Memory(refused)) => return Err(refused),
        }
        number += 1;
        rest = behind;
    }
    Ok(read.up_to(None))
}

/// What a line is behind lines of requester `who`.
fn line_part(alloc: Global, line: &[u8], who: u8) -> Result<Part, LineFault>
    requires { who ≤ 8 }
    ensures { TellsPart result (part_of who line.now) }
{
    if let Some(rest) = behind_heading(line) {
        plain_line(line)?;
        return Ok(Part::Heading(heading(rest, who)?));
    }
    match event(alloc, line, who)? {
        Some(event) => Ok(Part::Asks(event)),
        None => Ok(Part::Nothing),
    }
}

/// What is behind the first word of a line, where that is `requester`.
fn behind_heading(line: &[u8]) -> Option<&[u8]>
    ensures { MatchOption result (is_heading (words line.now) ≡ false)
        (λ rest. (is_heading (words line.now) ≡ true)
        × ((who : ℕ) → heading who (words line.now) ≡ heading who ([] ∷ words rest.now))) }
{
    let (word, rest) = first_word(line)?;
    is(word, "requester").then_some(rest)
}

/// The requester that a heading behind lines of requester `who` names, by the words behind its
/// first one.
fn heading(rest: &[u8], who: u8) -> Result<u8, LineReason>
    requires { who ≤ 8 }
    ensures { TellsHeading result (heading who ([] ∷ words rest.now)) }
{
    let Some((word, rest)) = first_word(rest) else {
        return Err(LineReason::MissingWord(2));
    };
    let next = who + 1;
    if next > MOST || number_word(word, u32::from(next), u32::from(next)).is_none() {
        return Err(LineReason::BadWord(2));
    }
    match first_word(rest) {
        Some(_) => Err(LineReason::ExtraWord(3)),
        None => Ok(next),
    }
}
