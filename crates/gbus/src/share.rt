//! Runs a script by its requesters.

ghost use Rattle.std.specs.Prelude.{◌≡◌, ◌≤◌, IfOk, is_some, length};
ghost use Rattle.gb_formats.specs.Lines.{ended_lines, longest_input};
ghost use Rattle.gb_formats.specs.Parts.{parts};
ghost use Rattle.gb_formats.specs.Texts.{refusal_line_text};
ghost use Rattle.gbus.specs.Answers.{SharesInput, bytes_in, shared_status};
ghost use Rattle.gbus.specs.Program.{Shares, lines_status};
ghost use Rattle.gbus.specs.Reading.{kept_of};

use crate::answer::{Answer, Output};
use crate::input::Input;
use gb_base::{Gate, LineReason, OutOfMemory, Parts, Status};
use gb_report::append_refusal;
use gb_script::parts;
use gb_share::shared_text;
use std::alloc::Global;
use std::thread::Threads;

/// What is written of an input whose lines are run by their requesters. Where it is too long they
/// aren't run, and a bad one is looked for among those that end within the limit.
pub fn share_input<R: Threads + Sync, G: Gate>(
    rt: &R,
    alloc: Global,
    input: &Input,
    hex: bool,
    gate: &G,
) -> Result<Answer, OutOfMemory>
    requires short { length (kept_of input.now) ≤ 1048576 }
    ensures text { IfOk result (λ a. SharesInput hex input.now (bytes_in a.output)) }
    ensures status { IfOk result (λ a. a.status ≡ shared_status input.now) }
{
    match input {
        Input::Whole(bytes) => share(rt, alloc, bytes.as_slice(), false, hex, gate),
        Input::TooLong(front) => share(
            rt,
            alloc,
            lines_that_end(front.as_slice()),
            true,
            hex,
            gate,
        ),
    }
}

/// What is written of these lines: the bad one alone, where one is bad; else nothing, where they
/// come from an input that is too long; else they are run by their requesters.
fn share<R: Threads + Sync, G: Gate>(
    rt: &R,
    alloc: Global,
    text: &[u8],
    too_long: bool,
    hex: bool,
    gate: &G,
) -> Result<Answer, OutOfMemory>
    requires short { length text.now ≤ longest_input }
    ensures text { IfOk result (λ a. Shares hex (parts text.now) too_long (bytes_in a.output)) }
    ensures status { IfOk result (λ a.
        a.status ≡ lines_status (is_some (parts text.now).bad) too_long) }
{
    let Parts { asked, bad } = parts(alloc, text)?;
    if let Some((line, why)) = bad {
        return refusal(alloc, line, &why);
    }
    if too_long {
        return Ok(Answer {
            output: Output::Report(String::new(alloc)),
            status: Status::TooLong,
        });
    }
    let written = shared_text(rt, alloc, asked, hex, gate)?;
    Ok(Answer {
        output: Output::Report(written),
        status: Status::Success,
    })
}

/// The line that names a bad line is written, and the input is refused.
fn refusal(alloc: Global, line: u32, why: &LineReason) -> Result<Answer, OutOfMemory>
    ensures text { IfOk result (λ a. bytes_in a.output ≡ refusal_line_text line why.now) }
    ensures status { IfOk result (λ a. a.status ≡ Status.Refused) }
{
    let mut text = String::new(alloc);
    append_refusal(line, why, &mut text)?;
    Ok(Answer {
        output: Output::Report(text),
        status: Status::Refused,
    })
}

/// The lines of a text that end with LF: all up to the last LF.
fn lines_that_end(text: &[u8]) -> &[u8]
    ensures { result.now ≡ ended_lines text.now }
{
    let mut rest = text;
    while let Some((last, front)) = rest.split_last() {
        if *last == b'\n' {
            return rest;
        }
        rest = front;
    }
    rest
}
