//! What the program writes for an input as a whole, and how it ends.

ghost use Rattle.std.specs.Prelude.{◌≡◌, ◌≤◌, IfOk, Some, true, false};
ghost use Rattle.std.specs.Io.KnownBytes.{IsAtEnd};
ghost use Rattle.gbus.specs.Answers.{bytes_in, input_status, input_text};
ghost use Rattle.gbus.specs.Jobs.{task_seed, task_seen, whole_job_seen};
ghost use Rattle.gbus.specs.Program.{IsVerdict, reads, whole_text, whole_verdict};
ghost use Rattle.gbus.specs.Runs.{FailsAs, IsAnswerOf, StopsAtLimit};

use crate::drive::drive;
use crate::input::{Input, InputStop, read_all};
use crate::manifests::{checked, compiled, decompiled};
use crate::share::share_input;
use crate::words::{Task, WholeJob};
use gb_base::{Bytes, Gate, OutOfMemory, Source, Status, Text};
use std::alloc::Global;
use std::thread::Threads;

/// What is written, and how the program ends where all of it is.
#[derive(Drop)]
pub struct Answer {
    /// What is written.
    pub output: Output,
    /// Success, Refused or TooLong.
    pub status: Status,
}

/// What is written.
#[derive(Drop)]
pub enum Output {
    /// A text.
    Text(Text),
    /// A text with the report of a script.
    Report(String),
    /// Bytes of a manifest.
    Bytes(Bytes),
}

impl Output {
    /// The bytes that are written.
    pub fn items(&self) -> &[u8]
        ensures { result.now ≡ bytes_in self.now }
    {
        match self {
            Output::Text(text) => text.items(),
            Output::Report(text) => text.as_bytes(),
            Output::Bytes(bytes) => bytes.items(),
        }
    }
}

/// What is written for a task. The source is read to its end, or until too many bytes came, where
/// the task is one that reads. `gate` is what requesters call before each line that they run in a
/// thread of their own.
pub fn answer_for<R: Threads + Sync, S: Source, G: Gate>(
    rt: &R,
    alloc: Global,
    task: Task,
    source: &mut S,
    gate: &G,
) -> Result<Answer, InputStop>
    requires { task_seed task ≤ 2147483647 }
    ensures answer { IfOk result (IsAnswerOf (task_seen task) (S.left source.old)) }
    ensures verdict { IfOk result (λ a. IsVerdict a.status) }
    ensures at_end { reads (Some (task_seen task)) ≡ true
        → IfOk result (λ a. a.status ≡ Status.Success → IsAtEnd (S.left source.new)) }
    ensures limit { StopsAtLimit (S.left source.old) (S.left source.new) }
    ensures kept { reads (Some (task_seen task)) ≡ false → source.new ≡ source.old }
    ensures fault { FailsAs (S.faults source.old) (S.faults source.new) result }
{
    match task {
        Task::Whole(job) => {
            let input = read_all(alloc, source)?;
            let answer = whole_answer(alloc, &input, job)?;
            Ok(answer)
        }
        Task::Share { hex } => {
            let input = read_all(alloc, source)?;
            let answer = share_input(rt, alloc, &input, hex, gate)?;
            Ok(answer)
        }
        Task::Drive { seed } => {
            let answer = drive(alloc, seed)?;
            Ok(answer)
        }
    }
}

/// What is written of an input as a whole: nothing where it is too long.
fn whole_answer(alloc: Global, input: &Input, job: WholeJob) -> Result<Answer, OutOfMemory>
    ensures text { IfOk result (λ a.
        bytes_in a.output ≡ input_text (whole_job_seen job) input.now) }
    ensures status { IfOk result (λ a. a.status ≡ input_status (whole_job_seen job) input.now) }
{
    match input {
        Input::Whole(bytes) => answer_of(alloc, bytes.as_slice(), job),
        Input::TooLong(_) => Ok(Answer {
            output: Output::Text(Text::new(alloc)),
            status: Status::TooLong,
        }),
    }
}

/// What is written of an input that isn't too long.
fn answer_of(alloc: Global, bytes: &[u8], job: WholeJob) -> Result<Answer, OutOfMemory>
    ensures text { IfOk result (λ a.
        bytes_in a.output ≡ whole_text (whole_job_seen job) bytes.now) }
    ensures status { IfOk result (λ a. a.status ≡ whole_verdict (whole_job_seen job) bytes.now) }
{
    match job {
        WholeJob::Check { dump } => checked(alloc, bytes, dump),
        WholeJob::Compile => compiled(alloc, bytes),
        WholeJob::Decompile => decompiled(alloc, bytes),
    }
}
