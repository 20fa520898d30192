//! Takes an input line by line.

ghost use Rattle.std.specs.Prelude.{◌≡◌, ◌+◌, ◌≤◌, ℕ, List, [], ◌∷◌, ◌++◌, Bool, false, Option};
ghost use Rattle.std.specs.Prelude.{Some, None, IfSome, IfOk, IfErr, OnOk};
ghost use Rattle.gb_script.specs.Readers.{Lends, Reads, holds_line, number_of, stopped};
ghost use Rattle.gbus.specs.Endings.{HasCause, status_of};
ghost use Rattle.gbus.specs.Jobs.{line_job_seen};
ghost use Rattle.gbus.specs.Program.{LineJob as Seen, lines_text};
ghost use Rattle.gbus.specs.Runs.{FaultRose, IsFrontOfOutput, LinesEnd, StopsAtLimit};
ghost use Rattle.gbus.specs.Sessions.{IsBehind, ending_of, lines_taken};
ghost use Rattle.gbus.specs.Stages.{fault_status};

use crate::gathered::Gathered;
use crate::output::write_all;
use crate::session::Session;
use crate::status::Ended;
use crate::words::LineJob;
use gb_base::{OutOfMemory, Sink, Source, Status, WriteStop};
use gb_capture::Turn;
use gb_script::{LineReader, LineStop};
use std::alloc::Global;

/// The lines of an input, as they are read, taken and written.
#[derive(Drop)]
pub struct LineWorker {
    reader: LineReader,
    session: Session,
    /// What is to be written of lines that were taken, as far as it isn't written.
    gathered: Gathered,
}

impl LineWorker {
    ghost use Rattle.gbus.specs.Stages.{Gathers, IsAtLast, IsLeft, Stage, TurnsOut, WritesOn};

    /// Before the first line.
    fn new(alloc: Global, job: LineJob) -> Result<LineWorker, OutOfMemory>
        ensures { IfOk result (λ x. (left : Option (List ℕ)) → (taken : Option (List ℕ))
            → Stage x (line_job_seen job) left left taken taken) }
    {
        Ok(LineWorker {
            reader: LineReader::new(alloc)?,
            session: Session::new(alloc, job)?,
            gathered: Gathered::new(alloc),
        })
    }

    /// Writes what was gathered where the source is read next, or where it is much.
    fn write_before_read<K: Sink>(&mut self, sink: &mut K) -> Result<(), Ended>
        ensures stage { (j : Seen) → (left : Option (List ℕ)) → (now : Option (List ℕ))
            → (taken : Option (List ℕ)) → Stage self.old j left now taken (K.taken sink.old)
            → WritesOn self.new j left now taken (K.taken sink.new) result }
        ensures empty { OnOk result (holds_line self.new.reader ≡ false
            → self.new.gathered ≡ []) }
        ensures reader { self.new.reader ≡ self.old.reader }
        ensures writes { K.faults sink.old ≤ K.faults sink.new }
        ensures faults { IfErr result (λ e.
            FaultRose 0 0 (K.faults sink.old) (K.faults sink.new) (status_of e)) }
        ensures cause { IfErr result HasCause }
    {
        if self.reader.has_line() && !self.gathered.is_full() {
            return Ok(());
        }
        match self.gathered.write(sink) {
            Ok(()) => Ok(()),
            Err(stop) => Err(ended_at(stop)),
        }
    }

    /// Reads the next line and takes it. None where the next one may be read, else how it ends once
    /// what was gathered is written, and what stands behind all lines.
    fn turn<S: Source>(&mut self, source: &mut S) -> Option<Ended>
        requires { number_of self.old.reader ≡ lines_taken self.old.session }
        ensures turns { (j : Seen) → (left : Option (List ℕ)) → (taken : Option (List ℕ))
            → (after : Option (List ℕ)) → Stage self.old j left (S.left source.old) taken after
            → (holds_line self.old.reader ≡ false → self.old.gathered ≡ [])
            → TurnsOut self.new j left (S.left source.new) taken after result }
        ensures counts { result ≡ None
            → ((number_of self.new.reader ≡ number_of self.old.reader + 1)
            × (number_of self.new.reader ≤ 1048576)) }
        ensures limit { (left : Option (List ℕ)) → (given : List (List ℕ))
            → Reads self.old.reader left (S.left source.old) given
            → StopsAtLimit left (S.left source.new) }
        ensures reads { S.faults source.old ≤ S.faults source.new }
        ensures faults { stopped self.old.reader ≡ None
            → IfSome result (λ e.
            FaultRose (S.faults source.old) (S.faults source.new) 0 0 (status_of e)) }
        ensures cause { IfSome result HasCause }
    {
        match self.reader.next(source) {
            Ok(true) => self.take_line(),
            Ok(false) => match self.session.close() {
                Ok(()) => Some(Ok(Status::Success)),
                Err(refused) => Some(Err(refused)),
            },
            Err(LineStop::ReadFault) => Some(Ok(Status::ReadFault)),
            Err(LineStop::TooLong) => Some(Ok(Status::TooLong)),
        }
    }

    /// Takes the line that was read, and gathers what is to be written of it.
    fn take_line(&mut self) -> Option<Ended>
        requires { number_of self.old.reader ≡ lines_taken self.old.session + 1 }
        ensures turns { (j : Seen) → (left : Option (List ℕ)) → (now : Option (List ℕ))
            → (taken : Option (List ℕ)) → (after : Option (List ℕ)) → (given : List (List ℕ))
            → (line : List ℕ) → IsBehind self.old.session j given
            → Gathers j left now taken after self.old.gathered (lines_text j given)
            → Lends self.old.reader line → Reads self.old.reader left now (given ++ line ∷ [])
            → TurnsOut self.new j left now taken after result }
        ensures same { self.new.reader ≡ self.old.reader }
        ensures faults { IfSome result (λ e. FaultRose 0 0 0 0 (status_of e)) }
        ensures cause { IfSome result HasCause }
    {
        let turn = match self.session.take(self.reader.line()) {
            Ok(turn) => turn,
            Err(refused) => return Some(Err(refused)),
        };
        if let Err(refused) = self.gathered.add(self.session.text()) {
            return Some(Err(refused));
        }
        match turn {
            Turn::Next => None,
            Turn::Refused => Some(Ok(Status::Refused)),
        }
    }

    /// Writes what was gathered and what stands behind all lines, and answers how it ends: so, or
    /// by a fault of writing.
    fn end<K: Sink>(&mut self, sink: &mut K, ended: Ended) -> Ended
        requires cause { HasCause ended }
        ensures ends { (j : Seen) → (left : Option (List ℕ)) → (now : Option (List ℕ))
            → (taken : Option (List ℕ))
            → IsAtLast self.old j left now taken (K.taken sink.old) (status_of ended)
            → LinesEnd j left now taken (K.taken sink.new) (status_of result)
            × IsFrontOfOutput j left taken (K.taken sink.new) }
        ensures writes { K.faults sink.old ≤ K.faults sink.new }
        ensures faults { (reads : ℕ) → (reads_after : ℕ)
            → FaultRose reads reads_after 0 0 (status_of ended)
            → FaultRose reads reads_after (K.faults sink.old) (K.faults sink.new)
            (status_of result) }
        ensures cause { HasCause result }
    {
        match self.gathered.write(sink) {
            Ok(()) => self.write_ending(sink, ended),
            Err(stop) => ended_at(stop),
        }
    }

    /// Writes what stands behind all lines, where the input ends so.
    fn write_ending<K: Sink>(&self, sink: &mut K, ended: Ended) -> Ended
        requires cause { HasCause ended }
        ensures ends { (j : Seen) → (left : Option (List ℕ)) → (now : Option (List ℕ))
            → (taken : Option (List ℕ))
            → IsLeft self.now.session j left now taken (K.taken sink.old) (status_of ended)
            → LinesEnd j left now taken (K.taken sink.new) (status_of result)
            × IsFrontOfOutput j left taken (K.taken sink.new) }
        ensures writes { K.faults sink.old ≤ K.faults sink.new }
        ensures faults { (reads : ℕ) → (reads_after : ℕ)
            → FaultRose reads reads_after 0 0 (status_of ended)
            → FaultRose reads reads_after (K.faults sink.old) (K.faults sink.new)
            (status_of result) }
        ensures cause { HasCause result }
    {
        match write_all(sink, self.ending(ended)) {
            Ok(()) => ended,
            Err(stop) => ended_at(stop),
        }
    }

    /// What stands behind all lines, where the input ends so.
    fn ending(&self, ended: Ended) -> &[u8]
        ensures { result.now ≡ ending_of (status_of ended) self.now.session }
    {
        let Ok(status) = ended else {
            return &[];
        };
        match status {
            Status::Success => self.session.text(),
            _ => &[],
        }
    }
}

/// How it ends where a write stopped.
fn ended_at(stop: WriteStop) -> Ended
    ensures status { status_of result ≡ fault_status stop }
    ensures cause { HasCause result }
{
    match stop {
        WriteStop::Failed => Ok(Status::WriteFault),
        WriteStop::Memory(refused) => Err(refused),
    }
}

/// Takes an input line by line. Where a write fails, or a line is bad, at most 4,096 bytes past
/// that line were read.
pub fn work_by_line<S: Source, K: Sink>(
    alloc: Global,
    job: LineJob,
    source: &mut S,
    sink: &mut K,
) -> Ended
    ensures ends { LinesEnd (line_job_seen job) (S.left source.old) (S.left source.new)
        (K.taken sink.old) (K.taken sink.new) (status_of result) }
    ensures prefix { IsFrontOfOutput (line_job_seen job) (S.left source.old) (K.taken sink.old)
        (K.taken sink.new) }
    ensures limit { StopsAtLimit (S.left source.old) (S.left source.new) }
    ensures faults { FaultRose (S.faults source.old) (S.faults source.new) (K.faults sink.old)
        (K.faults sink.new) (status_of result) }
    ensures cause { HasCause result }
{
    let mut worker = match LineWorker::new(alloc, job) {
        Ok(worker) => worker,
        Err(refused) => return Err(refused),
    };
    loop {
        if let Err(ended) = worker.write_before_read(sink) {
            return ended;
        }
        if let Some(ended) = worker.turn(source) {
            return worker.end(sink, ended);
        }
    }
}
