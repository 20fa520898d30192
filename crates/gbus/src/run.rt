//! The program as a function from words, a source and a sink to a status.

ghost use Rattle.std.specs.Prelude.{◌≡◌, ◌↔◌, None, map, true, false};
ghost use Rattle.std.specs.String.{string_bytes};
ghost use Rattle.std.specs.Io.KnownBytes.{IsAtEnd};
ghost use Rattle.gb_base.specs.Faults.{Rose};
ghost use Rattle.gbus.specs.Program.{IsVerdict, is_by_line, job_of, reads};
ghost use Rattle.gbus.specs.Runs.{IfByLine, IsAnswered, IsComplete, IsCutOff, IsOfRun, IsRefusedAt};
ghost use Rattle.gbus.specs.Runs.{IsWithin, KeepsHeadline, StopsAs, StopsAtLimit};

use crate::answer::answer_for;
use crate::input::InputStop;
use crate::line_worker::work_by_line;
use crate::output::write_all;
use crate::status::status_of;
use crate::words::{Job, job_of};
use gb_base::{Gate, Sink, Source, Status, WriteStop};
use std::alloc::Global;
use std::thread::Threads;

/// Runs the program: reads the source where the words ask for something of it, does what they ask
/// for, and writes to the sink.
///
/// `share` reads the whole input first. A bad line is told alone, and nothing is run then. Else
/// requester 0's lines are run, and then those of the others at once, each requester in a thread of
/// its own, which calls `gate` before each line and behind the last. What is written begins with
/// the order in which the lines were run, and ends with the names that name requests then. No
/// clause speaks of `gate`, which is called for `share` alone.
pub fn run<R: Threads + Sync, S: Source, K: Sink, G: Gate>(
    rt: &R,
    alloc: Global,
    words: &[String],
    source: &mut S,
    sink: &mut K,
    gate: &G,
) -> Status
    // Usage comes exactly where the words are none of the program's. Nothing is read
    // or written then.
    ensures usage { (result ≡ Status.Usage) ↔ (job_of (map string_bytes words.now) ≡ None) }
    ensures untouched { result ≡ Status.Usage → (source.new ≡ source.old) × (sink.new ≡ sink.old) }

    // Success, Refused and TooLong are the verdict on the input, and the whole output was written.
    // That of `share` tells an order of the lines in which each requester's are in turn, and what
    // the machine reports of them in that order. At Refused it is the refusal of the first bad line
    // alone, and at TooLong it is nothing.
    ensures answered { IsVerdict result → IsAnswered (job_of (map string_bytes words.now))
        (S.left source.old) (K.taken sink.old) (K.taken sink.new) result }
    ensures at_end { reads (job_of (map string_bytes words.now)) ≡ true
        → result ≡ Status.Success → IsAtEnd (S.left source.new) }

    // Whatever the words and the status are, at most 4,096 bytes were read past as many as an input
    // may have.
    ensures limit { StopsAtLimit (S.left source.old) (S.left source.new) }

    // Nothing is read where the words ask for nothing of the input.
    ensures kept { reads (job_of (map string_bytes words.now)) ≡ false → source.new ≡ source.old }

    // Whatever the status is, nothing but a front of the output was written: with `share` nothing,
    // or a front of an output for such an order.
    ensures prefix { IsWithin (job_of (map string_bytes words.now)) (S.left source.old)
        (K.taken sink.old) (K.taken sink.new) }

    // A fault comes only where the count of the source or of the sink rose.
    ensures read { result ≡ Status.ReadFault → Rose (S.faults source.old) (S.faults source.new) }
    ensures unread { result ≡ Status.ReadFault
        → is_by_line (job_of (map string_bytes words.now)) ≡ false → sink.new ≡ sink.old }
    ensures write { result ≡ Status.WriteFault → Rose (K.faults sink.old) (K.faults sink.new) }

    // A script is run line by line. At ReadFault the report of the lines that ended within the
    // bytes read was written, and none of these is bad. At WriteFault at most 4,096 bytes were read
    // past the first line whose report wasn't wholly taken, and at Refused past the bad line.
    ensures cut_off { result ≡ Status.ReadFault → IfByLine (job_of (map string_bytes words.now))
        (λ j. IsCutOff j (S.left source.old) (S.left source.new) (K.taken sink.old)
        (K.taken sink.new)) }
    ensures stops_short { result ≡ Status.WriteFault
        → IfByLine (job_of (map string_bytes words.now)) (λ j. StopsAs j (S.left source.old)
        (S.left source.new) (K.taken sink.old) (K.taken sink.new)) }
    ensures refused_at { result ≡ Status.Refused → IfByLine (job_of (map string_bytes words.now))
        (λ j. IsRefusedAt j (S.left source.old) (S.left source.new)) }

    // Where no count rose, the status is the verdict, unless memory is wanting.
    ensures complete { IsComplete (job_of (map string_bytes words.now)) (S.left source.old)
        (S.faults source.old) (S.faults source.new) (K.faults sink.old) (K.faults sink.new) result }

    // The report of a script is the text of the trace of its events, a run of valid ones, so that
    // each law of runs speaks of it. So it is of the summary of a made script, and with `share` of
    // the lines in every order.
    ensures traced { IsOfRun (job_of (map string_bytes words.now)) }

    // Of these events, whatever the script is and in whichever order `share` runs its lines: on
    // connections without injected bytes an answer goes by the number of its request, and never by
    // an identifier, and is its own responder's. Each request ends at most once, so or by a
    // cancellation, a timeout or a disconnection that came. Once a removal is handled nothing on
    // that interface is open. No CPort handles a message of another connection.
    ensures headline { KeepsHeadline (job_of (map string_bytes words.now)) }
{
    let Some(job) = job_of(words) else {
        return Status::Usage;
    };
    let task = match job {
        Job::ByLine(job) => return status_of(work_by_line(alloc, job, source, sink)),
        Job::Task(task) => task,
    };
    let answer = match answer_for(rt, alloc, task, source, gate) {
        Ok(answer) => answer,
        Err(InputStop::Failed) => return Status::ReadFault,
        Err(InputStop::Memory(refused)) => return status_of(Err(refused)),
    };
    match write_all(sink, answer.output.items()) {
        Ok(()) => answer.status,
        Err(WriteStop::Failed) => Status::WriteFault,
        Err(WriteStop::Memory(refused)) => status_of(Err(refused)),
    }
}
