//! The program over a source and a sink that never fail.

ghost use Rattle.std.specs.Prelude.{◌≡◌, ◌↔◌, None, Some, map, true};
ghost use Rattle.std.specs.String.{string_bytes};
ghost use Rattle.std.specs.Io.KnownBytes.{IsAtEnd};
ghost use Rattle.gbus.specs.Program.{IsVerdict, job_of, reads};
ghost use Rattle.gbus.specs.Runs.{EndsWell, IsAnswered, IsWithin};

use crate::run::run;
use gb_base::{Gate, PlainSink, PlainSource, Status};
use std::alloc::Global;
use std::thread::Threads;

/// Runs the program as `run` does, where nothing but memory can be wanting.
pub fn run_plain<R: Threads + Sync, G: Gate>(
    rt: &R,
    alloc: Global,
    words: &[String],
    source: &mut PlainSource,
    sink: &mut PlainSink,
    gate: &G,
) -> Status
    // Neither the reading nor the writing fails.
    ensures reads { result ≡ Status.ReadFault → ⊥ }
    ensures writes { result ≡ Status.WriteFault → ⊥ }

    // Where the words are the program's, the status is the verdict on the input, unless
    // memory is wanting.
    ensures usage { (result ≡ Status.Usage) ↔ (job_of (map string_bytes words.now) ≡ None) }
    ensures complete { EndsWell (job_of (map string_bytes words.now)) source.old result }

    // At a verdict the whole output was written, and at any status nothing but a front of it.
    ensures answered { IsVerdict result → IsAnswered (job_of (map string_bytes words.now))
        (Some source.old) (Some sink.old) (Some sink.new) result }
    ensures prefix { IsWithin (job_of (map string_bytes words.now)) (Some source.old)
        (Some sink.old) (Some sink.new) }
    ensures at_end { reads (job_of (map string_bytes words.now)) ≡ true
        → result ≡ Status.Success → IsAtEnd (Some source.new) }
    ensures untouched { result ≡ Status.Usage → (source.new ≡ source.old) × (sink.new ≡ sink.old) }
{
    run(rt, alloc, words, source, sink, gate)
}
