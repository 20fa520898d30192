//! What is written of a script with requesters.

ghost use Rattle.std.specs.Prelude.{◌≡◌, ◌<◌, ◌≤◌, IfOk, length};
ghost use Rattle.std.specs.String.{string_bytes};
ghost use Rattle.gb_machine.specs.Shared.{IsTold};
ghost use Rattle.gb_share.specs.Lines.{AreValid};
ghost use Rattle.gb_share.specs.Parting.{AreReadyToRun};
ghost use Rattle.gb_share.specs.Requesters.{AreSame};
ghost use Rattle.gb_share.specs.Shares.{IsShared, Tells};

use crate::merging::Merging;
use crate::parting::requesters;
use crate::requester::Requester;
use crate::sharing::share;
use gb_base::{Asked, Gate, OutOfMemory, Sequence};
use gb_desk::Journal;
use gb_system::System;
use std::alloc::Global;
use std::thread::Threads;

/// Runs the lines of all requesters: the first one's alone, and then those of the others at once.
fn share_all<R: Threads + Sync, G: Gate>(
    rt: &R,
    alloc: Global,
    all: &mut [Requester],
    gate: &G,
) -> Result<(System, Journal), OutOfMemory>
    requires { AreReadyToRun all.old }
    ensures same { AreSame all.old all.new }
    ensures shared { IfOk result (λ r. IsShared all.new r.0 r.1) }
{
    let Some((first, others)) = all.split_first_mut() else {
        unreachable!()
    };
    let shared = share(rt, alloc, first, others, gate)?;
    Ok(shared)
}

/// What is written of lines that were run, by the system and the history that they left.
fn told(
    alloc: Global,
    all: Vec<Requester>,
    hex: bool,
    system: &System,
    journal: &Journal,
) -> Result<String, OutOfMemory>
    ensures { IfOk result (λ text.
        Tells hex all.items system.now journal.now (string_bytes text)) }
{
    let mut merging = Merging::new(alloc, all, hex)?;
    merging.run(journal)?;
    let text = merging.written(alloc, system)?;
    Ok(text)
}

/// Runs a script's lines by their requesters: those of requester 0 alone, and then those of the
/// others at once, each in a thread of its own with calls of the gate.
///
/// Gives what is written of it: the order in which the lines were done, the report of the lines in
/// that order, and the names that name requests.
pub fn shared_text<R: Threads + Sync, G: Gate>(
    rt: &R,
    alloc: Global,
    asked: Sequence<Asked>,
    hex: bool,
    gate: &G,
) -> Result<String, OutOfMemory>
    requires valid { AreValid asked }
    requires few { length asked ≤ 1048577 }
    ensures { IfOk result (λ text. IsTold hex asked (string_bytes text)) }
{
    let mut all = requesters(alloc, asked)?;
    let (system, journal) = share_all(rt, alloc, all.as_mut_slice(), gate)?;
    let text = told(alloc, all, hex, &system, &journal)?;
    Ok(text)
}
