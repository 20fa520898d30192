//! `gbus` runs scripts over the simulated module bus of Project Ara.
#![tactic(auto)]

ghost use Rattle.std.specs.Prelude.{◌≡◌, option_map};
ghost use Rattle.std.specs.Process.{exit_status};
ghost use Rattle.gbus.specs.Statuses.{complaint_text, exit_number};

mod answer;
mod drive;
#[cfg(test)]
mod fault_tests;
#[cfg(test)]
mod gate_tests;
mod gathered;
mod input;
mod line_worker;
mod manifests;
mod output;
mod plain_run;
mod run;
mod session;
mod share;
#[cfg(test)]
mod spent_tests;
mod status;
#[cfg(test)]
mod tests;
mod words;

use gb_base::{FreeGate, Status, StdSink, StdSource};
use run::run;
use std::env;
use std::io::ErrorKind;
use std::process::ExitCode;

fn main(rt: HostRuntime) -> ExitCode {
    let mut source = StdSource::new(rt.stdin());
    let mut sink = StdSink::new(rt.stdout());
    let status = match words_of(&rt) {
        Ok(words) => run(
            &rt,
            rt.alloc(),
            words.as_slice(),
            &mut source,
            &mut sink,
            &FreeGate,
        ),
        Err(fault) => fault,
    };
    if let Some(line) = complaint(status) {
        let _ = rt.eprintln(line);
    }
    exit_code(status)
}

/// The words behind the program's name. Words that aren't UTF-8 are none of the program's.
fn words_of(rt: &HostRuntime) -> Result<Vec<String>, Status> {
    let args = env::args(rt).map_err(|e| match e.kind() {
        ErrorKind::OutOfMemory => Status::NoMemory,
        _ => Status::Usage,
    })?;
    let mut words = Vec::new(rt.alloc());
    for word in args.skip(1) {
        words.push(word).map_err(|_| Status::NoMemory)?;
    }
    Ok(words)
}

/// What is said of a status on the standard error.
fn complaint(status: Status) -> Option<&'static str>
    ensures { option_map (λ line. line.now) result ≡ complaint_text status }
{
    match status {
        Status::Success | Status::Refused => None,
        Status::Usage => Some("usage"),
        Status::TooLong => Some("input too long"),
        Status::ReadFault => Some("read failed"),
        Status::WriteFault => Some("write failed"),
        Status::NoMemory => Some("out of memory"),
    }
}

/// With which number the process ends.
fn exit_code(status: Status) -> ExitCode
    ensures { exit_status result ≡ exit_number status }
{
    ExitCode::from(status as u8)
}
