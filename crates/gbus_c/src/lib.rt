//! The bus for C: a handle, and four calls on it. include/gbus.h declares them.
#![tactic(auto)]

ghost use Rattle.std.specs.Prelude.{◌≡◌, None, IfSome};
ghost use Rattle.gb_machine.specs.State.{first_state};
ghost use Rattle.gb_session.specs.Sessions.{Stands};
ghost use Rattle.gbus_c.specs.Calls.{CopiesAs, LineAs, OpensAs, number_of};

mod handle;

use gb_session::{Ended, Session};
use handle::Handle;
use std::alloc::Global;

/// The call did what it is for.
const DONE: u32 = 0;
/// The line is bad.
const BAD_LINE: u32 = 1;
/// No memory was found.
const NO_MEMORY: u32 = 2;
/// As many lines were taken as may be.
const SPENT: u32 = 3;
/// The handle is closed.
const CLOSED: u32 = 4;
/// The handle is open.
const OPEN: u32 = 5;

/// Opens a closed handle: its session stands for the machine's first state.
#[unsafe(no_mangle)]
pub extern "C" fn gbus_open(alloc: Global, bus: &mut Handle, hex: bool) -> u32
    ensures { OpensAs bus.old.session bus.new.session hex result }
{
    if let Some(session) = bus.take(alloc) {
        bus.put(session);
        return OPEN;
    }
    let Some(session) = opened(alloc, hex) else {
        return NO_MEMORY;
    };
    bus.put(session);
    DONE
}

/// Runs a line, and tells how many bytes its report has.
#[unsafe(no_mangle)]
pub extern "C" fn gbus_line(alloc: Global, bus: &mut Handle, line: &[u8], size: &mut usize) -> u32
    ensures { LineAs bus.old.session bus.new.session line.now size.new result }
{
    let Some(mut session) = bus.take(alloc) else {
        *size = 0;
        return CLOSED;
    };
    let ended = session.run(line);
    *size = session.text().len();
    bus.put(session);
    number_of(ended)
}

/// Copies the report of the last line from a byte on, and answers how many bytes were copied.
#[unsafe(no_mangle)]
pub extern "C" fn gbus_text(alloc: Global, bus: &mut Handle, from: usize, out: &mut [u8]) -> usize
    ensures { CopiesAs bus.old.session bus.new.session from out.old out.new result }
{
    let Some(session) = bus.take(alloc) else {
        return 0;
    };
    let count = session.copy_text(from, out);
    bus.put(session);
    count
}

/// Closes a handle: the session and its memory are given back.
#[unsafe(no_mangle)]
pub extern "C" fn gbus_close(alloc: Global, bus: &mut Handle)
    ensures { bus.new.session ≡ None }
{
    drop(bus.take(alloc));
}

/// A session in memory of its own.
fn opened(alloc: Global, hex: bool) -> Option<Box<Session>>
    ensures { IfSome result (λ b. Stands b.value hex 0 first_state) }
{
    let Ok(session) = Session::new(alloc, hex) else {
        return None;
    };
    Box::new(alloc, session).ok()
}

/// The number of how a line ended.
fn number_of(ended: Ended) -> u32
    ensures { result ≡ number_of ended }
{
    match ended {
        Ended::Done => DONE,
        Ended::Bad => BAD_LINE,
        Ended::NoMemory => NO_MEMORY,
        Ended::Spent => SPENT,
    }
}
