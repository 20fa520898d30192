//! A session: a line in, and its report out.

ghost use Rattle.std.specs.Prelude.{◌≡◌, ◌<◌, ℕ, Bool, Some, [], IfOk};
ghost use Rattle.gb_machine.specs.State.{State, first_state};
ghost use Rattle.gb_script.specs.Readers.{IsLineOf};
ghost use Rattle.gb_session.specs.Sessions.{Copies, EndsAs, StandsBy, is_wanting, line_in};
ghost use Rattle.gb_session.specs.Sessions.{without};

use crate::reporter::{Ran, Reporter};
use gb_base::OutOfMemory;
use gb_script::{LONGEST_LINE, Line};
use std::alloc::Global;

/// How a line ended.
#[derive(Clone, Copy, Debug, PartialEq, Eq)]
pub enum Ended {
    /// It was run, or has no event.
    Done,
    /// It is bad. The next line may be run.
    Bad,
    /// No memory was found, for this line or an earlier one.
    NoMemory,
    /// 4,294,967,295 lines were taken before, and nothing was done.
    Spent,
}

impl Ended {
    /// Whether memory was wanting.
    fn is_wanting(self) -> bool
        ensures { result ≡ is_wanting self }
    {
        matches!(self, Ended::NoMemory)
    }
}

/// A bus to which lines are given one by one, each as in a script, and the report of the last one.
/// Once no memory was found it keeps nothing, and says so at every line.
pub struct Session {
    /// None once no memory was found.
    reporter: Option<Reporter>,
}

// Not derived: a crate that drops a session calls this, and doesn't go into its parts.
impl Drop for Session {
    fn drop(self) {
        let Session { reporter } = self;
        drop(reporter);
    }
}

impl Session {
    ghost use Rattle.gb_session.specs.Sessions.{Runs, Stands, text_of};

    /// Before the first line. With `hex` the bytes of messages are shown.
    pub fn new(alloc: Global, hex: bool) -> Result<Session, OutOfMemory>
        ensures stands { IfOk result (λ x. Stands x hex 0 first_state) }
        ensures text { IfOk result (λ x. text_of x ≡ []) }
    {
        let reporter = Reporter::new(alloc, hex)?;
        Ok(Session {
            reporter: Some(reporter),
        })
    }

    /// Runs a line, which may have its LF or CR LF at its end. A bad one changes nothing but the
    /// number of lines and the text, and the next one may be run.
    pub fn run(&mut self, bytes: &[u8]) -> Ended
        ensures { Runs self.old self.new bytes.now result }
    {
        let Some(reporter) = &mut self.reporter else {
            return Ended::NoMemory;
        };
        let ended = run_in(reporter, line_in(bytes));
        if ended.is_wanting() {
            self.reporter = None;
        }
        ended
    }

    /// The report of the last line, empty where memory was wanting.
    pub fn text(&self) -> &[u8]
        ensures { result.now ≡ text_of self.now }
    {
        match &self.reporter {
            Some(reporter) => reporter.text(),
            None => &[],
        }
    }

    /// Copies the report of the last line from the byte at `from` on, as far as `out` has room, and
    /// answers how many bytes were copied. The rest of `out` is as before.
    pub fn copy_text(&self, from: usize, out: &mut [u8]) -> usize
        ensures { Copies (text_of self.now) from out.old out.new result }
    {
        copy_behind(self.text(), from, out)
    }
}

/// Runs a line, unless as many were taken as may be.
fn run_in(reporter: &mut Reporter, line: &[u8]) -> Ended
    ensures { (hex : Bool) → (n : ℕ) → (s : State) → StandsBy (Some reporter.old) hex n s
        → EndsAs (Some reporter.new) hex n line.now s result }
{
    let Some(number) = reporter.number().checked_add(1) else {
        reporter.clear();
        return Ended::Spent;
    };
    match reporter.take(numbered(number, line)) {
        Ok(Ran::Done) => Ended::Done,
        Ok(Ran::Bad) => Ended::Bad,
        Err(_) => Ended::NoMemory,
    }
}

/// A line as a reader hands it out.
fn numbered(number: u32, line: &[u8]) -> Line<'_>
    ensures number { result.number ≡ number }
    ensures line { IsLineOf result.bytes.now result.long line.now }
{
    Line {
        number,
        bytes: &line[..LONGEST_LINE.min(line.len())],
        long: line.len() > LONGEST_LINE,
    }
}

/// The line that these bytes are.
fn line_in(bytes: &[u8]) -> &[u8]
    ensures { result.now ≡ line_in bytes.now }
{
    without(b'\r', without(b'\n', bytes))
}

/// Bytes without this one, where it is the last.
fn without(end: u8, bytes: &[u8]) -> &[u8]
    ensures { result.now ≡ without end bytes.now }
{
    if bytes.last() == Some(&end) {
        &bytes[..bytes.len() - 1]
    } else {
        bytes
    }
}

/// Copies what stands behind a place of a text, as far as there is room.
fn copy_behind(text: &[u8], from: usize, out: &mut [u8]) -> usize
    ensures { Copies text.now from out.old out.new result }
{
    let (_, rest) = text.split_at(from.min(text.len()));
    let count = out.len().min(rest.len());
    out[..count].copy_from_slice(&rest[..count]);
    count
}
