//! Reads a script line by line.

ghost use Rattle.std.specs.Prelude.{◌≡◌, ◌≤◌, ◌+◌, [], length, ℕ, List, Option, Some, None, Err};
ghost use Rattle.std.specs.Prelude.{IfOk, IfSome, IsErrOf, MatchResult, ⊤, true};
ghost use Rattle.gb_base.specs.Faults.{Rose};

use crate::held::{Held, LineStop};
use gb_base::{OutOfMemory, Source};
use std::alloc::Global;

/// A line of a script.
#[derive(Clone, Copy)]
pub struct Line<'b> {
    /// Its number, from 1.
    pub number: u32,
    /// Its bytes, at most the first 8,192.
    pub bytes: &'b [u8],
    /// It has more than 8,192 bytes.
    pub long: bool,
}

/// How far a reader has come.
#[derive(Clone, Copy)]
pub enum Progress {
    /// Lines may be left.
    Going,
    /// The source is at its end, and the last line was handed out.
    Ended,
    /// No line is handed out any more.
    Stopped(LineStop),
}

/// Hands out the lines of a source one by one. It reads only while it holds no line that has ended.
#[derive(Drop)]
pub struct LineReader {
    held: Held,
    number: u32,
    progress: Progress,
    ghost counted: { number + held.room ≤ 1048576 },
    ghost few: { length held.piece.left ≤ 4096 },
}

impl LineReader {
    ghost use Rattle.gb_script.specs.Readers.{CountsOn, IsLineOf, Lends, Reads, ReadsOn, number_of};
    ghost use Rattle.gb_script.specs.Readers.{holds_line, stop_of, stopped};
    ghost use Rattle.gb_script.specs.declared.line_reader.Progress.TheVariants as progress;

    /// Before the first line. All memory is taken here.
    pub fn new(alloc: Global) -> Result<LineReader, OutOfMemory>
        ensures { IfOk result (λ x. (text : Option (List ℕ)) → Reads x text text []) }
    {
        Ok(LineReader {
            held: Held::new(alloc)?,
            number: 0,
            progress: Progress::Going,
        })
    }

    /// Reads the next line, which `line` then lends. False where none is left.
    ///
    /// Lines end with LF, which the last may lack. One CR before the LF belongs to the end.
    pub fn next<S: Source>(&mut self, source: &mut S) -> Result<bool, LineStop>
        ensures reads { (text : Option (List ℕ)) → (given : List (List ℕ))
            → Reads self.old text (S.left source.old) given
            → ReadsOn self.new text (S.left source.new) given result }
        ensures counts { IfOk result (λ more. CountsOn self.old self.new more) }
        ensures later { S.faults source.old ≤ S.faults source.new }
        ensures cause { IsErrOf result LineStop.ReadFault → stopped self.old ≡ None
            → Rose (S.faults source.old) (S.faults source.new) }
        ensures stops { MatchResult result (λ _. ⊤) (λ s. stopped self.new ≡ Some s) }
        ensures same { IfSome (stopped self.old)
            (λ s. (result ≡ Err s) × (self.new ≡ self.old) × (source.new ≡ source.old)) }
        ensures held { holds_line self.old ≡ true → source.new ≡ source.old }
    {
        match self.progress {
            Progress::Going => self.go_on(source),
            Progress::Ended => Ok(false),
            Progress::Stopped(stop) => Err(stop),
        }
    }

    /// Reads the next line where lines may be left.
    fn go_on<S: Source>(&mut self, source: &mut S) -> Result<bool, LineStop>
        requires { self.old.progress ≡ progress.Going }
        ensures reads { (text : Option (List ℕ)) → (given : List (List ℕ))
            → Reads self.old text (S.left source.old) given
            → ReadsOn self.new text (S.left source.new) given result }
        ensures counts { IfOk result (λ more. CountsOn self.old self.new more) }
        ensures later { S.faults source.old ≤ S.faults source.new }
        ensures cause { IsErrOf result LineStop.ReadFault
            → Rose (S.faults source.old) (S.faults source.new) }
        ensures stops { MatchResult result (λ _. ⊤) (λ s. stopped self.new ≡ Some s) }
        ensures held { holds_line self.old ≡ true → source.new ≡ source.old }
    {
        match self.held.read_line(source) {
            Ok(true) => {
                self.number += 1;
                Ok(true)
            }
            Ok(false) => {
                self.progress = Progress::Ended;
                if self.held.buffer.is_empty() {
                    return Ok(false);
                }
                self.number += 1;
                Ok(true)
            }
            Err(stop) => {
                self.progress = Progress::Stopped(stop);
                Err(stop)
            }
        }
    }

    /// A further line that has ended is held, so that `next` doesn't read.
    pub fn has_line(&self) -> bool
        ensures { result ≡ holds_line self.now }
    {
        self.held.piece.has_lf()
    }

    /// The line that was read last.
    pub fn line(&self) -> Line<'_>
        ensures number { result.number ≡ number_of self.now }
        ensures line { (line : List ℕ) → Lends self.now line
            → IsLineOf result.bytes.now result.long line }
    {
        Line {
            number: self.number,
            bytes: self.held.line(),
            long: self.held.is_long(),
        }
    }
}
