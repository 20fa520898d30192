//! The bytes that a reader of lines holds.

ghost use Rattle.std.specs.Prelude.{◌≡◌, ◌<◌, ◌≤◌, ◌+◌, ℕ, List, [], length, take, true, IfOk};
ghost use Rattle.std.specs.Prelude.{IsErrOf, MatchResult};
ghost use Rattle.gb_base.specs.Faults.{Rose};

use crate::line_buffer::LineBuffer;
use crate::piece::Piece;
use gb_base::{Failed, OutOfMemory, Source};
use std::alloc::Global;

/// How many bytes an input may have.
const LONGEST_INPUT: usize = 1_048_576;

/// Why no line is read.
#[derive(Clone, Copy, PartialEq, Eq)]
pub enum LineStop {
    /// The source failed.
    ReadFault,
    /// More than 1,048,576 bytes came.
    TooLong,
}

impl From<Failed> for LineStop {
    ghost use Rattle.std.specs.Prelude.{◌≡◌};
    ghost use Rattle.gb_script.specs.declared.held.LineStop.TheVariants as stop;

    ghost from_gives = { λ _ e. e ≡ stop.ReadFault };

    fn from(_failed: Failed) -> LineStop {
        LineStop::ReadFault
    }
}

/// The bytes of the last read, and the line that was taken last or is being gathered.
#[derive(Drop)]
pub struct Held {
    pub piece: Piece,
    pub buffer: LineBuffer,
    /// The line that was taken last stands in the piece. Else it is gathered in the buffer.
    pub lent: bool,
    /// How many bytes may still be taken.
    pub room: usize,
}

impl Held {
    ghost use Rattle.gb_script.specs.LineBuffers.{is_long_text};
    ghost use Rattle.gb_script.specs.Pieces.{EndsAt, HasNoLf, has_lf};
    ghost use Rattle.gb_script.specs.Reading.{Gathers, ReadsLine, Shows, TooMany, Took, TookLine};

    /// Before the first read.
    pub fn new(alloc: Global) -> Result<Held, OutOfMemory>
        ensures piece { IfOk result (λ h. h.piece.left ≡ []) }
        ensures room { IfOk result (λ h. h.room ≡ 1048576) }
    {
        Ok(Held {
            piece: Piece::new(alloc)?,
            buffer: LineBuffer::new(alloc)?,
            lent: false,
            room: LONGEST_INPUT,
        })
    }

    /// Takes the next line. True where it ended with LF, and false where the source did. Nothing is
    /// read where an LF is held.
    pub fn read_line<S: Source>(&mut self, source: &mut S) -> Result<bool, LineStop>
        requires few { length self.old.piece.left ≤ 4096 }
        requires room { self.old.room ≤ 1048576 }
        ensures line { ReadsLine self.old self.new (S.left source.old) (S.left source.new) result }
        ensures held { has_lf self.old.piece.left ≡ true → source.new ≡ source.old }
        ensures few { length self.new.piece.left ≤ 4096 }
        ensures less { self.new.room ≤ self.old.room }
        ensures later { S.faults source.old ≤ S.faults source.new }
        ensures cause { IsErrOf result LineStop.ReadFault
            → Rose (S.faults source.old) (S.faults source.new) }
    {
        let Some(n) = self.piece.before_lf() else {
            return self.gather(source);
        };
        self.lend(n)?;
        Ok(true)
    }

    /// Takes the line that ends with the first LF, which is behind `n` bytes, and leaves it in the
    /// piece.
    fn lend(&mut self, n: usize) -> Result<(), LineStop>
        requires ends { EndsAt self.old.piece.left n }
        requires few { length self.old.piece.left ≤ 4096 }
        ensures { MatchResult result (λ _. TookLine self.old self.new [] n)
            (λ e. TooMany self.old self.new (n + 1) e) }
    {
        self.room = room_behind(self.room, n + 1)?;
        self.piece.take_line(n);
        self.lent = true;
        Ok(())
    }

    /// Takes the next line, whose LF isn't held: it is read until that comes.
    fn gather<S: Source>(&mut self, source: &mut S) -> Result<bool, LineStop>
        requires plain { HasNoLf self.old.piece.left }
        requires few { length self.old.piece.left ≤ 4096 }
        requires room { self.old.room ≤ 1048576 }
        ensures line { ReadsLine self.old self.new (S.left source.old) (S.left source.new) result }
        ensures few { length self.new.piece.left ≤ 4096 }
        ensures less { self.new.room ≤ self.old.room }
        ensures later { S.faults source.old ≤ S.faults source.new }
        ensures cause { IsErrOf result LineStop.ReadFault
            → Rose (S.faults source.old) (S.faults source.new) }
    {
        self.lent = false;
        self.buffer.clear();
        while self.piece.fill(source)? {
            if let Some(n) = self.piece.before_lf() {
                self.end(n)?;
                return Ok(true);
            }
            let n = self.piece.left().len();
            self.take(n, n)?;
        }
        Ok(false)
    }

    /// Takes the rest of the line, which ends with the first LF, behind `n` bytes.
    fn end(&mut self, n: usize) -> Result<(), LineStop>
        requires ends { EndsAt self.old.piece.left n }
        requires few { length self.old.piece.left ≤ 4096 }
        requires room { self.old.buffer.size + self.old.room ≤ 1048576 }
        ensures { MatchResult result
            (λ _. (raw : List ℕ) → Gathers self.old raw → TookLine self.old self.new raw n)
            (λ e. TooMany self.old self.new (n + 1) e) }
    {
        if self.buffer.is_empty() {
            self.lend(n)?;
            return Ok(());
        }
        self.take(n, n + 1)?;
        self.buffer.drop_cr();
        Ok(())
    }

    /// Takes the next `count` bytes, and gathers the first `n` of them, which are of the line.
    fn take(&mut self, n: usize, count: usize) -> Result<(), LineStop>
        requires count { (n ≤ count) × (count ≤ length self.old.piece.left) }
        requires room { self.old.buffer.size + self.old.room ≤ 1048576 }
        ensures { MatchResult result (λ _. Took self.old self.new n count)
            (λ e. TooMany self.old self.new count e) }
    {
        self.room = room_behind(self.room, count)?;
        self.buffer.append(&self.piece.left()[..n]);
        self.piece.consume(count);
        Ok(())
    }

    /// The first 8,192 bytes of the line that was taken last.
    pub fn line(&self) -> &[u8]
        ensures { (line : List ℕ) → Shows self.now line → result.now ≡ take 8192 line }
    {
        if self.lent {
            self.piece.line()
        } else {
            self.buffer.text()
        }
    }

    /// Whether the line that was taken last has more than 8,192 bytes.
    pub fn is_long(&self) -> bool
        ensures { (line : List ℕ) → Shows self.now line → result ≡ is_long_text line }
    {
        !self.lent && self.buffer.is_long()
    }
}

/// How many bytes may still be taken behind the next `count`.
fn room_behind(room: usize, count: usize) -> Result<usize, LineStop>
    ensures { MatchResult result (λ left. count + left ≡ room)
        (λ e. (e ≡ LineStop.TooLong) × (room < count)) }
{
    if count > room {
        return Err(LineStop::TooLong);
    }
    Ok(room - count)
}
