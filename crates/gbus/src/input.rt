//! Reads a whole input.

ghost use Rattle.std.specs.Prelude.{◌≡◌, ◌≤◌, ◌++◌, length, IfOk, IfSome, OnOk};
ghost use Rattle.gbus.specs.Reading.{IsRead, ReadsAll, kept_of};
ghost use Rattle.gbus.specs.Runs.{StopsAtLimit};

use gb_base::{Failed, OutOfMemory, Source};
use std::alloc::Global;

/// How many bytes an input may have.
const LONGEST_INPUT: usize = 1_048_576;

/// How many bytes one read asks for.
const PIECE: usize = 4_096;

/// An input.
#[derive(Drop)]
pub enum Input {
    /// All its bytes.
    Whole(Vec<u8>),
    /// It has more bytes than an input may have. These are the first that it may have.
    TooLong(Vec<u8>),
}

/// Why an input isn't answered.
#[derive(Clone, Copy, Debug, PartialEq, Eq)]
pub enum InputStop {
    /// The source failed.
    Failed,
    /// No memory was found.
    Memory(OutOfMemory),
}

impl From<Failed> for InputStop {
    ghost use Rattle.std.specs.Prelude.{◌≡◌};
    ghost use Rattle.gbus.specs.declared.input.InputStop.TheVariants as stop;

    ghost from_gives = { λ _ e. e ≡ stop.Failed };

    fn from(_failed: Failed) -> InputStop {
        InputStop::Failed
    }
}

impl From<OutOfMemory> for InputStop {
    ghost use Rattle.std.specs.Prelude.{◌≡◌};
    ghost use Rattle.gbus.specs.declared.input.InputStop.TheVariants as stop;

    ghost from_gives = { λ refused e. e ≡ stop.Memory refused };

    fn from(refused: OutOfMemory) -> InputStop {
        InputStop::Memory(refused)
    }
}

/// Adds bytes at the end.
fn add(bytes: &mut Vec<u8>, more: &[u8]) -> Result<(), OutOfMemory>
    ensures ok { OnOk result (bytes.new.items ≡ bytes.old.items ++ more.now) }
{
    bytes.extend_from_slice(more)?;
    Ok(())
}

/// Reads to the end of the source, or until more bytes came than an input may have.
pub fn read_all<S: Source>(alloc: Global, source: &mut S) -> Result<Input, InputStop>
    ensures bytes { ReadsAll (S.left source.old) (S.left source.new) (S.faults source.old)
        (S.faults source.new) result }
    ensures later { S.faults source.old ≤ S.faults source.new }
    ensures input { IfOk result (λ i. IfSome (S.left source.old) (IsRead i)) }
    ensures short { IfOk result (λ i. length (kept_of i) ≤ 1048576) }
    ensures limit { StopsAtLimit (S.left source.old) (S.left source.new) }
{
    let mut bytes = Vec::new(alloc);
    let mut piece = [0u8; PIECE];
    while bytes.len() <= LONGEST_INPUT {
        let n = source.read(&mut piece)?;
        if n == 0 {
            return Ok(Input::Whole(bytes));
        }
        add(&mut bytes, &piece[..n])?;
    }
    bytes.truncate(LONGEST_INPUT);
    Ok(Input::TooLong(bytes))
}
