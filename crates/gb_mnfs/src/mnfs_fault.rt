//! Why no manifest is made of a text.

use gb_base::{MnfsReason, OutOfMemory, Reason};
use gb_manifest::WriteFault;

/// Why no manifest is made of a text. The first of these that holds is told, in the order in which
/// they stand, and of the lines the first bad one.
#[derive(Clone, Copy, Debug, PartialEq, Eq)]
pub enum MnfsFault {
    /// A line is bad, or a section lacks a key.
    Line {
        /// The line, from 1; or 0 where the header or the interface isn't there.
        line: u64,
        /// Why it is refused.
        reason: MnfsReason,
    },
    /// A string has more than 255 bytes.
    StringLong {
        /// The id of the first such string.
        id: u8,
    },
    /// The sections break a rule of manifests.
    Rule(Reason),
    /// The manifest would have more than 65,535 bytes.
    TooLong,
    /// No memory was found.
    Memory(OutOfMemory),
}

impl From<OutOfMemory> for MnfsFault {
    ghost use Rattle.std.specs.Prelude.{◌≡◌};
    ghost use Rattle.gb_mnfs.specs.declared.mnfs_fault.MnfsFault.TheVariants as fault;

    ghost from_gives = { λ refused e. e ≡ fault.Memory refused };

    fn from(refused: OutOfMemory) -> MnfsFault {
        MnfsFault::Memory(refused)
    }
}

impl From<WriteFault> for MnfsFault {
    ghost use Rattle.std.specs.Prelude.{◌≡◌};
    ghost use Rattle.gb_mnfs.specs.Answers.{unwritten};

    ghost from_gives = { λ why e. e ≡ unwritten why };

    fn from(why: WriteFault) -> MnfsFault {
        match why {
            WriteFault::StringLong { id } => MnfsFault::StringLong { id },
            WriteFault::Rule(reason) => MnfsFault::Rule(reason),
            WriteFault::TooLong => MnfsFault::TooLong,
            WriteFault::Memory(refused) => MnfsFault::Memory(refused),
        }
    }
}

/// Why a line isn't taken.
#[derive(Clone, Copy, Debug, PartialEq, Eq)]
pub enum LineStop {
    /// It is bad.
    Bad(MnfsReason),
    /// No memory was found.
    Memory(OutOfMemory),
}

impl From<MnfsReason> for LineStop {
    ghost use Rattle.std.specs.Prelude.{◌≡◌};
    ghost use Rattle.gb_mnfs.specs.declared.mnfs_fault.LineStop.TheVariants as stop;

    ghost from_gives = { λ reason e. e ≡ stop.Bad reason };

    fn from(reason: MnfsReason) -> LineStop {
        LineStop::Bad(reason)
    }
}

impl From<OutOfMemory> for LineStop {
    ghost use Rattle.std.specs.Prelude.{◌≡◌};
    ghost use Rattle.gb_mnfs.specs.declared.mnfs_fault.LineStop.TheVariants as stop;

    ghost from_gives = { λ refused e. e ≡ stop.Memory refused };

    fn from(refused: OutOfMemory) -> LineStop {
        LineStop::Memory(refused)
    }
}
