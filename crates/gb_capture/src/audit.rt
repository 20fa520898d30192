//! The audit of the messages of a capture.

ghost use Rattle.std.specs.Prelude.{◌≡◌, ◌<◌, ◌≤◌, ◌∷◌, [], List, IfOk, reverse};
ghost use Rattle.gb_formats.specs.Audit.{finding_of, verdict};
ghost use Rattle.gb_formats.specs.Captures.{Heard};
ghost use Rattle.gb_wire.specs.MessageOf.{message_of};

use crate::counts::{is_asking, is_response, one_if};
use crate::hearing::hear;
use crate::table::Table;
use gb_base::{Finding, OutOfMemory, Verdict};
use gb_wire::Message;
use std::alloc::Global;

/// The messages of a capture that came so far: the last requests among them, and what was counted.
#[derive(Drop)]
pub struct Audit {
    table: Table,
    /// The line of the last message, 0 before the first.
    line: u32,
    /// How many messages break the pairing.
    faults: u32,
    /// How many responses are in a pair.
    pairs: u32,
    /// How many requests have an identifier.
    asked: u32,
    ghost few_faults: { faults ≤ line },
    ghost few_pairs: { pairs ≤ line },
    ghost few_asked: { asked ≤ line },
}

impl Audit {
    ghost use Rattle.gb_capture.specs.Audits.{Stands, heard_at, last_line};

    /// Before the first message. All memory is taken here.
    pub fn new(alloc: Global) -> Result<Audit, OutOfMemory>
        ensures stands { IfOk result (λ a. Stands a []) }
        ensures line { IfOk result (λ a. last_line a ≡ 0) }
    {
        Ok(Audit {
            table: Table::new(alloc)?,
            line: 0,
            faults: 0,
            pairs: 0,
            asked: 0,
        })
    }

    /// Takes the next message, and answers how it breaks the pairing, if it does. Its line is
    /// behind that of each message before it.
    pub fn take(&mut self, line: u32, from_ap: bool, m: &Message<'_>) -> Option<Finding>
        requires { last_line self.old < line }
        ensures finding { (past : List Heard) → Stands self.old past
            → result ≡ finding_of past (heard_at line from_ap (message_of m.now)) }
        ensures stands { (past : List Heard) → Stands self.old past
            → Stands self.new (heard_at line from_ap (message_of m.now) ∷ past) }
        ensures line { last_line self.new ≡ line }
    {
        let found = hear(&mut self.table, line, from_ap, m);
        self.line = line;
        self.faults += one_if(found.is_some());
        self.pairs += one_if(is_response(m) & found.is_none());
        self.asked += one_if(is_asking(m));
        found
    }

    /// What was counted of the messages that came.
    pub fn verdict(&self) -> Verdict
        ensures { (past : List Heard) → Stands self.now past → result ≡ verdict (reverse past) }
    {
        Verdict {
            faults: self.faults,
            pairs: self.pairs,
            unpaired: self.asked.saturating_sub(self.pairs),
        }
    }
}
