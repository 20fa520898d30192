//! The system: the parties, stepped event by event until no memory is found.

ghost use Rattle.std.specs.Prelude.{◌≡◌, ◌+◌, ◌<◌, ◌++◌, if◌then◌else◌, true, false};
ghost use Rattle.std.specs.Prelude.{IfOk, OnOk, is_ok, is_err, length, option_copied, option_map};
ghost use Rattle.std.specs.String.{string_bytes};
ghost use Rattle.gb_bus.specs.Counting.{Tells};
ghost use Rattle.gb_formats.specs.Results.{most_payload};
ghost use Rattle.gb_formats.specs.ValidEvents.{IsValid};
ghost use Rattle.gb_machine.specs.Shared.{tickets_of};
ghost use Rattle.gb_machine.specs.State.{State, first_state};

use crate::parties::Parties;
use gb_base::{Entries, Event, OutOfMemory, Outcome};
use gb_bridge_payload::MOST_PAYLOAD;
use gb_bus::Tally;
use std::alloc::Global;

/// The application processor, the supervisory controller, the modules and the bus between them.
#[derive(Drop)]
pub struct System {
    parties: Parties,
    /// Room for the payload of a bridge line.
    room: Vec<u8>,
    taken: u64,
    /// What was refused to a step that found no memory.
    failed: Option<OutOfMemory>,
    ghost wide: { length room.items ≡ most_payload },
}

impl System {
    ghost use Rattle.gb_system.specs.Outcomes.{outcome_in};
    ghost use Rattle.gb_system.specs.Stands.{Stands, StepsAs, StepsTo, has_failed, taken_of};

    /// The first state: nothing is plugged, and nothing was sent.
    pub fn new(alloc: Global) -> Result<System, OutOfMemory>
        ensures first { IfOk result (λ x. Stands x first_state) }
        ensures taken { IfOk result (λ x. taken_of x ≡ 0) }
        ensures failed { IfOk result (λ x. has_failed x ≡ false) }
    {
        Ok(System {
            parties: Parties::new(alloc)?,
            room: vec![in alloc; 0; MOST_PAYLOAD]?,
            taken: 0,
            failed: None,
        })
    }

    /// Steps one event, and answers what it brings about: first `Entry::Done` or `Entry::Refused`.
    /// Once no memory was found, every later step answers that. Fewer than 4,294,967,295 events may
    /// have been stepped before.
    pub fn step(&mut self, e: &Event) -> Result<Entries, OutOfMemory>
        requires valid { IsValid e.now }
        requires room { taken_of self.old < 4294967295 }
        ensures step { (s : State) → Stands self.old s → StepsAs self.new s e.now result }
        ensures taken { taken_of self.new
            ≡ (if is_ok result then taken_of self.old + 1 else taken_of self.old) }
        ensures failed { has_failed self.new ≡ is_err result }
        ensures later { has_failed self.old ≡ true → is_err result ≡ true }
    {
        let mut told = Entries::new(self.parties.alloc);
        self.step_into(e, &mut told)?;
        Ok(told)
    }

    /// Steps one event as `step` does, into the memory that `told` has: what stood there is gone.
    /// After want of memory nothing is said of `told`. Here too fewer than 4,294,967,295 events may
    /// have been stepped before.
    pub fn step_into(&mut self, e: &Event, told: &mut Entries) -> Result<(), OutOfMemory>
        requires valid { IsValid e.now }
        requires room { taken_of self.old < 4294967295 }
        ensures step { OnOk result ((s : State) → Stands self.old s
            → StepsTo self.new s e.now told.new) }
        ensures taken { taken_of self.new
            ≡ (if is_ok result then taken_of self.old + 1 else taken_of self.old) }
        ensures failed { has_failed self.new ≡ is_err result }
        ensures later { has_failed self.old ≡ true → is_err result ≡ true }
    {
        if let Some(refused) = self.failed {
            return Err(refused);
        }
        match self.parties.event(e, self.room.as_mut_slice(), told) {
            Ok(()) => {
                self.taken += 1;
                Ok(())
            }
            Err(refused) => {
                self.failed = Some(refused);
                Err(refused)
            }
        }
    }

    /// How many events were stepped, refused ones included.
    pub fn taken(&self) -> u64
        ensures { result ≡ taken_of self.now }
    {
        self.taken
    }

    /// How request n ended. The outer None comes where nothing asks for request n: it isn't open,
    /// has no name, and wasn't given up or has its answer. The inner None: it is open. After want
    /// of memory nothing is said.
    pub fn outcome(&self, n: u64) -> Option<Option<&Outcome>>
        ensures { (s : State) → Stands self.now s
            → option_map (λ how. option_copied how) result ≡ outcome_in n s }
    {
        self.parties.bus.about(n)?;
        Some(self.parties.bus.outcome(n))
    }

    /// Appends a line for each name, in order of requester and word, with the number of its request
    /// and how that ended. After a refusal a front of these lines may stand in `out`. After want of
    /// memory in a step nothing is said.
    pub fn append_tickets(&self, out: &mut String) -> Result<(), OutOfMemory>
        ensures { OnOk result ((s : State) → Stands self.now s
            → string_bytes out.new ≡ string_bytes out.old ++ tickets_of s) }
    {
        self.parties.append_tickets(out)?;
        Ok(())
    }

    /// A step found no memory: every later one answers that too.
    pub fn memory_failed(&self) -> bool
        ensures { result ≡ has_failed self.now }
    {
        self.failed.is_some()
    }

    /// How many requests were made by both sides, and how these stand. After want of memory nothing
    /// is said.
    pub fn tally(&self) -> Tally
        ensures { (s : State) → Stands self.now s → Tells result s.bus }
    {
        self.parties.bus.tally()
    }
}
