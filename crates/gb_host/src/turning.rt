//! What the application processor does at what it takes notice of.

ghost use Rattle.std.specs.Prelude.{◌≡◌, ◌≢◌, [], None};
ghost use Rattle.gb_base.specs.declared.steps.SequenceStep.TheVariants as steps;
ghost use Rattle.gb_machine.specs.Host as machine;
ghost use Rattle.gb_machine.specs.HostTurns.{host_ended, host_turn};
ghost use Rattle.gb_machine.specs.Sequences.{payload_in, step_answered, step_done};
ghost use Rattle.gb_machine.specs.Waits.{awaited, waiting};

use crate::replies::{is_reply, payload_in};
use crate::{Acts, Host};
use gb_base::{Bytes, HostEvent, OutOfMemory, Outcome, Purpose, SequenceStep};

impl Host {
    ghost use Rattle.gb_host.specs.Stands.{Stands, host_of};
    ghost use Rattle.gb_host.specs.Turning.{HasInterfaces, TurnsAfter, TurnsAs};

    /// Takes notice of something, and answers what is to be done, in order. An `Act::Make` stands
    /// directly before the `Act::Ask` for the same purpose, and its connection is pending until
    /// `made` is called. `Act::Ask` and `Act::Make` are followed by `awaits`, `unsent` and `made`,
    /// which need no memory but for the acts of `unsent`.
    ///
    /// Interfaces are 2 to 31, CPorts of modules 0 to 4,095, those of the application processor 1
    /// to 4,095, device ids 2 to 31, and sizes are bytes. The requests are those of the Greybus
    /// Specification, "SVC Protocol" and "Control Protocol".
    ///
    /// Nothing is said of a module that was inserted with interfaces beyond 255.
    ///
    /// It is answered with OutOfMemory where no memory was found. Nothing has changed then.
    pub fn on(&mut self, event: HostEvent) -> Result<Acts, OutOfMemory>
        ensures step { (h : machine.Host) → Stands self.old h → HasInterfaces event
            → TurnsAs (host_turn event h) self.old self.new result }
    {
        let mut acts = Acts::new(self.alloc);
        self.on_into(event, &mut acts)?;
        Ok(acts)
    }

    /// The same, in a list that was made before: afterwards it has what is to be done and nothing
    /// else, whatever it had, and keeps its memory. After OutOfMemory nothing is said of the list.
    pub fn on_into(&mut self, event: HostEvent, acts: &mut Acts) -> Result<(), OutOfMemory>
        ensures step { (h : machine.Host) → Stands self.old h → HasInterfaces event
            → TurnsAfter (host_turn event h) [] acts.new self.old self.new result }
    {
        acts.clear();
        self.turn(acts, event)
    }

    /// What is to be done at something goes to the end of the acts.
    fn turn(&mut self, acts: &mut Acts, event: HostEvent) -> Result<(), OutOfMemory>
        ensures { HasInterfaces event → TurnsAfter (host_turn event (host_of self.old))
            acts.old acts.new self.old self.new result }
    {
        match event {
            HostEvent::Inserted { primary, count } => self.inserted(acts, primary, count),
            HostEvent::Removed { primary } => self.removed(acts, primary),
            HostEvent::Connect { intf, cport } => self.connect(acts, intf, cport),
            HostEvent::Disconnect { intf, cport } => self.disconnect(acts, intf, cport),
            HostEvent::Drain { intf, cport } => self.drain(acts, intf, cport),
            HostEvent::Idle { connection } => self.idle(acts, connection),
            HostEvent::Ended { number, outcome } => self.ended(acts, number, outcome),
        }
    }

    /// A request ended. Nothing starts where no sequence waited for it.
    fn ended(&mut self, acts: &mut Acts, number: u64, outcome: Outcome) -> Result<(), OutOfMemory>
        ensures { TurnsAfter (host_ended number outcome (host_of self.old))
            acts.old acts.new self.old self.new result }
    {
        let Some(purpose) = self.awaited(number) else {
            return Ok(());
        };
        let back = self.waits(purpose);
        self.wait(purpose, None);
        match self.answered(acts, purpose, outcome) {
            Ok(()) => Ok(()),
            Err(refused) => {
                self.wait(purpose, back);
                Err(refused)
            }
        }
    }

    /// The request of a step ended: the step is done where it was answered as it should be, and
    /// else fails.
    fn answered(
        &mut self,
        acts: &mut Acts,
        purpose: Purpose,
        outcome: Outcome,
    ) -> Result<(), OutOfMemory>
        ensures { TurnsAfter (step_answered (payload_in outcome) purpose (host_of self.old))
            acts.old acts.new self.old self.new result }
    {
        let Some(payload) = payload_in(outcome) else {
            return self.step_fails(acts, purpose);
        };
        if !is_reply(purpose.step, payload.items()) {
            return self.step_fails(acts, purpose);
        }
        self.done(acts, purpose, payload)
    }

    /// What follows a step that was answered as it should be.
    fn done(&mut self, acts: &mut Acts, purpose: Purpose, payload: Bytes) -> Result<(), OutOfMemory>
        ensures { TurnsAfter (step_done purpose.step purpose payload (host_of self.old))
            acts.old acts.new self.old self.new result }
    {
        if purpose.step == SequenceStep::AskManifest {
            return self.manifest_told(acts, purpose, payload);
        }
        self.done_by_reading(acts, purpose, payload.items())
    }

    /// What follows a step whose answer is only read: any but that for the manifest, which is kept.
    fn done_by_reading(
        &mut self,
        acts: &mut Acts,
        purpose: Purpose,
        payload: &[u8],
    ) -> Result<(), OutOfMemory>
        requires { purpose.step ≢ steps.AskManifest }
        ensures { TurnsAfter (step_done purpose.step purpose payload.now (host_of self.old))
            acts.old acts.new self.old self.new result }
    {
        match purpose.step {
            SequenceStep::EnableVsys => self.go_on(acts, purpose, SequenceStep::EnableRefclk),
            SequenceStep::EnableRefclk => self.go_on(acts, purpose, SequenceStep::EnableUnipro),
            SequenceStep::EnableUnipro => self.go_on(acts, purpose, SequenceStep::Activate),
            SequenceStep::Activate => self.begin_device(acts, purpose),
            SequenceStep::GiveDevice => self.device_given(acts, purpose),
            SequenceStep::CreateRoute => self.begin_control(acts, purpose),
            SequenceStep::CreateControl => self.control_opened(acts, purpose),
            SequenceStep::AskVersion => self.go_on(acts, purpose, SequenceStep::AskSize),
            SequenceStep::AskSize => self.size_told(acts, purpose, payload),
            SequenceStep::AskManifest => unreachable!(),
            SequenceStep::CreateConnection => {
                self.go_on(acts, purpose, SequenceStep::TellConnected)
            }
            SequenceStep::TellConnected => self.link_opened(acts, purpose),
            SequenceStep::TellDisconnecting => {
                self.go_on(acts, purpose, SequenceStep::TellDisconnected)
            }
            SequenceStep::TellDisconnected => {
                self.go_on(acts, purpose, SequenceStep::DestroyConnection)
            }
            SequenceStep::DestroyConnection => self.link_closed(acts, purpose),
        }
    }
}
