//! What the sequences of the application processor wait for, and the connections that they make.

ghost use Rattle.std.specs.Option.{is_some};
ghost use Rattle.std.specs.Prelude.{◌≡◌, ℕ, None, [], false};
ghost use Rattle.gb_base.specs.declared.host_event.HostEvent.TheVariants as host_event;
ghost use Rattle.gb_base.specs.declared.outcome.Outcome.{Outcome};
ghost use Rattle.gb_machine.specs.Host as machine;
ghost use Rattle.gb_machine.specs.Host.{with_new_link};
ghost use Rattle.gb_machine.specs.HostTurns.{host_turn};
ghost use Rattle.gb_machine.specs.SequenceSteps.{is_enumeration};
ghost use Rattle.gb_machine.specs.Turns.{turn};
ghost use Rattle.gb_machine.specs.Waits.{awaited, awaits, awaits_nothing, purpose_in, waiting};

use crate::Host;
use gb_base::{ConnState, Link, Purpose, SequenceStep};
use gb_uart::MOST_CREDITS;

impl Host {
    ghost use Rattle.gb_host.specs.Stands.{IsPending, Stands, host_of};

    /// The request of a purpose was made under this number, and its sequence waits for it. The same
    /// connection is pending. It needs no memory: where none is found, what waits is looked for one
    /// by one from then on.
    pub fn awaits(&mut self, purpose: Purpose, number: u64)
        ensures step { (h : machine.Host) → Stands self.old h
            → Stands self.new (awaits purpose number h) }
        ensures pending { self.new.pending ≡ self.old.pending }
    {
        self.wait(purpose, Some((number, purpose.step)));
    }

    /// The connection of a purpose, which is pending, was made under this number. Nothing changes
    /// where none is pending. It needs no memory: where none is found, connections are looked for
    /// one by one from then on.
    pub fn made(&mut self, purpose: Purpose, connection: u64)
        ensures step { (h : machine.Host) (ap protocol : ℕ) → Stands self.old h
            → IsPending ap protocol self.old
            → Stands self.new
            (with_new_link connection ap purpose.intf purpose.cport protocol h) }
        ensures unchanged { self.old.pending ≡ None → self.new ≡ self.old }
    {
        if let Some(pending) = self.pending.take() {
            self.links.add(Link {
                connection,
                ap: pending.ap,
                intf: purpose.intf,
                cport: purpose.cport,
                protocol: pending.protocol,
                state: ConnState::Opening,
                credits: MOST_CREDITS,
                awaits: None,
            });
        }
    }

    /// Whether a sequence waits for a request. Where none does, the end of the request changes
    /// nothing, and nothing is to be done. It takes no memory.
    #[inline]
    pub fn is_awaited(&self, number: u64) -> bool
        ensures step { (h : machine.Host) → Stands self.now h → result ≡ is_some (awaited number h) }
        ensures quiet { (h : machine.Host) (how : Outcome) → Stands self.now h → result ≡ false
            → host_turn (host_event.Ended number how) h ≡ turn h [] }
    {
        self.awaited(number).is_some()
    }

    /// What a request is for, where a sequence waits for it.
    pub(crate) fn awaited(&self, number: u64) -> Option<Purpose>
        ensures { result ≡ awaited number (host_of self.now) }
    {
        match self.interfaces.waiting(number) {
            Some(purpose) => Some(purpose),
            None => self.links.waiting(number),
        }
    }

    /// What the sequence of a purpose waits for.
    pub(crate) fn waits(&self, purpose: Purpose) -> Option<(u64, SequenceStep)>
        ensures { waiting result purpose (waiting None purpose (host_of self.now))
            ≡ host_of self.now }
    {
        if is_enumeration(purpose.step) {
            self.interfaces.awaits(purpose.intf)
        } else {
            self.links.awaits(purpose.intf, purpose.cport)
        }
    }

    /// The sequence of a purpose waits for this.
    pub(crate) fn wait(&mut self, purpose: Purpose, awaits: Option<(u64, SequenceStep)>)
        ensures step { host_of self.new ≡ waiting awaits purpose (host_of self.old) }
        ensures pending { self.new.pending ≡ self.old.pending }
    {
        if is_enumeration(purpose.step) {
            self.interfaces.set_awaits(purpose.intf, awaits);
        } else {
            self.links.set_awaits(purpose.intf, purpose.cport, awaits);
        }
    }
}

/// A step belongs to an enumeration. The others belong to a connection.
#[inline]
fn is_enumeration(step: SequenceStep) -> bool
    ensures { result ≡ is_enumeration step }
{
    !matches!(
        step,
        SequenceStep::CreateConnection
            | SequenceStep::TellConnected
            | SequenceStep::TellDisconnecting
            | SequenceStep::TellDisconnected
            | SequenceStep::DestroyConnection
    )
}

/// The purpose of a request, where what a sequence waits for is this request.
#[inline]
pub(crate) fn purpose_in(
    number: u64,
    intf: u8,
    cport: u16,
    awaits: Option<(u64, SequenceStep)>,
) -> Option<Purpose>
    ensures { result ≡ purpose_in number intf cport awaits }
{
    let (awaited, step) = awaits?;
    if awaited == number {
        Some(Purpose { intf, cport, step })
    } else {
        None
    }
}
