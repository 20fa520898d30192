//! Requests that end, and connections that drain.

ghost use Rattle.std.specs.Prelude.{◌≡◌, [], ℕ, false, IfOk, None, OnOk, Option, option_map};
ghost use Rattle.gb_base.specs.declared.bridge.Reading.TheVariants as reading;
ghost use Rattle.gb_base.specs.declared.entry.Entry.TheVariants as entry;
ghost use Rattle.gb_base.specs.declared.host_event.HostEvent.TheVariants as event;
ghost use Rattle.gb_base.specs.declared.interface.Link.{Link};
ghost use Rattle.gb_base.specs.declared.outcome.Outcome.{Outcome};
ghost use Rattle.gb_machine.specs.Actions.{tell, ◌▸◌};
ghost use Rattle.gb_machine.specs.Host.{is_draining};
ghost use Rattle.gb_machine.specs.HostActs.{follows, host_follows, idles, idles_behind};
ghost use Rattle.gb_machine.specs.HostTurns.{host_turn};
ghost use Rattle.gb_machine.specs.Lists.{holds_of};
ghost use Rattle.gb_machine.specs.Loading.{load_of};
ghost use Rattle.gb_machine.specs.State.{State};
ghost use Rattle.gb_machine.specs.Turns.{turn};
ghost use Rattle.gb_system.specs.Doing.{Does};
ghost use Rattle.gb_system.specs.Ending.{IsAwaited, IsOver, TellsEnd};
ghost use Rattle.gb_laws.specs.Possible.{MayFollow, MayIdle};
ghost use Rattle.gb_system.specs.Stands.{PartsStand};

use crate::parties::Parties;
use gb_base::{ConnState, Entries, Entry, HostEvent, OutOfMemory, Outcome, Reading, Side, TryCopy};

/// A request that ended.
#[derive(Clone, Copy)]
pub struct Over {
    /// Its number.
    pub number: u64,
    /// The connection on which it was made.
    pub connection: u64,
    /// The side that made it.
    pub side: Side,
}

impl Parties {
    /// A request ended: this is told, what waited for it goes on or fails, its connection begins to
    /// close where it drains and nothing is open on it any more, and a download goes on.
    pub fn end(
        &mut self,
        over: Over,
        outcome: Outcome,
        reading: Reading,
        told: &mut Entries,
    ) -> Result<(), OutOfMemory>
        ensures step { OnOk result
            (TellsEnd self.old self.new over outcome reading told.old told.new) }
    {
        if self.is_awaited(over.number) {
            self.end_awaited(over, outcome, reading, told)?;
            return Ok(());
        }
        told.push(Entry::Ended {
            number: over.number,
            outcome,
            reading,
        })?;
        self.idle_behind(over, told)?;
        Ok(())
    }

    /// Whether a sequence of the application processor or a download waits for a request. Mostly
    /// none does.
    #[inline]
    fn is_awaited(&self, number: u64) -> bool
        ensures host { (s : State) (how : Outcome) → PartsStand [] self.now s → result ≡ false
            → host_turn (event.Ended number how) s.host ≡ turn s.host [] }
        ensures load { result ≡ false → load_of number self.now.loads ≡ None }
    {
        self.host.is_awaited(number) || self.loads.of(number).is_some()
    }

    /// A request ended for which something may wait: all is done that `end` does.
    fn end_awaited(
        &mut self,
        over: Over,
        outcome: Outcome,
        reading: Reading,
        told: &mut Entries,
    ) -> Result<(), OutOfMemory>
        ensures step { OnOk result
            (TellsEnd self.old self.new over outcome reading told.old told.new) }
    {
        let number = over.number;
        told.push(Entry::Ended {
            number,
            outcome: outcome.copy()?,
            reading,
        })?;
        let awaited = self.awaited(number, &outcome)?;
        self.host_on(over, outcome, told)?;
        let Some(outcome) = awaited else {
            return Ok(());
        };
        self.load_on(number, &outcome, told)?;
        Ok(())
    }

    /// A copy of the outcome of a request for which a download may wait, None where none does.
    fn awaited(&self, number: u64, how: &Outcome) -> Result<Option<Outcome>, OutOfMemory>
        ensures { IfOk result (λ o. o ≡ option_map (λ l. how.now) (load_of number self.now.loads)) }
    {
        if self.loads.of(number).is_none() {
            return Ok(None);
        }
        let outcome = how.copy()?;
        Ok(Some(outcome))
    }

    /// A request ended: what of the application processor waited for it goes on or fails, and its
    /// connection begins to close where it drains and nothing is open on it any more.
    fn host_on(
        &mut self,
        over: Over,
        outcome: Outcome,
        told: &mut Entries,
    ) -> Result<(), OutOfMemory>
        ensures step { OnOk result ((s : State) → PartsStand [] self.old s → IsOver over s
            → MayFollow over.number outcome s
            → Does self.new (host_follows over.number outcome) s told.old told.new) }
    {
        let number = over.number;
        self.notice(HostEvent::Ended { number, outcome }, told)?;
        self.idle_behind(over, told)?;
        Ok(())
    }

    /// Behind the end of a request of the application processor its connection begins to close
    /// where it drains and nothing is open on it any more.
    fn idle_behind(&mut self, over: Over, told: &mut Entries) -> Result<(), OutOfMemory>
        ensures step { OnOk result ((s t : State) → PartsStand [] self.old s
            → ((k : ℕ) → MayIdle k s) → (is : IsOver over t)
            → Does self.new (idles_behind is.request) s told.old told.new) }
    {
        match over.side {
            Side::Far => Ok(()),
            Side::Ap => {
                self.close_drained(over.connection, told)?;
                Ok(())
            }
        }
    }

    /// A request was given up, and ended so.
    pub fn lose(
        &mut self,
        number: u64,
        outcome: Outcome,
        told: &mut Entries,
    ) -> Result<(), OutOfMemory>
        ensures step { OnOk result ((s : State) → PartsStand [] self.old s → IsAwaited number s
            → MayFollow number outcome s
            → Does self.new
            (tell (entry.Ended number outcome reading.Nothing) ▸ follows number outcome) s
            told.old told.new) }
    {
        let Some(about) = self.bus.about(number) else {
            return Ok(());
        };
        let over = Over {
            number,
            connection: about.connection,
            side: about.side,
        };
        self.end(over, outcome, Reading::Nothing, told)?;
        Ok(())
    }

    /// A connection that drains begins to close where no request of the application processor is
    /// open on it.
    pub fn close_drained(&mut self, connection: u64, told: &mut Entries) -> Result<(), OutOfMemory>
        ensures step { OnOk result ((s : State) → PartsStand [] self.old s
            → MayIdle connection s
            → Does self.new (idles connection) s told.old told.new) }
    {
        if !drains(self.host.state(connection)) {
            return Ok(());
        }
        if !self.bus.idle(connection) {
            return Ok(());
        }
        self.notice(HostEvent::Idle { connection }, told)?;
        Ok(())
    }
}

/// Whether a connection to a module in this state drains.
fn drains(state: Option<ConnState>) -> bool
    ensures { (o : Option Link) → state ≡ option_map (λ l. l.state) o
        → result ≡ holds_of (λ l. is_draining l.state) o }
{
    matches!(state, Some(ConnState::Draining))
}
