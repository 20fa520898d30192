//! Which events ask requests.

ghost use Rattle.std.specs.Prelude.{◌≡◌};
ghost use Rattle.gb_machine.specs.AskingEvents.{asks};

use gb_base::Event;

/// Whether an event asks a request of the application processor: it is a send or a bridge line.
pub fn asks(e: &Event) -> bool
    ensures { result ≡ asks e.now }
{
    matches!(e, Event::Send { .. } | Event::Bridge { .. })
}
