//! Which ends take what is delivered.

ghost use Rattle.std.specs.Prelude.{◌≡◌, Option, Some, List, option_map};
ghost use Rattle.gb_base.specs.declared.end.Side.TheVariants as side;
ghost use Rattle.gb_base.specs.declared.interface.Link.{Link};
ghost use Rattle.gb_invariants.specs.Facts.{Loose};
ghost use Rattle.gb_machine.specs.Arriving.{link_takes, takes};
ghost use Rattle.gb_machine.specs.Bus.{Place, place_of};
ghost use Rattle.gb_machine.specs.State.{State};
ghost use Rattle.gb_system.specs.Serving.{side_of};
ghost use Rattle.gb_system.specs.Stands.{PartsStand};

use crate::parties::Parties;
use gb_base::{ConnState, End};

impl Parties {
    /// Whether an end takes what is delivered there.
    #[inline(always)]
    pub fn takes(&self, at: End) -> bool
        ensures { (loose : List Loose) (s : State) (p : Place) → PartsStand loose self.now s
            → place_of at s.bus.connections ≡ Some p → side_of at ≡ p.side
            → result ≡ takes p.side p.connection s }
    {
        match at {
            End::Svc => true,
            End::Module { intf, cport } => self.modules.takes(intf, cport),
            End::Ap(_) => self.ap_takes(at),
        }
    }

    /// Whether an end of the application processor takes what is delivered there.
    #[inline(always)]
    fn ap_takes(&self, at: End) -> bool
        ensures { (loose : List Loose) (s : State) (p : Place) → PartsStand loose self.now s
            → place_of at s.bus.connections ≡ Some p → side.Ap ≡ p.side
            → result ≡ takes p.side p.connection s }
    {
        match self.bus.named(at) {
            Some(connection) => takes_in(self.host.state(connection)),
            None => true,
        }
    }
}

/// Whether the application processor takes on a connection to a module in this state. On that of
/// the supervisory controller, which has none, it always does.
fn takes_in(state: Option<ConnState>) -> bool
    ensures { (o : Option Link) → state ≡ option_map (λ l. l.state) o → result ≡ link_takes o }
{
    matches!(
        state,
        None | Some(ConnState::Opening | ConnState::Open | ConnState::Draining)
    )
}
