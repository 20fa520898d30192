//! What the supervisory controller decides on a request: its table, and what connections decide.

ghost use Rattle.std.specs.Prelude.{◌≡◌, []};
ghost use Rattle.gb_bus.specs.Stands.{Around};
ghost use Rattle.gb_machine.specs.Responding.{creates, destroys, svc_stepped, unroutes};
ghost use Rattle.gb_machine.specs.Serving.{plainly, success};
ghost use Rattle.gb_machine.specs.State.{State};
ghost use Rattle.gb_machine.specs.SvcTable.{svc_step};
ghost use Rattle.gb_machine.specs.Wiring.{is_wired_to, joining};
ghost use Rattle.gb_machine.specs.Ports.{level_of};
ghost use Rattle.std.specs.List.{list_any};
ghost use Rattle.gb_switch.specs.declared.ladder.Ladder as switch;
ghost use Rattle.gb_system.specs.declared.deciding.Behind.TheVariants as behind;
ghost use Rattle.gb_system.specs.Deciding.{BusAndPorts, Decides, answer_of};

use arrayvec::ArrayVec;
use gb_bridge_payload::{INVALID, NONEXISTENT, SUCCESS};
use gb_bus::Bus;
use gb_svc::SvcServed;
use gb_switch::{Ladder, NotRouted};

/// What the supervisory controller answers, and what it does after its reply.
#[derive(Drop)]
pub struct Decision {
    /// The result byte.
    pub result: u8,
    /// The payload.
    pub payload: ArrayVec<u8, 2>,
    /// What is done after the reply.
    pub behind: Behind,
}

/// What is done after a reply of the supervisory controller.
#[derive(Clone, Copy)]
pub enum Behind {
    /// Nothing more.
    Nothing,
    /// A connection is wired.
    Wire {
        /// Its number.
        connection: u64,
    },
    /// A connection is unwired, and the downloads fail whose requests ended so.
    Unwire {
        /// Its number.
        connection: u64,
    },
}

/// Decides on a request by the table of the supervisory controller. Connections decide whether one
/// is wired or unwired, and whether an interface loses its route.
pub fn decide(bus: &Bus, ladder: &mut Ladder, kind: u8, payload: &[u8]) -> Decision
    ensures step { (around : Around) (s : State) → BusAndPorts around bus.now ladder.old s
        → Decides ladder.new s (svc_stepped (svc_step s.ports kind payload.now) s) result }
{
    match gb_svc::serve(ladder, kind, payload) {
        SvcServed::Answer { result, payload } => Decision {
            result,
            payload,
            behind: Behind::Nothing,
        },
        SvcServed::Create { ap, intf, cport } => create(bus, ap, intf, cport),
        SvcServed::Destroy { ap, intf, cport } => destroy(bus, ap, intf, cport),
        SvcServed::Unroute { intf } => unroute(bus, ladder, intf),
    }
}

/// A connection is wired where it is there and isn't wired.
fn create(bus: &Bus, ap: u16, intf: u8, cport: u16) -> Decision
    ensures step { (around : Around) (s : State) (x : switch.Ladder)
        → BusAndPorts around bus.now x s
        → Decides x s (creates (joining ap intf cport s.bus)) result }
{
    let Some(connection) = bus.live(ap, intf, cport) else {
        return refusal(NONEXISTENT);
    };
    if bus.is_wired(connection) {
        return refusal(INVALID);
    }
    done(Behind::Wire { connection })
}

/// A connection is unwired where it is wired.
fn destroy(bus: &Bus, ap: u16, intf: u8, cport: u16) -> Decision
    ensures step { (around : Around) (s : State) (x : switch.Ladder)
        → BusAndPorts around bus.now x s
        → Decides x s (destroys (joining ap intf cport s.bus)) result }
{
    let Some(connection) = bus.live(ap, intf, cport) else {
        return refusal(NONEXISTENT);
    };
    if !bus.is_wired(connection) {
        return refusal(NONEXISTENT);
    }
    done(Behind::Unwire { connection })
}

/// An interface that is routed loses its route where no connection is wired to it.
fn unroute(bus: &Bus, ladder: &mut Ladder, intf: u8) -> Decision
    ensures step { (around : Around) (s : State) → BusAndPorts around bus.now ladder.old s
        → level_of intf s.ports ≡ 6 → Decides ladder.new s
        (unroutes (list_any (is_wired_to intf) s.bus.connections) intf s.ports) result }
{
    if bus.is_wired_to(intf) {
        return refusal(INVALID);
    }
    match ladder.unroute(intf) {
        Ok(()) => done(Behind::Nothing),
        Err(NotRouted) => refusal(NONEXISTENT),
    }
}

/// A result alone, and nothing after it.
fn refusal(code: u8) -> Decision
    ensures answer { answer_of result ≡ plainly code }
    ensures behind { result.behind ≡ behind.Nothing }
{
    Decision {
        result: code,
        payload: ArrayVec::new(),
        behind: Behind::Nothing,
    }
}

/// Success, and this after it.
fn done(behind: Behind) -> Decision
    ensures answer { answer_of result ≡ plainly success }
    ensures behind { result.behind ≡ behind }
{
    Decision {
        result: SUCCESS,
        payload: ArrayVec::new(),
        behind,
    }
}
