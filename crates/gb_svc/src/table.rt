//! The table of the supervisory controller, as far as power levels and device ids decide it.

ghost use Rattle.std.specs.Prelude.{◌≡◌, ℕ, List};
ghost use Rattle.gb_formats.specs.SvcRecords as records;
ghost use Rattle.gb_machine.specs.State.{Port};
ghost use Rattle.gb_machine.specs.SvcTable.{svc_asked, svc_step};
ghost use Rattle.gb_payload.specs.Views.{svc_ask_of};
ghost use Rattle.gb_svc.specs.Served.{served_of};
ghost use Rattle.gb_switch.specs.Climbing.{Follows, asked_for};
ghost use Rattle.gb_switch.specs.Stands.{Stands};
ghost use Rattle.gb_switch.specs.declared.ladder.Ladder as code;

use crate::SvcServed;
use crate::answers::{answer, refusal, reply_to};
use gb_payload::{INVALID, NONEXISTENT, PROTOCOL_BAD, SvcAsk, SvcReply, fault_result};
use gb_switch::{Ladder, NotReady, Rung};

/// The interface of the application processor.
const AP_INTERFACE: u8 = 1;

/// The device id of the application processor.
const AP_DEVICE: u8 = 1;

/// Serves a request of the application processor (Greybus Specification, "SVC Protocol"). Create
/// and Destroy come exactly where a request to make or to take down a connection passes all that
/// power levels decide, and Unroute where a request to take down a route does.
pub fn serve(ladder: &mut Ladder, kind: u8, payload: &[u8]) -> SvcServed
    ensures step { (ports : List Port) → Stands ladder.old ports
        → Follows ladder.new (svc_step ports kind payload.now) (served_of result) }
{
    match SvcAsk::read_of_ap(kind, payload) {
        Ok(ask) => serve_ask(ladder, ask),
        Err(fault) => refusal(fault_result(fault)),
    }
}

/// Serves a request that was read.
fn serve_ask(ladder: &mut Ladder, ask: SvcAsk) -> SvcServed
    ensures step { (ports : List Port) → Stands ladder.old ports
        → Follows ladder.new (svc_asked ports (svc_ask_of ask)) (served_of result) }
{
    match ask {
        SvcAsk::VsysEnable { intf } => climb(ladder, intf, Rung::Vsys),
        SvcAsk::RefclkEnable { intf } => climb(ladder, intf, Rung::Refclk),
        SvcAsk::UniproEnable { intf } => climb(ladder, intf, Rung::Unipro),
        SvcAsk::IntfActivate { intf } => climb(ladder, intf, Rung::Active),
        SvcAsk::IntfDeviceId { intf, device } => climb(ladder, intf, Rung::Device(device)),
        SvcAsk::RouteCreate {
            intf1,
            dev1,
            intf2,
            dev2,
        } => route(ladder, intf1, dev1, intf2, dev2),
        SvcAsk::ConnCreate {
            intf1,
            cport1,
            intf2,
            cport2,
            ..
        } => create(ladder, intf1, cport1, intf2, cport2),
        SvcAsk::ConnDestroy {
            intf1,
            cport1,
            intf2,
            cport2,
        } => destroy(intf1, cport1, intf2, cport2),
        SvcAsk::RouteDestroy { intf1, intf2 } => unroute(ladder, intf1, intf2),
        SvcAsk::Ping => answer(&SvcReply::Ping),
        _ => refusal(PROTOCOL_BAD),
    }
}

/// An interface is to climb a rung.
fn climb(ladder: &mut Ladder, intf: u8, rung: Rung) -> SvcServed
    ensures step { (ports : List Port) → Stands ladder.old ports
        → Follows ladder.new (svc_asked ports (asked_for intf rung)) (served_of result) }
{
    match ladder.climb(intf, rung) {
        Ok(()) => answer(&reply_to(rung)),
        Err(NotReady::Below) => refusal(NONEXISTENT),
        Err(NotReady::Taken) => refusal(INVALID),
    }
}

/// A route is to be made between two interfaces, each given with its device id.
fn route(ladder: &mut Ladder, intf1: u8, dev1: u8, intf2: u8, dev2: u8) -> SvcServed
    ensures step { (ports : List Port) → Stands ladder.old ports
        → Follows ladder.new (svc_asked ports (records.SvcAsk.RouteCreate intf1 dev1 intf2 dev2))
        (served_of result) }
{
    if intf1 != AP_INTERFACE || dev1 != AP_DEVICE {
        return refusal(NONEXISTENT);
    }
    climb(ladder, intf2, Rung::Route(dev2))
}

/// A connection is to be wired.
fn create(ladder: &Ladder, intf1: u8, cport1: u16, intf2: u8, cport2: u16) -> SvcServed
    ensures step { (tc flags : ℕ) (ports : List Port) → Stands ladder.now ports
        → Follows ladder.now
        (svc_asked ports (records.SvcAsk.ConnCreate intf1 cport1 intf2 cport2 tc flags))
        (served_of result) }
{
    if intf1 != AP_INTERFACE || !ladder.routed(intf2) {
        return refusal(NONEXISTENT);
    }
    SvcServed::Create {
        ap: cport1,
        intf: intf2,
        cport: cport2,
    }
}

/// A connection is to be unwired.
fn destroy(intf1: u8, cport1: u16, intf2: u8, cport2: u16) -> SvcServed
    ensures step { (x : code.Ladder) (ports : List Port) → Stands x ports → Follows x
        (svc_asked ports (records.SvcAsk.ConnDestroy intf1 cport1 intf2 cport2))
        (served_of result) }
{
    if intf1 != AP_INTERFACE {
        return refusal(NONEXISTENT);
    }
    SvcServed::Destroy {
        ap: cport1,
        intf: intf2,
        cport: cport2,
    }
}

/// An interface is to lose its route.
fn unroute(ladder: &Ladder, intf1: u8, intf2: u8) -> SvcServed
    ensures step { (ports : List Port) → Stands ladder.now ports → Follows ladder.now
        (svc_asked ports (records.SvcAsk.RouteDestroy intf1 intf2)) (served_of result) }
{
    if intf1 != AP_INTERFACE || !ladder.routed(intf2) {
        return refusal(NONEXISTENT);
    }
    SvcServed::Unroute { intf: intf2 }
}
