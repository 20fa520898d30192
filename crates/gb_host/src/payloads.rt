//! The types and payloads of the requests of the sequences.

ghost use Rattle.std.specs.Prelude.{◌≡◌, ◌≤◌, ℕ, false, length};
ghost use Rattle.gb_formats.specs.ControlRecords.{control_ask_payload};
ghost use Rattle.gb_formats.specs.SvcRecords.{svc_ask_payload};
ghost use Rattle.gb_host.specs.Asking.{target_of};
ghost use Rattle.gb_machine.specs.SequenceSteps as machine;
ghost use Rattle.gb_machine.specs.SequenceSteps.{asks_control, kind_of, payload_of};
ghost use Rattle.gb_payload.specs.Views.{control_ask_of, svc_ask_of};
ghost use Rattle.gb_payload.specs.declared.svc_ask.SvcAsk.TheVariants as svc_ask;

use gb_base::{Bytes, SequenceStep};
use gb_payload::{ControlAsk, SvcAsk, control_kinds, svc_kinds};
use std::alloc::Global;

/// The interface of the application processor, which is its device id too.
const AP: u8 = 1;

/// What the requests of a sequence speak of.
#[derive(Clone, Copy)]
pub struct Target {
    /// The interface, 2 to 31.
    pub intf: u8,
    /// The CPort of the module.
    pub cport: u16,
    /// The CPort of the application processor, 0 where there is none.
    pub ap: u16,
    /// The device id of the interface, 0 where it has none.
    pub device: u8,
}

/// A step's request goes to the module's Control CPort. The others go to
/// the supervisory controller.
pub fn asks_control(step: SequenceStep) -> bool
    ensures { result ≡ asks_control step }
{
    matches!(
        step,
        SequenceStep::AskVersion
            | SequenceStep::AskSize
            | SequenceStep::AskManifest
            | SequenceStep::TellConnected
            | SequenceStep::TellDisconnecting
            | SequenceStep::TellDisconnected
    )
}

/// A step's request speaks of a CPort of the application processor.
pub fn speaks_of_ap(step: SequenceStep) -> bool
    ensures { result ≡ false → (t : machine.Target) (ap : ℕ)
        → payload_of step (record t { ap = ap }) ≡ payload_of step t }
{
    matches!(
        step,
        SequenceStep::CreateControl
            | SequenceStep::CreateConnection
            | SequenceStep::DestroyConnection
    )
}

/// The type of a step's request.
pub fn kind(step: SequenceStep) -> u8
    ensures { result ≡ kind_of step }
{
    match step {
        SequenceStep::EnableVsys => svc_kinds::VSYS_ENABLE,
        SequenceStep::EnableRefclk => svc_kinds::REFCLK_ENABLE,
        SequenceStep::EnableUnipro => svc_kinds::UNIPRO_ENABLE,
        SequenceStep::Activate => svc_kinds::INTF_ACTIVATE,
        SequenceStep::GiveDevice => svc_kinds::INTF_DEVICE_ID,
        SequenceStep::CreateRoute => svc_kinds::ROUTE_CREATE,
        SequenceStep::CreateControl => svc_kinds::CONN_CREATE,
        SequenceStep::AskVersion => control_kinds::VERSION,
        SequenceStep::AskSize => control_kinds::GET_MANIFEST_SIZE,
        SequenceStep::AskManifest => control_kinds::GET_MANIFEST,
        SequenceStep::CreateConnection => svc_kinds::CONN_CREATE,
        SequenceStep::TellConnected => control_kinds::CONNECTED,
        SequenceStep::TellDisconnecting => control_kinds::DISCONNECTING,
        SequenceStep::TellDisconnected => control_kinds::DISCONNECTED,
        SequenceStep::DestroyConnection => svc_kinds::CONN_DESTROY,
    }
}

/// The payload of a step's request.
pub fn payload(alloc: Global, step: SequenceStep, target: Target) -> Bytes
    ensures { result ≡ payload_of step (target_of target) }
{
    let Target { intf, cport, .. } = target;
    match step {
        SequenceStep::EnableVsys => svc(alloc, SvcAsk::VsysEnable { intf }),
        SequenceStep::EnableRefclk => svc(alloc, SvcAsk::RefclkEnable { intf }),
        SequenceStep::EnableUnipro => svc(alloc, SvcAsk::UniproEnable { intf }),
        SequenceStep::Activate => svc(alloc, SvcAsk::IntfActivate { intf }),
        SequenceStep::GiveDevice => svc(alloc, device_id(target)),
        SequenceStep::CreateRoute => svc(alloc, route_create(target)),
        SequenceStep::CreateControl => svc(alloc, conn_create(target)),
        SequenceStep::AskVersion => control(alloc, ControlAsk::Version { major: 0, minor: 1 }),
        SequenceStep::AskSize => control(alloc, ControlAsk::GetManifestSize),
        SequenceStep::AskManifest => control(alloc, ControlAsk::GetManifest),
        SequenceStep::CreateConnection => svc(alloc, conn_create(target)),
        SequenceStep::TellConnected => control(alloc, ControlAsk::Connected { cport }),
        SequenceStep::TellDisconnecting => control(alloc, ControlAsk::Disconnecting { cport }),
        SequenceStep::TellDisconnected => control(alloc, ControlAsk::Disconnected { cport }),
        SequenceStep::DestroyConnection => svc(alloc, conn_destroy(target)),
    }
}

/// INTF_DEVICE_ID of an interface.
fn device_id(target: Target) -> SvcAsk
    ensures { result ≡ svc_ask.IntfDeviceId target.intf target.device }
{
    SvcAsk::IntfDeviceId {
        intf: target.intf,
        device: target.device,
    }
}

/// ROUTE_CREATE from the application processor to an interface.
fn route_create(target: Target) -> SvcAsk
    ensures { result ≡ svc_ask.RouteCreate 1 1 target.intf target.device }
{
    SvcAsk::RouteCreate {
        intf1: AP,
        dev1: AP,
        intf2: target.intf,
        dev2: target.device,
    }
}

/// CONN_CREATE between two CPorts, of traffic class 0 and with no flags.
fn conn_create(target: Target) -> SvcAsk
    ensures { result ≡ svc_ask.ConnCreate 1 target.ap target.intf target.cport 0 0 }
{
    SvcAsk::ConnCreate {
        intf1: AP,
        cport1: target.ap,
        intf2: target.intf,
        cport2: target.cport,
        tc: 0,
        flags: 0,
    }
}

/// CONN_DESTROY between two CPorts.
fn conn_destroy(target: Target) -> SvcAsk
    ensures { result ≡ svc_ask.ConnDestroy 1 target.ap target.intf target.cport }
{
    SvcAsk::ConnDestroy {
        intf1: AP,
        cport1: target.ap,
        intf2: target.intf,
        cport2: target.cport,
    }
}

/// The payload of a request of the SVC protocol of at most eight bytes.
fn svc(alloc: Global, ask: SvcAsk) -> Bytes
    requires { length (svc_ask_payload (svc_ask_of ask)) ≤ 8 }
    ensures { result ≡ svc_ask_payload (svc_ask_of ask) }
{
    let mut bytes = [0; 16];
    let Ok(size) = ask.write(&mut bytes) else {
        unreachable!()
    };
    Bytes::from_front(alloc, bytes, size)
}

/// The payload of a request of the Control protocol of at most two bytes.
fn control(alloc: Global, ask: ControlAsk) -> Bytes
    requires { length (control_ask_payload (control_ask_of ask)) ≤ 2 }
    ensures { result ≡ control_ask_payload (control_ask_of ask) }
{
    let mut bytes = [0; 16];
    let Ok(size) = ask.write(&mut bytes) else {
        unreachable!()
    };
    Bytes::from_front(alloc, bytes, size)
}
