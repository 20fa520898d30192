//! What the answers to the requests of the sequences say.

ghost use Rattle.std.specs.Prelude.{◌≡◌, Ok, option_map};
ghost use Rattle.gb_formats.specs.ControlRecords.{read_control_reply};
ghost use Rattle.gb_formats.specs.Manifest.{refusal};
ghost use Rattle.gb_machine.specs.SequenceSteps.{is_reply, is_svc_reply};
ghost use Rattle.gb_machine.specs.Sequences.{payload_in, size_in};
ghost use Rattle.gb_manifest.specs.Values.{refused_of};
ghost use Rattle.gb_payload.specs.Views.{svc_reply_of};

use crate::payloads::{asks_control, kind};
use gb_base::{Bytes, Outcome, SequenceStep};
use gb_manifest::{Refused, check};
use gb_payload::control_kinds::GET_MANIFEST_SIZE;
use gb_payload::{ControlReply, GREYBUS, SUCCESS, SvcReply};

/// The payload of an answer of success.
pub fn payload_in(outcome: Outcome) -> Option<Bytes>
    ensures { result ≡ payload_in outcome }
{
    let Outcome::Answered { result, payload } = outcome else {
        return None;
    };
    if result == SUCCESS {
        Some(payload)
    } else {
        None
    }
}

/// A step goes on with this payload of an answer of success.
pub fn is_reply(step: SequenceStep, payload: &[u8]) -> bool
    ensures { result ≡ is_reply step payload.now }
{
    if asks_control(step) {
        return ControlReply::read(kind(step), payload).is_ok();
    }
    match SvcReply::read(kind(step), payload) {
        Ok(reply) => is_svc_reply(reply),
        Err(_) => false,
    }
}

/// A sequence goes on with this answer of the supervisory controller.
fn is_svc_reply(reply: SvcReply) -> bool
    ensures { result ≡ is_svc_reply (Ok (svc_reply_of reply)) }
{
    match reply {
        SvcReply::VsysEnable { result } => result == SUCCESS,
        SvcReply::RefclkEnable { result } => result == SUCCESS,
        SvcReply::UniproEnable { result } => result == SUCCESS,
        SvcReply::IntfActivate { status, kind } => status == SUCCESS && kind == GREYBUS,
        _ => true,
    }
}

/// The size of a manifest in bytes that an answer tells, 0 where it tells none.
pub fn size_in(payload: &[u8]) -> u16
    ensures { result ≡ size_in (read_control_reply 3 payload.now) }
{
    match ControlReply::read(GET_MANIFEST_SIZE, payload) {
        Ok(ControlReply::GetManifestSize { size }) => size,
        Ok(_) => 0,
        Err(_) => 0,
    }
}

/// Why bytes are no manifest, None where they are one.
pub fn refused_in(bytes: &[u8]) -> Option<Refused>
    ensures { option_map refused_of result ≡ refusal bytes.now }
{
    match check(bytes) {
        Ok(_) => None,
        Err(refused) => Some(refused),
    }
}
