//! Answers of the supervisory controller.

ghost use Rattle.std.specs.Prelude.{◌≡◌, []};
ghost use Rattle.gb_formats.specs.Results.{success};
ghost use Rattle.gb_formats.specs.SvcRecords.{svc_reply_payload};
ghost use Rattle.gb_machine.specs.SvcTable.{Answered};
ghost use Rattle.gb_payload.specs.Views.{svc_reply_of};
ghost use Rattle.gb_svc.specs.Served.{served_of};
ghost use Rattle.gb_switch.specs.Climbing.{told};

use crate::SvcServed;
use arrayvec::ArrayVec;
use gb_payload::{GREYBUS, SUCCESS, SvcReply};
use gb_switch::Rung;

/// The answer of success.
#[inline(always)]
pub fn answer(reply: &SvcReply) -> SvcServed
    ensures { served_of result ≡ Answered success (svc_reply_payload (svc_reply_of reply.now)) }
{
    let mut bytes = [0; 2];
    let Ok(size) = reply.write(&mut bytes) else {
        unreachable!()
    };
    let Ok(payload) = ArrayVec::try_from(&bytes[..size]) else {
        unreachable!()
    };
    SvcServed::Answer {
        result: SUCCESS,
        payload,
    }
}

/// An answer of a result alone.
pub fn refusal(code: u8) -> SvcServed
    ensures { served_of result ≡ Answered code [] }
{
    SvcServed::Answer {
        result: code,
        payload: ArrayVec::new(),
    }
}

/// The reply where an interface has climbed a rung.
pub fn reply_to(rung: Rung) -> SvcReply
    ensures { svc_reply_payload (svc_reply_of result) ≡ told rung }
{
    match rung {
        Rung::Vsys => SvcReply::VsysEnable { result: SUCCESS },
        Rung::Refclk => SvcReply::RefclkEnable { result: SUCCESS },
        Rung::Unipro => SvcReply::UniproEnable { result: SUCCESS },
        Rung::Active => SvcReply::IntfActivate {
            status: SUCCESS,
            kind: GREYBUS,
        },
        Rung::Device(_) => SvcReply::IntfDeviceId,
        Rung::Route(_) => SvcReply::RouteCreate,
    }
}
