//! The words of refusals, reasons, stages and states.

ghost use Rattle.std.specs.Prelude.{◌≡◌};
ghost use Rattle.gb_formats.specs.Reasons.{reason_text, refusal_text};
ghost use Rattle.gb_formats.specs.Texts.{stage_text, state_text};

use gb_base::{ConnState, IntfStage, Reason, Refusal};

/// Why an event is refused.
pub fn refusal_name(why: Refusal) -> &'static str
    ensures { result.now ≡ refusal_text why }
{
    match why {
        Refusal::NoInterface => "NoInterface",
        Refusal::Occupied => "Occupied",
        Refusal::NotEnumerated => "NotEnumerated",
        Refusal::NoConnection => "NoConnection",
        Refusal::Closing => "Closing",
        Refusal::Failed => "Failed",
        Refusal::Unsupported => "Unsupported",
        Refusal::NoLabel => "NoLabel",
        Refusal::NoCport => "NoCport",
        Refusal::CportsSpent => "CportsSpent",
        Refusal::TooLarge => "TooLarge",
        Refusal::NoName => "NoName",
        Refusal::AlreadyEnded => "AlreadyEnded",
        Refusal::QueueEmpty => "QueueEmpty",
        Refusal::NotHeld => "NotHeld",
        Refusal::NoCredit => "NoCredit",
        Refusal::Full => "Full",
        Refusal::OutOfRange => "OutOfRange",
    }
}

/// Why a manifest is refused.
pub fn reason_name(why: Reason) -> &'static str
    ensures { result.now ≡ reason_text why }
{
    match why {
        Reason::ShortHeader => "short header",
        Reason::Size => "size",
        Reason::Version => "version",
        Reason::ShortDescriptor => "short descriptor",
        Reason::DescriptorSize => "descriptor size",
        Reason::DescriptorType => "descriptor type",
        Reason::DescriptorShort => "descriptor short",
        Reason::NoInterface => "no interface",
        Reason::SecondInterface => "second interface",
        Reason::StringId => "string id",
        Reason::StringTwice => "string twice",
        Reason::BundleTwice => "bundle twice",
        Reason::CportId => "cport id",
        Reason::CportTwice => "cport twice",
        Reason::CportBundle => "cport bundle",
        Reason::ControlCport => "control cport",
        Reason::VendorString => "vendor string",
        Reason::ProductString => "product string",
    }
}

/// The stage of an interface.
pub fn stage_name(stage: IntfStage) -> &'static str
    ensures { result.now ≡ stage_text stage }
{
    match stage {
        IntfStage::Enumerating => "enumerating",
        IntfStage::Enumerated => "enumerated",
        IntfStage::Failed => "failed",
        IntfStage::Removed => "removed",
    }
}

/// The state of a connection.
pub fn state_name(state: ConnState) -> &'static str
    ensures { result.now ≡ state_text state }
{
    match state {
        ConnState::Opening => "opening",
        ConnState::Open => "open",
        ConnState::Draining => "draining",
        ConnState::Closing => "closing",
        ConnState::Closed => "closed",
        ConnState::Failed => "failed",
    }
}
