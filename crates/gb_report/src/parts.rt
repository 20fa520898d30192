//! The parts of lines that several kinds of entry share.

ghost use Rattle.std.specs.Prelude.{◌≡◌};
ghost use Rattle.gb_formats.specs.Bytes.{hex_text};
ghost use Rattle.gb_formats.specs.Texts.{answer_text};

use crate::digits::{Digits, Hex};
use crate::part::{Part, parts};
use gb_base::{Bytes, End, LineReason, OutOfMemory, Outcome, RawFault, Reading, WireFault};
use gb_payload::SUCCESS;

/// An end with the space before it, shown as ` svc`, ` ap A` or ` I C`.
impl Part for End {
    ghost use Rattle.std.specs.Prelude.{◌++◌, codes};
    ghost use Rattle.gb_formats.specs.Texts.{end_text};

    ghost text = { λ e. codes " " ++ end_text e };

    #[inline(always)]
    fn append_to(&self, line: &mut String) -> Result<(), OutOfMemory> {
        match self {
            End::Ap(a) => parts!(" ap ", a).append_to(line),
            End::Svc => " svc".append_to(line),
            End::Module { intf, cport } => parts!(" ", intf, " ", cport).append_to(line),
        }
    }
}

/// The end that a message goes to, shown as ` > svc`, ` > ap A` or ` > I C`.
#[derive(Clone, Copy)]
struct Receiver(End);

impl Part for Receiver {
    ghost use Rattle.std.specs.Prelude.{◌++◌, codes};
    ghost use Rattle.gb_formats.specs.Texts.{end_text};

    ghost text = { λ r. codes " > " ++ end_text r.0 };

    #[inline(always)]
    fn append_to(&self, line: &mut String) -> Result<(), OutOfMemory> {
        match self.0 {
            End::Ap(a) => parts!(" > ap ", a).append_to(line),
            End::Svc => " > svc".append_to(line),
            End::Module { intf, cport } => parts!(" > ", intf, " ", cport).append_to(line),
        }
    }
}

/// The way of a message with the space before it, shown as ` FROM > TO`.
#[derive(Clone, Copy)]
pub struct Way(pub End, pub End);

impl Part for Way {
    ghost use Rattle.std.specs.Prelude.{◌++◌, codes};
    ghost use Rattle.gb_formats.specs.Texts.{way_text};

    ghost text = { λ w. codes " " ++ way_text w.0 w.1 };

    #[inline(always)]
    fn append_to(&self, line: &mut String) -> Result<(), OutOfMemory> {
        parts!(&self.0, Receiver(self.1)).append_to(line)
    }
}

/// The number of a request, shown as `#N`, and as `raw` where there is none.
#[derive(Clone, Copy)]
pub struct Item(pub Option<u64>);

impl Part for Item {
    ghost use Rattle.gb_formats.specs.Texts.{item_text};

    ghost text = { λ i. item_text i.0 };

    #[inline(always)]
    fn append_to(&self, line: &mut String) -> Result<(), OutOfMemory> {
        match self.0 {
            Some(n) => parts!("#", n).append_to(line),
            None => "raw".append_to(line),
        }
    }
}

/// The number of a reply, shown as `reply #N`, and as `reply raw` where there is none.
#[derive(Clone, Copy)]
pub struct Reply(pub Option<u64>);

impl Part for Reply {
    ghost use Rattle.std.specs.Prelude.{◌++◌, codes};
    ghost use Rattle.gb_formats.specs.Texts.{item_text};

    ghost text = { λ r. codes "reply " ++ item_text r.0 };

    #[inline(always)]
    fn append_to(&self, line: &mut String) -> Result<(), OutOfMemory> {
        match self.0 {
            Some(n) => parts!("reply #", n).append_to(line),
            None => "reply raw".append_to(line),
        }
    }
}

/// A message that was dropped, shown as `#N ask`, `#N reply` or `raw`.
#[derive(Clone, Copy)]
pub struct Dropped(pub Option<u64>, pub bool);

impl Part for Dropped {
    ghost use Rattle.gb_formats.specs.Texts.{dropped_text};

    ghost text = { λ d. dropped_text d.0 d.1 };

    fn append_to(&self, line: &mut String) -> Result<(), OutOfMemory> {
        match self.0 {
            None => "raw".append_to(line),
            Some(n) => {
                let what = if self.1 { " reply" } else { " ask" };
                parts!("#", n, what).append_to(line)
            }
        }
    }
}

/// The size of a message, with its bytes where `hex` is wanted.
#[derive(Clone, Copy)]
pub struct Size<'a> {
    pub hex: bool,
    pub size: u16,
    pub bytes: &'a Bytes,
}

impl<'a> Part for Size<'a> {
    ghost use Rattle.gb_formats.specs.Texts.{size_text};

    ghost text = { λ s. size_text s.hex s.size s.bytes.now };

    #[inline(always)]
    fn append_to(&self, line: &mut String) -> Result<(), OutOfMemory> {
        if self.hex {
            parts!(self.size, " ", Digits(self.bytes.items())).append_to(line)
        } else {
            self.size.append_to(line)
        }
    }
}

/// The mark behind an ask that is lost, shown as ` lost`, and as nothing where it isn't.
#[derive(Clone, Copy)]
pub struct Lost(pub bool);

impl Part for Lost {
    ghost use Rattle.gb_formats.specs.Texts.{lost_text};

    ghost text = { λ l. lost_text l.0 };

    #[inline(always)]
    fn append_to(&self, line: &mut String) -> Result<(), OutOfMemory> {
        if self.0 {
            " lost".append_to(line)
        } else {
            Ok(())
        }
    }
}

/// How a request ended, with the space before it.
impl Part for Outcome {
    ghost use Rattle.std.specs.Prelude.{◌++◌, codes};
    ghost use Rattle.gb_formats.specs.Texts.{outcome_text};

    ghost text = { λ o. codes " " ++ outcome_text o };

    fn append_to(&self, line: &mut String) -> Result<(), OutOfMemory> {
        match self {
            Outcome::Answered {
                result: code,
                payload,
            } => {
                let answer = answer_of(*code, payload);
                if answer.is_empty() {
                    parts!(" answered ", Hex(*code), " -").append_to(line)
                } else {
                    parts!(" answered ", Hex(*code), " ", Digits(answer)).append_to(line)
                }
            }
            Outcome::Cancelled => " cancelled".append_to(line),
            Outcome::Timeout => " timeout".append_to(line),
            Outcome::Disconnected => " disconnected".append_to(line),
            Outcome::Sent => " sent".append_to(line),
        }
    }
}

/// The bytes of an answer that are shown: its payload counts only where the result is success.
fn answer_of(code: u8, payload: &Bytes) -> &[u8]
    ensures { hex_text result.now ≡ answer_text code payload.now }
{
    if code == SUCCESS {
        payload.items()
    } else {
        &[]
    }
}

/// What an answer says, shown behind it.
impl Part for Reading {
    ghost use Rattle.gb_formats.specs.Texts.{reading_text};

    ghost text = { reading_text };

    fn append_to(&self, line: &mut String) -> Result<(), OutOfMemory> {
        match self {
            Reading::Nothing => Ok(()),
            Reading::Number(n) => parts!(" = ", n).append_to(line),
            Reading::Out => " = out".append_to(line),
            Reading::In => " = in".append_to(line),
            Reading::Bad => " = bad".append_to(line),
        }
    }
}

/// How a download ended: with so many bytes that the device keeps, or it failed.
#[derive(Clone, Copy)]
pub struct Downloaded(pub Option<u32>);

impl Part for Downloaded {
    ghost use Rattle.gb_formats.specs.Texts.{download_text};

    ghost text = { λ d. download_text d.0 };

    fn append_to(&self, line: &mut String) -> Result<(), OutOfMemory> {
        match self.0 {
            Some(size) => parts!("done ", size).append_to(line),
            None => "failed".append_to(line),
        }
    }
}

/// Why bytes don't begin with a message.
impl Part for WireFault {
    ghost use Rattle.gb_formats.specs.Texts.{wire_fault_text};

    ghost text = { wire_fault_text };

    fn append_to(&self, line: &mut String) -> Result<(), OutOfMemory> {
        match self {
            WireFault::Short { need } => parts!("short ", need).append_to(line),
            WireFault::SizeBelowEight { size } => parts!("size ", size).append_to(line),
            WireFault::RequestResult { result: code } => {
                parts!("result ", Hex(*code)).append_to(line)
            }
        }
    }
}

/// Why raw bytes aren't one message.
impl Part for RawFault {
    ghost use Rattle.gb_formats.specs.Texts.{raw_fault_text};

    ghost text = { raw_fault_text };

    fn append_to(&self, line: &mut String) -> Result<(), OutOfMemory> {
        match self {
            RawFault::Wire(fault) => fault.append_to(line),
            RawFault::Extra { count } => parts!("extra ", count).append_to(line),
        }
    }
}

/// Why a line is bad.
impl Part for LineReason {
    ghost use Rattle.gb_formats.specs.Texts.{bad_text};

    ghost text = { bad_text };

    fn append_to(&self, line: &mut String) -> Result<(), OutOfMemory> {
        match self {
            LineReason::Long => "too long".append_to(line),
            LineReason::BadByte(at) => parts!("bad byte ", at).append_to(line),
            LineReason::BadWord(at) => parts!("bad word ", at).append_to(line),
            LineReason::MissingWord(at) => parts!("missing word ", at).append_to(line),
            LineReason::ExtraWord(at) => parts!("extra word ", at).append_to(line),
        }
    }
}
