//! The device.

ghost use Rattle.std.specs.Prelude.{◌≡◌, ◌≤◌, IfOk, IsOk, IsOkAnd};
ghost use Rattle.gb_bridge_payload.specs.Serving.{ServesAs};
ghost use Rattle.gb_bridge_payload.specs.Views.{gpio_ask_of, gpio_reply_of};
ghost use Rattle.gb_formats.specs.GpioDevice.{first_gpio, gpio_asked, gpio_level_set, gpio_step};
ghost use Rattle.gb_formats.specs.GpioDevice.{restarted_gpio};
ghost use Rattle.gb_formats.specs.GpioRecords.{gpio_reply_payload};
ghost use Rattle.gb_formats.specs.Results.{answer_of};
ghost use Rattle.gb_gpio.specs.Views.{lines_of};

use crate::deciding::decide;
use crate::effect::Effect;
use crate::line::Line;
use gb_base::{OutOfMemory, Served};
use gb_bridge_payload::{GpioAsk, GpioReply, answered, done, fault_result, refused};
use std::alloc::Global;
use std::marker::Model;

/// How many lines there are.
const LINES: usize = 8;

/// The GPIO device of a module (Greybus Specification, "GPIO Protocol"): eight lines, numbered from
/// 0. A contract sees the list of the lines.
#[derive(Drop)]
pub struct Device {
    alloc: Global,
    lines: [Line; LINES],
}

impl Model for Device {
    ghost use Rattle.std.specs.Prelude.{List};
    ghost use Rattle.gb_formats.specs.GpioDevice.{GpioLine};
    ghost use Rattle.gb_gpio.specs.Views.{lines_of};

    ghost Value = { List GpioLine };

    ghost view = { λ d. lines_of d.lines };
}

impl Device {
    /// A device in its first state: each line is inactive, in and masked, and all else is 0. It
    /// takes memory for its answers from `alloc`, and none yet.
    pub fn new(alloc: Global) -> Result<Device, OutOfMemory>
        ensures { IsOkAnd result (λ device. device ≡ first_gpio) }
    {
        Ok(Device {
            alloc,
            lines: [Line::first(0); LINES],
        })
    }

    /// Brings the device back to its first state, but that the levels from outside stay.
    pub fn restart(&mut self)
        ensures { self.new ≡ restarted_gpio self.old }
    {
        restart(&mut self.lines);
    }

    /// Serves a request of the application processor. Its answers have few bytes, so it never
    /// answers want of memory.
    pub fn serve(&mut self, kind: u8, payload: &[u8]) -> Result<Served, OutOfMemory>
        ensures step { ServesAs (gpio_step self.old kind payload.now) self.old self.new result }
        ensures few { IsOk result }
    {
        match GpioAsk::read_of_ap(kind, payload) {
            Ok(ask) => self.serve_ask(ask),
            Err(fault) => Ok(refused(self.alloc, fault_result(fault))),
        }
    }

    /// Serves a request that was read.
    fn serve_ask(&mut self, ask: GpioAsk) -> Result<Served, OutOfMemory>
        ensures step { ServesAs (gpio_asked self.old (gpio_ask_of ask)) self.old self.new result }
        ensures few { IsOk result }
    {
        match decide(&self.lines, ask) {
            Ok(Effect::Changes(which, line)) => {
                self.lines[which as usize] = line;
                Ok(done(self.alloc))
            }
            Ok(Effect::Tells(reply)) => tell(self.alloc, &reply),
            Err(code) => Ok(refused(self.alloc, code)),
        }
    }

    /// Sets the level of a line, from 0 to 7, from outside: 0 or 1. Answers the line where that is
    /// an interrupt: it is active, in and not masked, and its interrupt type fits.
    pub fn level(&mut self, line: u8, value: u8) -> Option<u8>
        requires line { line ≤ 7 }
        requires value { value ≤ 1 }
        ensures lines { self.new ≡ (gpio_level_set self.old line value).after }
        ensures irq { result ≡ (gpio_level_set self.old line value).irq }
    {
        let was = self.lines[line as usize];
        self.lines[line as usize] = Line {
            level: value,
            ..was
        };
        was.interrupts(value).then_some(line)
    }
}

/// Brings each line back to its first state, but that its level stays.
fn restart(lines: &mut [Line])
    ensures { lines_of lines.new ≡ restarted_gpio (lines_of lines.old) }
{
    for line in lines.iter_mut() {
        line.restart();
    }
}

/// The answer of success with this response, which has few bytes.
fn tell(alloc: Global, reply: &GpioReply) -> Result<Served, OutOfMemory>
    ensures same { IfOk result
        (λ served. served ≡ answer_of (gpio_reply_payload (gpio_reply_of reply.now))) }
    ensures few { IsOk result }
{
    let mut bytes = [0; 1];
    let Ok(size) = reply.write(&mut bytes) else {
        unreachable!()
    };
    answered(alloc, &bytes[..size])
}
