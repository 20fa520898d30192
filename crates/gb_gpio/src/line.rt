//! A line.

ghost use Rattle.std.specs.Prelude.{◌≡◌, true};
ghost use Rattle.gb_formats.specs.GpioDevice.{direction_of, direction_out, first_line, is_irq};
ghost use Rattle.gb_formats.specs.GpioDevice.{restarted_line, set_irq, set_value, value_of};
ghost use Rattle.gb_gpio.specs.Views.{at_line_of, change_of, gpio_line_of};

use crate::change::Change;
use crate::irq::Irq;
use gb_bridge_payload::INVALID;

/// A line.
#[derive(Clone, Copy)]
pub struct Line {
    /// It can be used.
    pub active: bool,
    /// Its direction is in, and out if not.
    pub input: bool,
    /// What it has while it is out, 0 or 1.
    pub value: u8,
    /// How long it is to be stable, in microseconds. Nothing reads it.
    pub debounce: u16,
    /// When a new level is an interrupt.
    pub irq: Irq,
    /// Its interrupts are masked.
    pub masked: bool,
    /// What comes from outside, 0 or 1.
    pub level: u8,
}

impl Line {
    /// A line in its first state, with this level.
    pub fn first(level: u8) -> Line
        ensures { gpio_line_of result ≡ first_line level }
    {
        Line {
            active: false,
            input: true,
            value: 0,
            debounce: 0,
            irq: Irq::None,
            masked: true,
            level,
        }
    }

    /// The line made active.
    pub fn activated(self) -> Line
        ensures { gpio_line_of result ≡ record (gpio_line_of self) { active = true } }
    {
        Line {
            active: true,
            ..self
        }
    }

    /// Brings the line back to its first state, but that its level stays.
    pub fn restart(&mut self)
        ensures { gpio_line_of self.new ≡ restarted_line (gpio_line_of self.old) }
    {
        *self = self.restarted();
    }

    /// The line in its first state, whose level stays.
    pub fn restarted(self) -> Line
        ensures { gpio_line_of result ≡ restarted_line (gpio_line_of self) }
    {
        Line::first(self.level)
    }

    /// The line after a change. INVALID where the change can't be made.
    pub fn changed(self, change: Change) -> Result<Line, u8>
        requires { self.active ≡ true }
        ensures { change_of change (gpio_line_of self) ≡ at_line_of result }
    {
        match change {
            Change::In => Ok(self.turned_in()),
            Change::Out(value) => self.turned_out(value),
            Change::Value(value) => self.given(value),
            Change::Debounce(microseconds) => Ok(self.debounced(microseconds)),
            Change::Irq(code) => self.interrupted_by(code),
            Change::Mask(masked) => Ok(self.with_mask(masked)),
        }
    }

    /// The line with its direction in.
    pub fn turned_in(self) -> Line
        ensures { gpio_line_of result ≡ record (gpio_line_of self) { input = true } }
    {
        Line {
            input: true,
            ..self
        }
    }

    /// The line with its direction out and this value. INVALID where the value is above 1.
    pub fn turned_out(self, value: u8) -> Result<Line, u8>
        requires { self.active ≡ true }
        ensures { direction_out value (gpio_line_of self) ≡ at_line_of result }
    {
        if value > 1 {
            return Err(INVALID);
        }
        Ok(Line {
            input: false,
            value,
            ..self
        })
    }

    /// The line with this value. INVALID where it is in, or the value is above 1.
    pub fn given(self, value: u8) -> Result<Line, u8>
        requires { self.active ≡ true }
        ensures { set_value value (gpio_line_of self) ≡ at_line_of result }
    {
        if self.input || value > 1 {
            return Err(INVALID);
        }
        Ok(Line { value, ..self })
    }

    /// The line that is to be stable so many microseconds.
    pub fn debounced(self, microseconds: u16) -> Line
        ensures { gpio_line_of result ≡ record (gpio_line_of self) { debounce = microseconds } }
    {
        Line {
            debounce: microseconds,
            ..self
        }
    }

    /// The line with the interrupt type of this number. INVALID where there is none.
    pub fn interrupted_by(self, code: u8) -> Result<Line, u8>
        requires { self.active ≡ true }
        ensures { set_irq code (gpio_line_of self) ≡ at_line_of result }
    {
        let irq = Irq::of(code).ok_or(INVALID)?;
        Ok(Line { irq, ..self })
    }

    /// The line with its interrupts masked, or not.
    pub fn with_mask(self, masked: bool) -> Line
        ensures { gpio_line_of result ≡ record (gpio_line_of self) { masked = masked } }
    {
        Line { masked, ..self }
    }

    /// The number of its direction: 0 is out, 1 is in.
    pub fn direction(&self) -> u8
        ensures { result ≡ direction_of (gpio_line_of self.now) }
    {
        if self.input { 1 } else { 0 }
    }

    /// What a reader sees: the level of a line that is in, the value of one that is out.
    pub fn seen(&self) -> u8
        ensures { result ≡ value_of (gpio_line_of self.now) }
    {
        if self.input { self.level } else { self.value }
    }

    /// Whether this new level is an interrupt.
    pub fn interrupts(&self, new: u8) -> bool
        ensures { result ≡ is_irq (gpio_line_of self.now) new }
    {
        self.active && self.input && !self.masked && self.irq.fits(self.level, new)
    }
}
