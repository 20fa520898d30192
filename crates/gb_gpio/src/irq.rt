//! Interrupt types of a line.

ghost use Rattle.std.specs.Prelude.{◌≡◌, true, false, IfSome, IfNone};
ghost use Rattle.gb_formats.specs.GpioDevice.{irq_fits, is_irq_type};
ghost use Rattle.gb_gpio.specs.Views.{irq_code};

/// When a new level of a line is an interrupt (in Linux's greybus_protocols.h
/// `GB_GPIO_IRQ_TYPE_..`).
#[derive(Clone, Copy)]
pub enum Irq {
    /// Never, 0.
    None,
    /// Where it rose from 0 to 1, 1.
    Rising,
    /// Where it fell from 1 to 0, 2.
    Falling,
    /// Where it rose or fell, 3.
    Both,
    /// Where it is 1, 4.
    High,
    /// Where it is 0, 8.
    Low,
}

impl Irq {
    /// The type of this number.
    pub fn of(code: u8) -> Option<Irq>
        ensures some { IfSome result (λ irq. (is_irq_type code ≡ true) × (irq_code irq ≡ code)) }
        ensures none { IfNone result (is_irq_type code ≡ false) }
    {
        match code {
            0 => Some(Irq::None),
            1 => Some(Irq::Rising),
            2 => Some(Irq::Falling),
            3 => Some(Irq::Both),
            4 => Some(Irq::High),
            8 => Some(Irq::Low),
            _ => None,
        }
    }

    /// Whether a level that was `old` and is `new` is an interrupt.
    pub fn fits(self, old: u8, new: u8) -> bool
        ensures { result ≡ irq_fits (irq_code self) old new }
    {
        let rose = old == 0 && new == 1;
        let fell = old == 1 && new == 0;
        match self {
            Irq::None => false,
            Irq::Rising => rose,
            Irq::Falling => fell,
            Irq::Both => rose || fell,
            Irq::High => new == 1,
            Irq::Low => new == 0,
        }
    }
}
