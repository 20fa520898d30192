//! What is known of a plugged interface.

ghost use Rattle.std.specs.Prelude.{◌≡◌, ◌==◌};
ghost use Rattle.gb_switch.specs.Levels.{level_number, raised_to};

/// How far the power sequence of a plugged interface has come.
#[derive(Clone, Copy)]
pub enum Level {
    /// Its power is off.
    Off,
    /// It has power.
    Vsys,
    /// It has its reference clock.
    Refclk,
    /// It has its UniPro port.
    Unipro,
    /// It is active.
    Active,
    /// It has a device id.
    Named,
    /// A route leads to it.
    Routed,
}

impl Level {
    /// Its place in the sequence, from 0 to 6.
    pub fn number(self) -> u8
        ensures { result ≡ level_number self }
    {
        match self {
            Level::Off => 0,
            Level::Vsys => 1,
            Level::Refclk => 2,
            Level::Unipro => 3,
            Level::Active => 4,
            Level::Named => 5,
            Level::Routed => 6,
        }
    }
}

/// A plugged interface.
#[derive(Clone, Copy)]
pub struct Port {
    /// How far its power sequence has come.
    pub level: Level,
    /// Its device id, once it was given one.
    pub device: Option<u8>,
}

impl Port {
    /// It has at least this level.
    pub fn raised(self, level: Level) -> Port
        ensures { result ≡ raised_to level self }
    {
        if self.level.number() < level.number() {
            Port {
                level,
                device: self.device,
            }
        } else {
            self
        }
    }

    /// A route leads to it.
    pub fn is_routed(self) -> bool
        ensures { result ≡ (level_number self.level == 6) }
    {
        matches!(self.level, Level::Routed)
    }
}
