//! The credits of a UART connection.

ghost use Rattle.std.specs.Prelude.{◌≡◌, ◌≤◌};
ghost use Rattle.gb_formats.specs.UartDevice.{credits_added, credits_spent, most_credits};
ghost use Rattle.gb_uart.specs.Counting.{CountsAs};

use std::marker::Model;

/// The credits with which a connection begins, and which they never pass.
pub const MOST_CREDITS: u16 = 4096;

/// More bytes would be sent than there are credits. None were spent.
#[derive(Clone, Copy, PartialEq, Eq)]
pub struct NoCredit;

/// The credits would pass 4,096. None were added.
#[derive(Clone, Copy, PartialEq, Eq)]
pub struct TooMany;

/// How many bytes may still be sent to a UART before it gives more credits, 4,096 at most. It gives
/// them by RECEIVE_CREDITS (Greybus Specification, "UART Protocol").
#[derive(Drop)]
pub struct Credits {
    left: u16,
}

impl Model for Credits {
    ghost use Rattle.std.specs.Prelude.{◌≤◌, ℕ};
    ghost use Rattle.gb_formats.specs.UartDevice.{most_credits};

    ghost Value = { ℕ };

    ghost view = { λ credits. credits.left };

    ghost invariant = { λ credits. credits.left ≤ most_credits };
}

impl Credits {
    /// The credits of a new connection: 4,096.
    pub fn new() -> Credits
        ensures { result ≡ most_credits }
    {
        Credits { left: MOST_CREDITS }
    }

    /// Takes the credits of `n` bytes. NoCredit exactly where there are fewer, and they are
    /// then as before.
    pub fn spend(&mut self, n: u16) -> Result<(), NoCredit>
        ensures { CountsAs (credits_spent self.old n) self.old self.new result }
    {
        if n > self.left {
            return Err(NoCredit);
        }
        self.left -= n;
        Ok(())
    }

    /// Gives `n` credits back. TooMany exactly where they would pass 4,096, and they are
    /// then as before.
    pub fn add(&mut self, n: u16) -> Result<(), TooMany>
        ensures { CountsAs (credits_added self.old n) self.old self.new result }
    {
        if n > MOST_CREDITS - self.left {
            return Err(TooMany);
        }
        self.left += n;
        Ok(())
    }

    /// How many credits are left.
    pub fn left(&self) -> u16
        ensures value { result ≡ self.now }
        ensures bound { self.now ≤ most_credits }
    {
        self.left
    }
}
