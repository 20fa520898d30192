//! What the forms of the bridged protocols share.

ghost use Rattle.std.specs.Prelude.{◌≡◌};
ghost use Rattle.gb_formats.specs.BridgeForms.{begins_with_at, bridging};
ghost use Rattle.gb_script.specs.Parts.{asking_of, bridging_of};
ghost use Rattle.gb_script.specs.Tells.{AsksFor, Tells};

use crate::rest::Rest;
use crate::{LineFault, gpio, i2c, loopback, spi, uart};
use gb_base::{BridgeAsk, Event, Name};
use std::alloc::Global;

/// A bridged protocol.
#[derive(Clone, Copy)]
pub enum Protocol {
    /// Lines of a GPIO device.
    Gpio,
    /// An I2C adapter.
    I2c,
    /// An SPI master.
    Spi,
    /// A serial port.
    Uart,
    /// A loopback device.
    Loopback,
}

/// Whether a word begins with `@`, as a name does.
pub fn begins_with_at(word: &[u8]) -> bool
    ensures { result ≡ begins_with_at word.now }
{
    word.first() == Some(&b'@')
}

/// `@x I C`, and what is asked by the protocol.
pub fn request(
    alloc: Global,
    rest: &Rest<'_>,
    who: u8,
    protocol: Protocol,
) -> Result<Option<Event>, LineFault>
    ensures { Tells result (bridging who rest.now (asking_of protocol)) }
{
    let (name, rest) = rest.name(who)?;
    request_of(alloc, name, &rest, protocol)
}

/// `I C`, and what is asked by the protocol, behind the name.
pub fn request_of(
    alloc: Global,
    name: Name,
    rest: &Rest<'_>,
    protocol: Protocol,
) -> Result<Option<Event>, LineFault>
    ensures { Tells result (bridging_of name rest.now (asking_of protocol)) }
{
    let (intf, cport, rest) = rest.intf_cport()?;
    let ask = asked(alloc, &rest, protocol)?;
    Ok(Some(Event::Bridge {
        name,
        intf,
        cport,
        ask,
    }))
}

/// What is asked by the protocol.
fn asked(alloc: Global, rest: &Rest<'_>, protocol: Protocol) -> Result<BridgeAsk, LineFault>
    ensures { AsksFor (asking_of protocol) rest.now result }
{
    match protocol {
        Protocol::Gpio => gpio::asked(rest),
        Protocol::I2c => i2c::asked(alloc, rest),
        Protocol::Spi => spi::asked(alloc, rest),
        Protocol::Uart => uart::asked(alloc, rest),
        Protocol::Loopback => loopback::asked(alloc, rest),
    }
}
