//! Bridge lines and the answers to them.

ghost use Rattle.std.specs.Prelude.{◌≡◌, Some, None, Err, length};
ghost use Rattle.gb_base.specs.declared.interface.Link.{Link};
ghost use Rattle.gb_base.specs.declared.refusal.Refusal.TheVariants as why;
ghost use Rattle.gb_bridge_payload.specs.Serving.{BridgesAs};
ghost use Rattle.gb_formats.specs.Bridges.{bridge_answer, credits_taken, reading_of};
ghost use Rattle.gb_formats.specs.Results.{most_payload};
ghost use Rattle.gb_formats.specs.ValidEvents.{HasForm};
ghost use Rattle.gb_machine.specs.Host as machine;
ghost use Rattle.gb_machine.specs.Host.{link_of, with_link};
ghost use Rattle.gb_machine.specs.LineActions.{spent};

use crate::Host;
use gb_base::{BridgeAsk, Bridged, Reading, Refusal};
use gb_bridge_payload::BridgeFault;
use gb_payload::protocols::{GPIO, I2C, LOOPBACK, SPI, UART};

impl Host {
    ghost use Rattle.gb_host.specs.Bridging.{BridgesOn, reading_on};
    ghost use Rattle.gb_host.specs.Stands.{Stands};

    /// The request that a bridge line becomes on a connection: its type, and its payload at the
    /// front of `out`, which has 2,040 bytes. Else Unsupported, TooLarge or NoCredit, tried in this
    /// order. The connection of the supervisory controller has no bridge lines: Unsupported. It
    /// takes no memory. Condition: the connection is live.
    pub fn bridge(
        &self,
        connection: u64,
        ask: &BridgeAsk,
        out: &mut [u8],
    ) -> Result<Bridged, Refusal>
        requires room { length out.old ≡ most_payload }
        requires form { HasForm ask.now }
        ensures step { (h : machine.Host) (l : Link) → Stands self.now h
            → link_of connection h ≡ Some l → BridgesOn l ask.now out.old out.new result }
        ensures svc { (h : machine.Host) → Stands self.now h → link_of connection h ≡ None
            → result ≡ Err why.Unsupported }
    {
        let Some(link) = self.links.of(connection) else {
            return Err(Refusal::Unsupported);
        };
        let bridged = match written(link.protocol, ask, out) {
            Ok(bridged) => bridged,
            Err(BridgeFault::Unsupported) => return Err(Refusal::Unsupported),
            Err(BridgeFault::TooLarge) => return Err(Refusal::TooLarge),
        };
        if credits(ask) > usize::from(link.credits) {
            return Err(Refusal::NoCredit);
        }
        Ok(bridged)
    }

    /// The request of a bridge line was sent: a `uart send` takes the credits of its bytes, and
    /// other lines none. The same connection is pending. It takes no memory. Condition: the
    /// connection is live.
    pub fn sent(&mut self, connection: u64, ask: &BridgeAsk)
        ensures step { (h : machine.Host) (l : Link) → Stands self.old h
            → link_of connection h ≡ Some l
            → Stands self.new (with_link l.intf l.cport (spent ask.now) h) }
        ensures pending { self.new.pending ≡ self.old.pending }
    {
        let taken = credits(ask);
        if taken == 0 {
            return;
        }
        if let Some(link) = self.links.of(connection) {
            self.links.spend(link.intf, link.cport, taken);
        }
    }

    /// What an answer of success to a request of this type says. It takes no memory.
    pub fn reading(&self, connection: u64, kind: u8, payload: &[u8]) -> Reading
        ensures step { (h : machine.Host) → Stands self.now h
            → result ≡ reading_on (link_of connection h) kind payload.now }
    {
        match self.links.of(connection) {
            Some(link) => read(link.protocol, kind, payload),
            None => Reading::Nothing,
        }
    }
}

/// The credits that a bridge line takes: those of the bytes of a `uart send`.
fn credits(ask: &BridgeAsk) -> usize
    ensures { result ≡ credits_taken ask.now }
{
    match ask {
        BridgeAsk::UartSend { bytes } => bytes.items().len(),
        _ => 0,
    }
}

/// The request of a bridge line on a connection of this protocol.
fn written(protocol: u8, ask: &BridgeAsk, out: &mut [u8]) -> Result<Bridged, BridgeFault>
    requires room { length out.old ≡ most_payload }
    requires form { HasForm ask.now }
    ensures { BridgesAs (bridge_answer protocol ask.now) out.old out.new result }
{
    match protocol {
        GPIO => gb_gpio::bridge(ask, out),
        I2C => gb_i2c::bridge(ask, out),
        UART => gb_uart::bridge(ask, out),
        SPI => gb_spi::bridge(ask, out),
        LOOPBACK => gb_firmware::bridge(ask, out),
        _ => Err(BridgeFault::Unsupported),
    }
}

/// What an answer says on a connection of this protocol.
fn read(protocol: u8, kind: u8, payload: &[u8]) -> Reading
    ensures { result ≡ reading_of protocol kind payload.now }
{
    match protocol {
        GPIO => gb_gpio::reading(kind, payload),
        I2C => gb_i2c::reading(kind, payload),
        SPI => gb_spi::reading(kind, payload),
        _ => Reading::Nothing,
    }
}
