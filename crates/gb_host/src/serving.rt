//! The application processor as responder.

ghost use Rattle.std.specs.Prelude.{◌≡◌, [], IfOk, IsOk, None, Some};
ghost use Rattle.gb_base.specs.Bytes.{AreFew};
ghost use Rattle.gb_base.specs.declared.entry.Entry.TheVariants as entry;
ghost use Rattle.gb_bridge_payload.specs.Views.{gpio_ask_of, uart_ask_of};
ghost use Rattle.gb_formats.specs.Results as formats;
ghost use Rattle.gb_formats.specs.UartDevice.{credits_added};
ghost use Rattle.gb_machine.specs.Host as machine;
ghost use Rattle.gb_machine.specs.HostServing.{credited, host_answers, host_notices, host_refuses};
ghost use Rattle.gb_machine.specs.HostServing.{host_serves, host_tells, host_version, interrupted};
ghost use Rattle.gb_machine.specs.HostServing.{notified, served_on, serves_firmware, serves_gpio};
ghost use Rattle.gb_machine.specs.HostServing.{serves_svc, serves_uart, uart_notified};
ghost use Rattle.gb_payload.specs.Answers.{fault_of};
ghost use Rattle.gb_payload.specs.Views.{svc_ask_of};

use crate::{Host, HostServed};
use gb_base::{Bytes, Entry, HostEvent, Link, OutOfMemory, Served};
use gb_bridge_payload::{GpioAsk, INVALID, PROTOCOL_BAD, SUCCESS, UartAsk, fault_result};
use gb_payload::SvcAsk;
use gb_payload::protocols::{FIRMWARE, GPIO, UART};
use gb_uart::MOST_CREDITS;

/// The version of the SVC protocol: major, then minor.
const SVC_VERSION: [u8; 2] = [0, 1];

impl Host {
    ghost use Rattle.gb_host.specs.Serving.{IsSmallServed, IsSmallTold, ServesAs, served_of};
    ghost use Rattle.gb_host.specs.Stands.{Stands, host_of};

    /// Serves a request on a connection to a module, or on that of the supervisory controller.
    /// Only an answer or data of more than 16 bytes takes memory, and an image that is lent. After
    /// want of memory nothing has changed, and at each answer the same connection is pending.
    pub fn serve(
        &mut self,
        connection: u64,
        kind: u8,
        payload: &[u8],
    ) -> Result<HostServed, OutOfMemory>
        ensures step { (h : machine.Host) → Stands self.old h
            → ServesAs (host_serves connection kind payload.now h) self.old self.new result }
        ensures few { (h : machine.Host) → Stands self.old h
            → IsSmallServed (host_serves connection kind payload.now h) h → IsOk result }
        ensures pending { self.new.pending ≡ self.old.pending }
    {
        match self.links.of(connection) {
            None => self.serve_svc(kind, payload),
            Some(link) => self.serve_link(link, kind, payload),
        }
    }

    /// Serves a request of a module.
    fn serve_link(
        &mut self,
        link: Link,
        kind: u8,
        payload: &[u8],
    ) -> Result<HostServed, OutOfMemory>
        ensures step { ServesAs (served_on (Some link) kind payload.now (host_of self.old))
            self.old self.new result }
        ensures few { IsSmallServed (served_on (Some link) kind payload.now (host_of self.old))
            (host_of self.old) → IsOk result }
        ensures pending { self.new.pending ≡ self.old.pending }
    {
        match link.protocol {
            GPIO => Ok(self.serve_gpio(link, kind, payload)),
            UART => self.serve_uart(link, kind, payload),
            FIRMWARE => self.serve_firmware(link, kind, payload),
            _ => Ok(self.refuses(PROTOCOL_BAD)),
        }
    }

    /// Serves a request of the supervisory controller.
    #[inline(never)]
    fn serve_svc(&self, kind: u8, payload: &[u8]) -> Result<HostServed, OutOfMemory>
        ensures step { IfOk result
            (λ s. serves_svc kind payload.now (host_of self.now) ≡ served_of s self.now) }
        ensures few { IsOk result }
    {
        match SvcAsk::read_of_svc(kind, payload) {
            Ok(ask) => self.notified(ask),
            Err(fault) => Ok(self.refuses(fault_result(fault))),
        }
    }

    /// Serves a request of the supervisory controller that was read.
    fn notified(&self, ask: SvcAsk) -> Result<HostServed, OutOfMemory>
        ensures step { IfOk result
            (λ s. notified (svc_ask_of ask) (host_of self.now) ≡ served_of s self.now) }
        ensures few { IsOk result }
    {
        match ask {
            SvcAsk::ProtocolVersion { .. } => self.version(),
            SvcAsk::Hello { .. } => Ok(self.refuses(SUCCESS)),
            SvcAsk::ModuleInserted { primary, count, .. } => {
                Ok(self.notices(HostEvent::Inserted { primary, count }))
            }
            SvcAsk::ModuleRemoved { primary } => {
                Ok(self.notices(HostEvent::Removed { primary }))
            }
            _ => Ok(self.refuses(PROTOCOL_BAD)),
        }
    }

    /// Answers the version of the SVC protocol.
    fn version(&self) -> Result<HostServed, OutOfMemory>
        ensures step { IfOk result (λ s. host_answers host_version (host_of self.now)
            ≡ served_of s self.now) }
        ensures few { IsOk result }
    {
        Ok(HostServed {
            result: SUCCESS,
            payload: Bytes::from_slice(self.alloc, &SVC_VERSION)?,
            tell: None,
            then: None,
        })
    }

    /// Serves a request of a GPIO: an interrupt is told.
    #[inline(never)]
    fn serve_gpio(&self, link: Link, kind: u8, payload: &[u8]) -> HostServed
        ensures { serves_gpio link kind payload.now (host_of self.now)
            ≡ served_of result self.now }
    {
        match GpioAsk::read_of_module(kind, payload) {
            Ok(GpioAsk::IrqEvent { which }) => self.tells(Entry::Irq {
                intf: link.intf,
                cport: link.cport,
                line: which,
            }),
            Ok(_) => self.refuses(PROTOCOL_BAD),
            Err(fault) => self.refuses(fault_result(fault)),
        }
    }

    /// Serves a request of a UART.
    #[inline(never)]
    fn serve_uart(
        &mut self,
        link: Link,
        kind: u8,
        payload: &[u8],
    ) -> Result<HostServed, OutOfMemory>
        ensures step { ServesAs (serves_uart link kind payload.now (host_of self.old))
            self.old self.new result }
        ensures few { IsSmallTold (serves_uart link kind payload.now (host_of self.old)).told
            → IsOk result }
        ensures pending { self.new.pending ≡ self.old.pending }
    {
        match UartAsk::read_of_module(kind, payload) {
            Ok(ask) => self.uart_notified(link, ask),
            Err(fault) => Ok(self.refuses(fault_result(fault))),
        }
    }

    /// Serves a request of a UART that was read: data, its serial state, or credits that come back.
    fn uart_notified(&mut self, link: Link, ask: UartAsk<'_>) -> Result<HostServed, OutOfMemory>
        ensures step { ServesAs (uart_notified link (uart_ask_of ask.entry) (host_of self.old))
            self.old self.new result }
        ensures few { IsSmallTold
            (uart_notified link (uart_ask_of ask.entry) (host_of self.old)).told → IsOk result }
        ensures pending { self.new.pending ≡ self.old.pending }
    {
        match ask {
            UartAsk::ReceiveData { bytes, .. } => self.received(link, bytes),
            UartAsk::SerialState { control } => Ok(self.tells(Entry::Serial {
                intf: link.intf,
                cport: link.cport,
                control,
            })),
            UartAsk::ReceiveCredits { count } => Ok(self.credited(link, count)),
            _ => Ok(self.refuses(PROTOCOL_BAD)),
        }
    }

    /// Data came.
    fn received(&self, link: Link, bytes: &[u8]) -> Result<HostServed, OutOfMemory>
        ensures step { IfOk result (λ s. host_tells (entry.Received link.intf link.cport bytes.now)
            (host_of self.now) ≡ served_of s self.now) }
        ensures few { AreFew bytes.now → IsOk result }
    {
        let bytes = Bytes::from_slice(self.alloc, bytes)?;
        Ok(self.tells(Entry::Received {
            intf: link.intf,
            cport: link.cport,
            bytes,
        }))
    }

    /// Credits come back, unless they would be more than 4,096.
    fn credited(&mut self, link: Link, count: u16) -> HostServed
        ensures step { credited link (credits_added link.credits count) (host_of self.old)
            ≡ served_of result self.new }
        ensures pending { self.new.pending ≡ self.old.pending }
    {
        let total = u32::from(link.credits) + u32::from(count);
        if total > u32::from(MOST_CREDITS) {
            return self.refuses(INVALID);
        }
        let total = total as u16;
        self.links.set_credits(link.intf, link.cport, total);
        self.tells(Entry::Credits {
            intf: link.intf,
            cport: link.cport,
            total,
        })
    }

    /// Serves a request of a firmware device.
    #[inline(never)]
    fn serve_firmware(
        &mut self,
        link: Link,
        kind: u8,
        payload: &[u8],
    ) -> Result<HostServed, OutOfMemory>
        ensures step { ServesAs (serves_firmware link kind payload.now (host_of self.old))
            self.old self.new result }
        ensures few { IsSmallServed (serves_firmware link kind payload.now (host_of self.old))
            (host_of self.old) → IsOk result }
        ensures pending { self.new.pending ≡ self.old.pending }
    {
        let Served {
            result,
            payload,
            asks: _,
        } = self.images.serve(link.connection, kind, payload)?;
        Ok(HostServed {
            result,
            payload,
            tell: None,
            then: None,
        })
    }

    /// It answers a result alone.
    fn refuses(&self, code: u8) -> HostServed
        ensures { host_refuses code (host_of self.now) ≡ served_of result self.now }
    {
        HostServed {
            result: code,
            payload: Bytes::new(self.alloc),
            tell: None,
            then: None,
        }
    }

    /// It answers success, and something is told.
    fn tells(&self, told: Entry) -> HostServed
        ensures { host_tells told (host_of self.now) ≡ served_of result self.now }
    {
        HostServed {
            result: SUCCESS,
            payload: Bytes::new(self.alloc),
            tell: Some(told),
            then: None,
        }
    }

    /// It answers success, and takes notice of something.
    fn notices(&self, what: HostEvent) -> HostServed
        ensures { host_notices what (host_of self.now) ≡ served_of result self.now }
    {
        HostServed {
            result: SUCCESS,
            payload: Bytes::new(self.alloc),
            tell: None,
            then: Some(what),
        }
    }
}
