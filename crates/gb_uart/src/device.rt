//! The UART device.

ghost use Rattle.std.specs.Prelude.{◌≡◌, ◌≤◌, [], IfOk, IsOk, length};
ghost use Rattle.gb_base.specs.Bytes.{AreFew};
ghost use Rattle.gb_bridge_payload.specs.Conditions.{IsUartAsk};
ghost use Rattle.gb_bridge_payload.specs.Views.{uart_ask_of};
ghost use Rattle.gb_formats.specs.Results.{most_payload};
ghost use Rattle.gb_formats.specs.UartDevice as formats;
ghost use Rattle.gb_formats.specs.UartRecords.{uart_ask_payload};

use gb_base::{Bytes, OutOfMemory, OwnAsk, OwnAsks, Served};
use gb_bridge_payload::{
    INVALID, MOST_PAYLOAD, OVERFLOW, PROTOCOL_BAD, SUCCESS, UartAsk, done, fault_result, refused,
};
use std::alloc::Global;
use std::marker::Model;

/// The most bytes that one request may send.
pub const MOST_SENT: usize = 2037;

/// How many bytes of a payload take no memory.
const FEW: usize = 16;

/// The UART device of a module (Greybus Specification, "UART Protocol"): an echo, which sends back
/// what it is sent. It keeps nothing between requests.
#[derive(Drop)]
pub struct Device {
    alloc: Global,
}

impl Model for Device {
    ghost use Rattle.std.specs.Prelude.{⊤};

    ghost Value = { ⊤ };

    ghost view = { λ _. tt };
}

impl Device {
    /// The device of a new module. It takes memory for its answers from `alloc`, and none yet.
    pub fn new(alloc: Global) -> Result<Device, OutOfMemory>
        ensures { IsOk result }
    {
        Ok(Device { alloc })
    }

    /// Brings the device back to its first state, in which it always is.
    pub fn restart(&mut self)
        ensures { self.new ≡ self.old }
    {}

    /// Serves a request of the application processor. Only where it sends bytes back
    /// it takes memory.
    pub fn serve(&mut self, kind: u8, payload: &[u8]) -> Result<Served, OutOfMemory>
        ensures step { IfOk result (λ served. served ≡ formats.uart_step kind payload.now) }
        ensures few { (formats.uart_step kind payload.now).asks ≡ [] → IsOk result }
    {
        match UartAsk::read_of_ap(kind, payload) {
            Ok(ask) => self.answer(ask),
            Err(fault) => Ok(refused(self.alloc, fault_result(fault))),
        }
    }

    /// The request by which the device tells of its serial lines. It takes no memory.
    pub fn state(&self, control: u8) -> Result<OwnAsk, OutOfMemory>
        ensures same { IfOk result (λ ask. ask ≡ formats.serial_told control) }
        ensures few { IsOk result }
    {
        self.own(UartAsk::SerialState { control })
    }

    /// Serves a request that was read.
    fn answer(&self, ask: UartAsk<'_>) -> Result<Served, OutOfMemory>
        ensures step { IfOk result (λ served. served ≡ formats.uart_asked (uart_ask_of ask.entry)) }
        ensures few { (formats.uart_asked (uart_ask_of ask.entry)).asks ≡ [] → IsOk result }
    {
        match ask {
            UartAsk::SendData { bytes } => self.echo(bytes),
            UartAsk::SetLineCoding {
                format,
                parity,
                bits,
                flow,
                ..
            } => Ok(self.if_in_range(is_coding(format, parity, bits, flow))),
            UartAsk::SetControlLineState { control } => Ok(self.if_in_range(control <= 3)),
            UartAsk::SendBreak { state } => Ok(self.if_in_range(state <= 1)),
            UartAsk::FlushFifos { flags } => Ok(self.if_in_range(flags <= 3)),
            _ => Ok(refused(self.alloc, PROTOCOL_BAD)),
        }
    }

    /// Success where the values of a request are in range.
    fn if_in_range(&self, ok: bool) -> Served
        ensures { result ≡ formats.if_in_range ok }
    {
        if ok {
            done(self.alloc)
        } else {
            refused(self.alloc, INVALID)
        }
    }

    /// Sends bytes back. OVERFLOW where they are more than a request may send.
    fn echo(&self, bytes: &[u8]) -> Result<Served, OutOfMemory>
        ensures step { IfOk result (λ served. served ≡ formats.send_answer bytes.now) }
        ensures few { (formats.send_answer bytes.now).asks ≡ [] → IsOk result }
    {
        if bytes.len() > MOST_SENT {
            return Ok(refused(self.alloc, OVERFLOW));
        }
        Ok(Served {
            result: SUCCESS,
            payload: Bytes::new(self.alloc),
            asks: self.echo_asks(bytes)?,
        })
    }

    /// The requests that bytes are sent back with: the bytes, and credits for as many. None where
    /// there are no bytes.
    fn echo_asks(&self, bytes: &[u8]) -> Result<OwnAsks, OutOfMemory>
        requires { length bytes.now ≤ formats.most_sent }
        ensures same { IfOk result (λ asks. asks ≡ formats.echo_asks bytes.now) }
        ensures few { formats.echo_asks bytes.now ≡ [] → IsOk result }
    {
        let mut asks = OwnAsks::new(self.alloc);
        if !bytes.is_empty() {
            let count = bytes.len() as u16;
            asks.push(self.own(UartAsk::ReceiveData { flags: 0, bytes })?)?;
            asks.push(self.own(UartAsk::ReceiveCredits { count })?)?;
        }
        Ok(asks)
    }

    /// A request of the device's own, whose payload fits into a message.
    fn own(&self, ask: UartAsk<'_>) -> Result<OwnAsk, OutOfMemory>
        requires record { IsUartAsk (uart_ask_of ask) }
        requires room { length (uart_ask_payload (uart_ask_of ask)) ≤ most_payload }
        ensures same { IfOk result (λ own. own ≡ formats.uart_own (uart_ask_of ask.entry)) }
        ensures few { AreFew (uart_ask_payload (uart_ask_of ask.entry)) → IsOk result }
    {
        Ok(OwnAsk {
            kind: ask.kind(),
            payload: self.payload(ask)?,
            oneway: false,
        })
    }

    /// The payload of a request. Few bytes take no memory.
    fn payload(&self, ask: UartAsk<'_>) -> Result<Bytes, OutOfMemory>
        requires record { IsUartAsk (uart_ask_of ask) }
        requires room { length (uart_ask_payload (uart_ask_of ask)) ≤ most_payload }
        ensures same { IfOk result (λ bytes. bytes ≡ uart_ask_payload (uart_ask_of ask.entry)) }
        ensures few { AreFew (uart_ask_payload (uart_ask_of ask.entry)) → IsOk result }
    {
        let mut places = [0; FEW];
        match ask.write(&mut places) {
            Ok(count) => Ok(Bytes::from_front(self.alloc, places, count)),
            Err(_) => self.long_payload(ask),
        }
    }

    /// The payload of a request that has more than few bytes.
    #[inline(never)]
    fn long_payload(&self, ask: UartAsk<'_>) -> Result<Bytes, OutOfMemory>
        requires record { IsUartAsk (uart_ask_of ask) }
        requires room { length (uart_ask_payload (uart_ask_of ask)) ≤ most_payload }
        ensures { IfOk result (λ bytes. bytes ≡ uart_ask_payload (uart_ask_of ask.entry)) }
    {
        let mut out = [0; MOST_PAYLOAD];
        let Ok(size) = ask.write(&mut out) else {
            unreachable!()
        };
        let bytes = Bytes::from_slice(self.alloc, &out[..size])?;
        Ok(bytes)
    }
}

/// The device has this line coding.
fn is_coding(format: u8, parity: u8, bits: u8, flow: u8) -> bool
    ensures { result ≡ formats.is_coding format parity bits flow }
{
    format <= 2 && parity <= 4 && (5..=8).contains(&bits) && flow <= 1
}
