//! The lines of a made script that are drawn.

ghost use Rattle.std.specs.Prelude.{◌≡◌, ◌≤◌, ◌+◌, ◌/◌, ◌%◌, [], ◌∷◌, IfOk, Some};
ghost use Rattle.gb_base.specs.declared.bridge.BridgeAsk.TheVariants as ask;
ghost use Rattle.gb_base.specs.declared.bridge.I2cOp.TheVariants as i2c;
ghost use Rattle.gb_base.specs.declared.event.Event.TheVariants as event;
ghost use Rattle.gb_formats.specs.I2cDevice.{i2c_address};
ghost use Rattle.gb_formats.specs.Made.{made_by, made_name};

use gb_base::{BridgeAsk, Bytes, End, Event, I2cOp, I2cOps, Name, OutOfMemory, Word};
use gb_bridge_payload::gpio_kinds::ACTIVATE;
use std::alloc::Global;

/// The address of the memory of the I2C adapter.
const I2C_ADDRESS: u8 = 0x50;

/// The row of the table of lines, 0 to 7.
pub fn row(draw: u64) -> u64
    ensures { result ≡ draw % 8 }
{
    draw % 8
}

/// The interface of a line, 2 to 5.
fn intf(draw: u64) -> u8
    ensures { result ≡ 2 + draw / 8 % 4 }
{
    (2 + draw / 8 % 4) as u8
}

/// The value of a line, 0 to 7.
fn value(draw: u64) -> u8
    ensures { result ≡ draw / 32 % 8 }
{
    (draw / 32 % 8) as u8
}

/// Line `k` of the table, by what is drawn for it. Line `named` is the last before it that
/// names a request.
#[inline(always)]
pub fn by_row(alloc: Global, k: u32, named: u32, draw: u64) -> Result<Event, OutOfMemory>
    requires line { k ≤ 20000 }
    requires named { named ≤ 20000 }
    ensures { IfOk result
        (λ e. e ≡ made_by k named (draw % 8) (2 + draw / 8 % 4) (draw / 32 % 8)) }
{
    let (row, intf, value) = (row(draw), intf(draw), value(draw));
    if row <= 1 {
        return Ok(activate(k, intf, value));
    }
    if row == 2 {
        return transfer(alloc, k, intf, value);
    }
    if row == 3 {
        return send(alloc, k, intf, value);
    }
    if row == 4 {
        return Ok(Event::Settle { most: 5 });
    }
    if row == 5 {
        return Ok(Event::Cancel { name: name(named) });
    }
    if row == 6 {
        return Ok(Event::Tick { millis: 200 });
    }
    let at = End::Module { intf, cport: 1 };
    Ok(Event::Deliver { at })
}

/// `gpio @nk I 1 activate v`.
fn activate(k: u32, intf: u8, value: u8) -> Event
    requires { k ≤ 20000 }
    ensures { result ≡ event.Bridge (made_name k) intf 1 (ask.Gpio 0x03 value 0) }
{
    Event::Bridge {
        name: name(k),
        intf,
        cport: 1,
        ask: BridgeAsk::Gpio {
            kind: ACTIVATE,
            line: value,
            value: 0,
        },
    }
}

/// `i2c @nk I 2 transfer w:50:0v r:50:4`.
fn transfer(alloc: Global, k: u32, intf: u8, value: u8) -> Result<Event, OutOfMemory>
    requires { k ≤ 20000 }
    ensures { IfOk result (λ e. e ≡ event.Bridge (made_name k) intf 2
        (ask.I2cTransfer (i2c.Put i2c_address (value ∷ []) ∷ i2c.Get i2c_address 4 ∷ []))) }
{
    let mut ops = I2cOps::new(alloc);
    ops.push(I2cOp::Put {
        addr: I2C_ADDRESS,
        bytes: Bytes::from_slice(alloc, &[value])?,
    })?;
    ops.push(I2cOp::Get {
        addr: I2C_ADDRESS,
        len: 4,
    })?;
    Ok(Event::Bridge {
        name: name(k),
        intf,
        cport: 2,
        ask: BridgeAsk::I2cTransfer { ops },
    })
}

/// `uart @nk I 4 send 0v`.
fn send(alloc: Global, k: u32, intf: u8, value: u8) -> Result<Event, OutOfMemory>
    requires { k ≤ 20000 }
    ensures { IfOk result (λ e. e ≡ event.Bridge (made_name k) intf 4 (ask.UartSend (value ∷ []))) }
{
    let bytes = Bytes::from_slice(alloc, &[value])?;
    Ok(Event::Bridge {
        name: name(k),
        intf,
        cport: 4,
        ask: BridgeAsk::UartSend { bytes },
    })
}

/// `nk`: `n` and the number of a line.
fn name(k: u32) -> Name
    requires { k ≤ 20000 }
    ensures { result ≡ made_name k }
{
    let Some(word) = word(k) else { unreachable!() };
    Name { who: 0, word }
}

/// The word of that name, by its digits: at most five.
fn word(k: u32) -> Option<Word>
    requires { k ≤ 20000 }
    ensures { result ≡ Some (made_name k).word }
{
    let tens = k / 10;
    if tens == 0 {
        return Word::from_bytes(&[b'n', digit(k)]);
    }
    let hundreds = tens / 10;
    if hundreds == 0 {
        return Word::from_bytes(&[b'n', digit(tens), digit(k)]);
    }
    let thousands = hundreds / 10;
    if thousands == 0 {
        return Word::from_bytes(&[b'n', digit(hundreds), digit(tens), digit(k)]);
    }
    let ten_thousands = thousands / 10;
    if ten_thousands == 0 {
        return Word::from_bytes(&[
            b'n',
            digit(thousands),
            digit(hundreds),
            digit(tens),
            digit(k),
        ]);
    }
    Word::from_bytes(&[
        b'n',
        digit(ten_thousands),
        digit(thousands),
        digit(hundreds),
        digit(tens),
        digit(k),
    ])
}

/// The byte of a number's last digit.
fn digit(number: u32) -> u8
    ensures { result ≡ 48 + number % 10 }
{
    b'0' + (number % 10) as u8
}
