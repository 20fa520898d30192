//! The forms on SPI.

ghost use Rattle.std.specs.Prelude.{◌≡◌, ◌≤◌, IfOk, length};
ghost use Rattle.gb_formats.specs.BridgeForms.{spi_asking, spi_op_word, spi_transfer};
ghost use Rattle.gb_script.specs.Parts.{spi_both_word, spi_device, spi_read_word, spi_write_word};
ghost use Rattle.gb_script.specs.Tells.{AsksFor};

use crate::LineFault;
use crate::hex_words::hex_word;
use crate::ops::{OpWord, operations};
use crate::rest::Rest;
use crate::values::number_word;
use crate::words::is;
use gb_base::{BridgeAsk, OutOfMemory, SpiOp};
use std::alloc::Global;

/// What an SPI line asks.
pub fn asked(alloc: Global, rest: &Rest<'_>) -> Result<BridgeAsk, LineFault>
    ensures { AsksFor spi_asking rest.now result }
{
    let (word, behind) = rest.next()?;
    if is(word, "config") {
        behind.end()?;
        Ok(BridgeAsk::SpiConfig)
    } else if is(word, "device") {
        device(&behind)
    } else if is(word, "transfer") {
        transfer(alloc, &behind)
    } else {
        Err(LineFault::Bad(rest.bad_word()))
    }
}

/// `S` behind `device`.
fn device(rest: &Rest<'_>) -> Result<BridgeAsk, LineFault>
    ensures { AsksFor spi_device rest.now result }
{
    let (select, rest) = rest.byte()?;
    rest.end()?;
    Ok(BridgeAsk::SpiDevice { select })
}

/// `S M` and any number of entries behind `transfer`.
fn transfer(alloc: Global, rest: &Rest<'_>) -> Result<BridgeAsk, LineFault>
    ensures { AsksFor spi_transfer rest.now result }
{
    let (select, rest) = rest.byte()?;
    let (mode, rest) = rest.byte()?;
    let ops = operations(alloc, rest)?;
    Ok(BridgeAsk::SpiTransfer { select, mode, ops })
}

impl OpWord for SpiOp {
    ghost meaning = { spi_op_word };

    fn read(alloc: Global, word: &[u8]) -> Result<Option<SpiOp>, OutOfMemory> {
        if word.get(1) != Some(&b':') {
            return Ok(None);
        }
        match word[0] {
            b'r' => Ok(read_word(word)),
            b'w' => write_word(alloc, word),
            b'x' => both_word(alloc, word),
            _ => Ok(None),
        }
    }
}

/// `r:LEN`.
fn read_word(word: &[u8]) -> Option<SpiOp>
    requires { 2 ≤ length word.now }
    ensures { result ≡ spi_read_word word.now }
{
    let len = number_word(&word[2..], 0, 65535)?;
    Some(SpiOp::Get { len: len as u16 })
}

/// `w:HEX`.
fn write_word(alloc: Global, word: &[u8]) -> Result<Option<SpiOp>, OutOfMemory>
    requires { 2 ≤ length word.now }
    ensures { IfOk result (λ o. o ≡ spi_write_word word.now) }
{
    match hex_word(alloc, &word[2..])? {
        Some(bytes) => Ok(Some(SpiOp::Put { bytes })),
        None => Ok(None),
    }
}

/// `x:HEX`.
fn both_word(alloc: Global, word: &[u8]) -> Result<Option<SpiOp>, OutOfMemory>
    requires { 2 ≤ length word.now }
    ensures { IfOk result (λ o. o ≡ spi_both_word word.now) }
{
    match hex_word(alloc, &word[2..])? {
        Some(bytes) => Ok(Some(SpiOp::Both { bytes })),
        None => Ok(None),
    }
}
