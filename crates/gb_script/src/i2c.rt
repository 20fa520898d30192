//! The forms on I2C.

ghost use Rattle.std.specs.Prelude.{◌≡◌, ◌≤◌, IfOk, length};
ghost use Rattle.gb_formats.specs.BridgeForms.{i2c_asking, i2c_op_word};
ghost use Rattle.gb_formats.specs.BridgeForms.{i2c_read_word, i2c_write_word};
ghost use Rattle.gb_script.specs.Parts.{i2c_transfer};
ghost use Rattle.gb_script.specs.Tells.{AsksFor};

use crate::LineFault;
use crate::hex_words::{hex_word, type_word};
use crate::ops::{OpWord, operations};
use crate::rest::Rest;
use crate::values::number_word;
use crate::words::is;
use gb_base::{BridgeAsk, I2cOp, OutOfMemory};
use std::alloc::Global;

/// What an I2C line asks.
pub fn asked(alloc: Global, rest: &Rest<'_>) -> Result<BridgeAsk, LineFault>
    ensures { AsksFor i2c_asking rest.now result }
{
    let (word, behind) = rest.next()?;
    if is(word, "functionality") {
        behind.end()?;
        Ok(BridgeAsk::I2cFunctionality)
    } else if is(word, "transfer") {
        transfer(alloc, behind)
    } else {
        Err(LineFault::Bad(rest.bad_word()))
    }
}

/// Any number of operations behind `transfer`.
fn transfer(alloc: Global, rest: Rest<'_>) -> Result<BridgeAsk, LineFault>
    ensures { AsksFor i2c_transfer rest.entry result }
{
    let ops = operations(alloc, rest)?;
    Ok(BridgeAsk::I2cTransfer { ops })
}

impl OpWord for I2cOp {
    ghost meaning = { i2c_op_word };

    fn read(alloc: Global, word: &[u8]) -> Result<Option<I2cOp>, OutOfMemory> {
        if word.get(1) != Some(&b':') || word.get(4) != Some(&b':') {
            return Ok(None);
        }
        match word[0] {
            b'r' => Ok(read_word(word)),
            b'w' => write_word(alloc, word),
            _ => Ok(None),
        }
    }
}

/// `r:AA:LEN`.
fn read_word(word: &[u8]) -> Option<I2cOp>
    requires { 5 ≤ length word.now }
    ensures { result ≡ i2c_read_word word.now }
{
    let addr = type_word(&word[2..4])?;
    let len = number_word(&word[5..], 0, 65535)?;
    Some(I2cOp::Get {
        addr,
        len: len as u16,
    })
}

/// `w:AA:HEX`.
fn write_word(alloc: Global, word: &[u8]) -> Result<Option<I2cOp>, OutOfMemory>
    requires { 5 ≤ length word.now }
    ensures { IfOk result (λ o. o ≡ i2c_write_word word.now) }
{
    let Some(addr) = type_word(&word[2..4]) else {
        return Ok(None);
    };
    match hex_word(alloc, &word[5..])? {
        Some(bytes) => Ok(Some(I2cOp::Put { addr, bytes })),
        None => Ok(None),
    }
}
