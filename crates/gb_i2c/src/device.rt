//! The device.

ghost use Rattle.std.specs.Prelude.{◌≡◌, ◌/◌, IsOk, IsOkAnd, length};
ghost use Rattle.gb_base.specs.Bytes.{AreFew};
ghost use Rattle.gb_bridge_payload.specs.Conditions.{AreOps};
ghost use Rattle.gb_bridge_payload.specs.Serving.{ServesAs};
ghost use Rattle.gb_formats.specs.I2cDevice.{first_i2c, i2c_step, i2c_transfer_step};
ghost use Rattle.gb_formats.specs.I2cRecords.{op_size, ops_at};

use crate::memory::Memory;
use crate::survey::check;
use crate::transfer::run;
use gb_base::{Bytes, OutOfMemory, OwnAsks, Served};
use gb_bridge_payload::{I2cAsk, OP_SIZE, SUCCESS, answered, fault_result, refused};
use std::alloc::Global;
use std::marker::Model;

/// What the adapter can do: plain I2C messages (in Linux's i2c.h `I2C_FUNC_I2C`).
const FUNCTIONALITY: u32 = 1;

/// The I2C device of a module (Greybus Specification, "I2C Protocol"): an adapter with a memory of
/// 256 bytes at address 50 (hex). A contract sees the memory and its pointer.
#[derive(Drop)]
pub struct Device {
    alloc: Global,
    memory: Memory,
}

impl Model for Device {
    ghost use Rattle.gb_formats.specs.I2cDevice.{I2cDevice};

    ghost Value = { I2cDevice };

    ghost view = { λ d. d.memory };
}

impl Device {
    /// A device in its first state: byte i of its memory holds i, and the pointer is 0. It takes
    /// memory for its answers from `alloc`, and none yet.
    pub fn new(alloc: Global) -> Result<Device, OutOfMemory>
        ensures { IsOkAnd result (λ device. device ≡ first_i2c) }
    {
        Ok(Device {
            alloc,
            memory: Memory::first(),
        })
    }

    /// Brings the device back to its first state.
    pub fn restart(&mut self)
        ensures { self.new ≡ first_i2c }
    {
        self.memory = Memory::first();
    }

    /// Serves a request of the application processor. An answer of few bytes takes no memory. After
    /// want of memory the device is as before.
    pub fn serve(&mut self, kind: u8, payload: &[u8]) -> Result<Served, OutOfMemory>
        ensures step { ServesAs (i2c_step self.old kind payload.now) self.old self.new result }
        ensures few { AreFew (i2c_step self.old kind payload.now).served.payload → IsOk result }
    {
        match I2cAsk::read(kind, payload) {
            Ok(I2cAsk::Functionality) => answered(self.alloc, &FUNCTIONALITY.to_le_bytes()),
            Ok(I2cAsk::Transfer { ops, data }) => self.transfer(ops, data),
            Err(fault) => Ok(refused(self.alloc, fault_result(fault))),
        }
    }

    /// Serves a transfer.
    fn transfer(&mut self, ops: &[u8], bytes: &[u8]) -> Result<Served, OutOfMemory>
        requires { AreOps ops.now bytes.now }
        ensures step { ServesAs
            (i2c_transfer_step self.old (ops_at (length ops.now / op_size) ops.now) bytes.now)
            self.old self.new result }
        ensures few { AreFew
            (i2c_transfer_step self.old (ops_at (length ops.now / op_size) ops.now)
            bytes.now).served.payload → IsOk result }
    {
        let count = (ops.len() / OP_SIZE) as u16;
        if let Err(code) = check(count, ops) {
            return Ok(refused(self.alloc, code));
        }
        let mut memory = self.memory;
        let mut payload = Bytes::new(self.alloc);
        run(count, ops, bytes, &mut memory, &mut payload)?;
        self.memory = memory;
        Ok(Served {
            result: SUCCESS,
            payload,
            asks: OwnAsks::new(self.alloc),
        })
    }
}
