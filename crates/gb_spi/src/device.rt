//! The SPI device.

ghost use Rattle.std.specs.Prelude.{◌≡◌, ◌≤◌, IfOk, IsOk, IsOkAnd, length, sum_by};
ghost use Rattle.gb_base.specs.Bytes.{AreFew};
ghost use Rattle.gb_bridge_payload.specs.Conditions.{IsSpiReply};
ghost use Rattle.gb_bridge_payload.specs.Serving.{ServesAs};
ghost use Rattle.gb_bridge_payload.specs.Views.{spi_reply_of};
ghost use Rattle.gb_formats.specs.Results.{answer_of};
ghost use Rattle.gb_formats.specs.SpiDevice.{first_spi, spi_step, spi_transfer_step};
ghost use Rattle.gb_formats.specs.SpiRecords.{entry_written_size, spi_reply_payload};
ghost use Rattle.gb_spi.specs.Sizes.{entries_in};

use crate::transfer::{Progress, is_any_strange, reads_fit, run};
use gb_base::{OutOfMemory, OwnAsks, Served};
use gb_bridge_payload::{
    INVALID, NONEXISTENT, OVERFLOW, SUCCESS, SpiAsk, SpiReply, answered, fault_result, refused,
};
use std::alloc::Global;
use std::marker::Model;

/// What the controller is: words of 8 bits, 1,000 to 1,000,000 Hz, mode 3 and one chip select.
const MASTER: SpiReply<'_> = SpiReply::MasterConfig {
    mask: 0x80,
    least: 1000,
    greatest: 1_000_000,
    mode: 3,
    flags: 0,
    selects: 1,
};

/// What the device at chip select 0 is.
const ECHO: SpiReply<'_> = SpiReply::DeviceConfig {
    mode: 0,
    bits: 8,
    speed: 1_000_000,
    device: 0,
    name: b"echo\0\0\0\0\0\0\0\0\0\0\0\0\0\0\0\0\0\0\0\0\0\0\0\0\0\0\0\0",
};

/// How many bytes the longest record of a configuration has.
const CONFIG_SIZE: usize = 40;

/// What stands for the last byte before one was written.
const FIRST: u8 = 0;

/// The greatest mode.
const MOST_MODE: u8 = 3;

/// The SPI device of a module (Greybus Specification, "SPI Protocol"): an echo at chip select 0. It
/// keeps the last byte that was written, first 0, and a contract sees it as that number.
#[derive(Drop)]
pub struct Device {
    last: u8,
    alloc: Global,
}

impl Model for Device {
    ghost use Rattle.std.specs.Prelude.{ℕ};

    ghost Value = { ℕ };

    ghost view = { λ device. device.last };
}

impl Device {
    /// The device of a new module. It takes memory for its answers from `alloc`, and none yet.
    pub fn new(alloc: Global) -> Result<Device, OutOfMemory>
        ensures { IsOkAnd result (λ device. device ≡ first_spi) }
    {
        Ok(Device { last: FIRST, alloc })
    }

    /// Brings the device back to its first state.
    pub fn restart(&mut self)
        ensures { self.new ≡ first_spi }
    {
        self.last = FIRST;
    }

    /// Serves a request of the application processor. An answer of few bytes takes no memory. After
    /// want of memory the device is as before.
    pub fn serve(&mut self, kind: u8, payload: &[u8]) -> Result<Served, OutOfMemory>
        ensures step { ServesAs (spi_step self.old kind payload.now) self.old self.new result }
        ensures few { AreFew (spi_step self.old kind payload.now).served.payload → IsOk result }
    {
        match SpiAsk::read(kind, payload) {
            Ok(SpiAsk::MasterConfig) => self.config(MASTER),
            Ok(SpiAsk::DeviceConfig { select: 0 }) => self.config(ECHO),
            Ok(SpiAsk::DeviceConfig { .. }) => Ok(refused(self.alloc, NONEXISTENT)),
            Ok(
                SpiAsk::Transfer {
                    select,
                    mode,
                    entries,
                    data: bytes,
                },
            ) => self.transfer(select, mode, entries, bytes),
            Err(fault) => Ok(refused(self.alloc, fault_result(fault))),
        }
    }

    /// Answers a record of a configuration.
    fn config(&self, reply: SpiReply<'_>) -> Result<Served, OutOfMemory>
        requires record { IsSpiReply (spi_reply_of reply) }
        requires room { length (spi_reply_payload (spi_reply_of reply)) ≤ 40 }
        ensures same { IfOk result
            (λ served. served ≡ answer_of (spi_reply_payload (spi_reply_of reply.entry))) }
        ensures few { AreFew (spi_reply_payload (spi_reply_of reply.entry)) → IsOk result }
    {
        let mut out = [0; CONFIG_SIZE];
        let Ok(size) = reply.write(&mut out) else {
            unreachable!()
        };
        answered(self.alloc, &out[..size])
    }

    /// Serves a transfer.
    fn transfer(
        &mut self,
        select: u8,
        mode: u8,
        entries: &[u8],
        bytes: &[u8],
    ) -> Result<Served, OutOfMemory>
        requires { length bytes.now ≡ sum_by entry_written_size (entries_in entries.now) }
        ensures step { ServesAs
            (spi_transfer_step self.old select mode (entries_in entries.now) bytes.now)
            self.old self.new result }
        ensures few { AreFew
            (spi_transfer_step self.old select mode (entries_in entries.now)
            bytes.now).served.payload → IsOk result }
    {
        if mode > MOST_MODE || is_any_strange(entries) {
            return Ok(refused(self.alloc, INVALID));
        }
        if select > 0 {
            return Ok(refused(self.alloc, NONEXISTENT));
        }
        if !reads_fit(entries) {
            return Ok(refused(self.alloc, OVERFLOW));
        }
        let Progress { last, read } = run(self.alloc, self.last, entries, bytes)?;
        self.last = last;
        Ok(Served {
            result: SUCCESS,
            payload: read,
            asks: OwnAsks::new(self.alloc),
        })
    }
}
