//! The memory and its pointer.

ghost use Rattle.std.specs.Prelude.{◌≡◌, ◌++◌, IsOk, OnOk};
ghost use Rattle.gb_base.specs.Bytes.{AreFew};
ghost use Rattle.gb_formats.specs.I2cDevice.{after_byte, after_read, after_write, first_i2c};
ghost use Rattle.gb_formats.specs.I2cDevice.{read_from};

use gb_base::{Bytes, OutOfMemory};
use std::marker::Model;

/// How many bytes there are.
const SIZE: usize = 256;

/// A memory of 256 bytes with a pointer, as in an EEPROM with addresses of one byte.
#[derive(Clone, Copy)]
pub struct Memory {
    bytes: [u8; SIZE],
    pointer: u8,
}

impl Model for Memory {
    ghost use Rattle.std.specs.Prelude.{◌<◌};
    ghost use Rattle.gb_formats.specs.I2cDevice.{I2cDevice};

    ghost Value = { I2cDevice };

    ghost view = { λ m. record { memory = m.bytes; pointer = m.pointer } };

    ghost invariant = { λ m. m.pointer < 256 };

    ghost inverse = { λ v. record { bytes = v.memory; pointer = v.pointer } };
}

impl Memory {
    /// Byte i holds i, and the pointer is 0.
    pub fn first() -> Memory
        ensures { result ≡ first_i2c }
    {
        let mut bytes = [0; SIZE];
        for place in 0..SIZE {
            bytes[place] = place as u8;
        }
        Memory { bytes, pointer: 0 }
    }

    /// A write: its first byte sets the pointer, the others are stored. An empty one does nothing.
    pub fn write(&mut self, bytes: &[u8])
        ensures { self.new ≡ after_write self.old bytes.now }
    {
        if let Some((first, rest)) = bytes.split_first() {
            self.pointer = *first;
            for byte in rest {
                self.store(*byte);
            }
        }
    }

    /// Stores a byte at the pointer, which then goes up by one, from 255 to 0.
    fn store(&mut self, byte: u8)
        ensures { self.new ≡ after_byte self.old byte }
    {
        self.bytes[self.pointer as usize] = byte;
        self.pointer = self.pointer.wrapping_add(1);
    }

    /// A read: so many bytes from the pointer on, which are added to `answer`. The pointer goes up
    /// by one with each, from 255 to 0. Few in all take no memory.
    /// After want of memory some may have been added, and the pointer is where it was.
    pub fn read(&mut self, count: u16, answer: &mut Bytes) -> Result<(), OutOfMemory>
        ensures bytes { OnOk result (answer.new
            ≡ answer.old ++ read_from self.old.memory self.old.pointer count) }
        ensures memory { OnOk result (self.new ≡ after_read self.old count) }
        ensures few { AreFew (answer.old ++ read_from self.old.memory self.old.pointer count)
            → IsOk result }
    {
        let mut place = self.pointer;
        for _ in 0..count {
            answer.push(self.bytes[place as usize])?;
            place = place.wrapping_add(1);
        }
        self.pointer = place;
        Ok(())
    }
}
