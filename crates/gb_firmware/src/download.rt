//! A running download.

ghost use Rattle.std.specs.Prelude.{◌≡◌, ◌≤◌, Ok, [], length};
ghost use Rattle.gb_firmware.specs.Loading.{TurnsAs, TurnsFew};
ghost use Rattle.gb_formats.specs.FirmwareRecords.{read_firmware_reply};
ghost use Rattle.gb_formats.specs.Loader as formats;

use crate::asking::own;
use gb_base::{Bytes, OutOfMemory, Outcome, OwnAsk, Tag};
use gb_bridge_payload::firmware_kinds::{FIND, RELEASE};
use gb_bridge_payload::{FirmwareAsk, FirmwareReply, SUCCESS};
use std::alloc::Global;
use std::marker::Model;

/// The most bytes that one FETCH asks for.
const MOST_FETCHED: usize = 512;

/// What a download waits for.
#[derive(Clone, Copy)]
pub enum Awaits {
    /// The answer of FIND.
    Find,
    /// The answer of FETCH.
    Fetch {
        /// The id under which the image is lent.
        id: u8,
        /// How many bytes the image has.
        size: u32,
    },
    /// The answer of RELEASE.
    Release,
}

/// What follows once the request that a download waited for has ended.
#[derive(Drop)]
pub enum Turn {
    /// The next request is made.
    Asks(OwnAsk),
    /// The download is done.
    IsDone,
    /// The download fails.
    Fails,
}

/// A running download. A contract sees its tag, what it waits for, and the bytes so far.
#[derive(Drop)]
pub struct Download {
    /// The tag of the image.
    pub tag: Tag,
    /// What it waits for.
    pub awaits: Awaits,
    /// The bytes so far.
    pub bytes: Bytes,
}

impl Model for Download {
    ghost use Rattle.gb_firmware.specs.Loading.{Fit, awaits_of};
    ghost use Rattle.gb_formats.specs.Loader as formats;

    ghost Value = { formats.Download };

    ghost view = { λ d. record { tag = d.tag; awaits = awaits_of d.awaits; bytes = d.bytes } };

    ghost invariant = { λ d. Fit d.awaits d.bytes };
}

impl Download {
    /// The request that it waits for has ended. Only where bytes are added, and there are then
    /// more than few, it takes memory. After want of memory it is as before.
    pub fn ended(&mut self, alloc: Global, outcome: &Outcome) -> Result<Turn, OutOfMemory>
        ensures step { TurnsAs (formats.ended_so outcome.now self.old) self.old self.new result }
        ensures few { TurnsFew (formats.ended_so outcome.now self.old) result }
    {
        let Outcome::Answered { result, payload } = outcome else {
            return Ok(Turn::Fails);
        };
        if *result != SUCCESS {
            return Ok(Turn::Fails);
        }
        self.answered(alloc, payload.items())
    }

    /// The request was answered with success.
    fn answered(&mut self, alloc: Global, payload: &[u8]) -> Result<Turn, OutOfMemory>
        ensures step { TurnsAs (formats.answered self.old.awaits payload.now self.old)
            self.old self.new result }
        ensures few { TurnsFew (formats.answered self.old.awaits payload.now self.old) result }
    {
        match self.awaits {
            Awaits::Find => Ok(self.found(alloc, payload)),
            Awaits::Fetch { id, size } => self.fetched(alloc, id, size, payload),
            Awaits::Release => Ok(released(payload)),
        }
    }

    /// FIND was answered with success.
    fn found(&mut self, alloc: Global, payload: &[u8]) -> Turn
        requires { self.old.bytes ≡ [] }
        ensures { TurnsAs (formats.found (read_firmware_reply 0x01 payload.now) self.old)
            self.old self.new (Ok result) }
    {
        let Ok(FirmwareReply::Find { id, size }) = FirmwareReply::read(FIND, payload) else {
            return Turn::Fails;
        };
        self.fetch(alloc, id, size)
    }

    /// FETCH was answered with success: with as many bytes as it asked for, or the download fails.
    fn fetched(
        &mut self,
        alloc: Global,
        id: u8,
        size: u32,
        payload: &[u8],
    ) -> Result<Turn, OutOfMemory>
        requires { self.old.awaits ≡ formats.Awaits.Fetch id size }
        ensures step { TurnsAs (formats.fetched id size payload.now self.old)
            self.old self.new result }
        ensures few { TurnsFew (formats.fetched id size payload.now self.old) result }
    {
        if payload.len() != self.piece(size) {
            return Ok(Turn::Fails);
        }
        self.bytes.extend(payload)?;
        Ok(self.fetch(alloc, id, size))
    }

    /// The next piece of an image of this size is fetched, or the image is released where nothing
    /// is left of it.
    fn fetch(&mut self, alloc: Global, id: u8, size: u32) -> Turn
        requires { length self.old.bytes ≤ size }
        ensures { TurnsAs (formats.fetches id size self.old) self.old self.new (Ok result) }
    {
        if self.bytes.items().len() == size as usize {
            self.awaits = Awaits::Release;
            return Turn::Asks(own(alloc, FirmwareAsk::Release { id }));
        }
        self.awaits = Awaits::Fetch { id, size };
        Turn::Asks(own(
            alloc,
            FirmwareAsk::Fetch {
                id,
                offset: self.bytes.items().len() as u32,
                size: self.piece(size) as u32,
            },
        ))
    }

    /// How many bytes the next FETCH asks for: what is left of an image of this size, 512 at most.
    fn piece(&self, size: u32) -> usize
        requires { length self.now.bytes ≤ size }
        ensures { result ≡ formats.piece size self.now.bytes }
    {
        (size as usize - self.bytes.items().len()).min(MOST_FETCHED)
    }
}

/// RELEASE was answered with success.
fn released(payload: &[u8]) -> Turn
    ensures { (d : formats.Download) → TurnsAs
        (formats.released (read_firmware_reply 0x03 payload.now) d) d d (Ok result) }
{
    match FirmwareReply::read(RELEASE, payload) {
        Ok(FirmwareReply::Release) => Turn::IsDone,
        _ => Turn::Fails,
    }
}
