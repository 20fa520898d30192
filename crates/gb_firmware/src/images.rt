//! The firmware images of the application processor.

ghost use Rattle.std.specs.Prelude.{◌≡◌, true, false, Some, None, Ok, IfSome, IsOkAnd};
ghost use Rattle.std.specs.Prelude.{MatchOption, drop, find, take};
ghost use Rattle.std.specs.List.{list_any};
ghost use Rattle.gb_bridge_payload.specs.Serving.{ServesAs};
ghost use Rattle.gb_firmware.specs.Lending.{FewSucceed, PutsAs};
ghost use Rattle.gb_formats.specs.FirmwareRecords as records;
ghost use Rattle.gb_formats.specs.Images as formats;
ghost use Rattle.gb_formats.specs.Results.{answer_of};

use crate::image::Image;
use crate::loans::Loans;
use gb_base::{Bytes, OutOfMemory, Sequence, Served, Tag};
use gb_bridge_payload::{
    FirmwareAsk, FirmwareReply, INVALID, MOST_PAYLOAD, NONEXISTENT, RETRY, answered, done,
    fault_result, refused,
};
use std::alloc::Global;
use std::marker::Model;

/// How many bytes the answer of FIND has.
const FOUND_SIZE: usize = 5;

/// Why an image isn't given.
#[derive(Clone, Copy, Debug, PartialEq, Eq)]
pub enum PutFault {
    /// The tag has an image.
    Taken,
    /// No memory was found.
    Memory(OutOfMemory),
}

impl From<OutOfMemory> for PutFault {
    ghost use Rattle.std.specs.Prelude.{◌≡◌};
    ghost use Rattle.gb_firmware.specs.declared.images.PutFault.TheVariants as fault;

    ghost from_gives = { λ refused e. e ≡ fault.Memory refused };

    fn from(refused: OutOfMemory) -> PutFault {
        PutFault::Memory(refused)
    }
}

/// The firmware images of the application processor, each under a tag of its own, and the ids
/// under which it lends them (Greybus Specification, "Firmware Download Protocol"). An image
/// never changes.
#[derive(Drop)]
pub struct Images {
    alloc: Global,
    given: Sequence<Image>,
    loans: Loans,
}

impl Model for Images {
    ghost use Rattle.gb_formats.specs.Images as formats;

    ghost Value = { formats.Images };

    ghost view = { λ x. record { given = x.given; loans = x.loans } };
}

impl Images {
    /// No images. It takes memory from `alloc`, and none yet.
    pub fn new(alloc: Global) -> Result<Images, OutOfMemory>
        ensures { IsOkAnd result (λ images. images ≡ formats.no_images) }
    {
        Ok(Images {
            alloc,
            given: Sequence::new(alloc),
            loans: Loans::new(alloc),
        })
    }

    /// Gives an image. Taken exactly where the tag has one. After each refusal the images are
    /// as before.
    pub fn put(&mut self, tag: &Tag, bytes: &[u8]) -> Result<(), PutFault>
        ensures { PutsAs tag.now bytes.now self.old self.new result }
    {
        if image_in(self.given.items(), tag.bytes()).is_some() {
            return Err(PutFault::Taken);
        }
        let bytes = Bytes::from_slice(self.alloc, bytes)?;
        self.given.push(Image {
            tag: tag.copied(),
            bytes,
        })?;
        Ok(())
    }

    /// Serves a request that a module makes on a connection. An answer of few bytes takes no memory
    /// where no image is lent by it. After want of memory all is as before. It also comes where so
    /// many images were lent that one more loan has no number of 64 bits.
    pub fn serve(
        &mut self,
        connection: u64,
        kind: u8,
        payload: &[u8],
    ) -> Result<Served, OutOfMemory>
        ensures step { ServesAs (formats.images_step connection kind payload.now self.old)
            self.old self.new result }
        ensures few { FewSucceed (formats.images_step connection kind payload.now self.old)
            self.old result }
    {
        match FirmwareAsk::read(kind, payload) {
            Ok(FirmwareAsk::Find { tag }) => self.find(connection, tag),
            Ok(FirmwareAsk::Fetch { id, offset, size }) => {
                self.fetch(connection, id, offset, size)
            }
            Ok(FirmwareAsk::Release { id }) => Ok(self.release(connection, id)),
            Err(fault) => Ok(refused(self.alloc, fault_result(fault))),
        }
    }

    /// Frees all ids of a connection.
    pub fn forget(&mut self, connection: u64)
        ensures { self.new ≡ formats.forgotten connection self.old }
    {
        self.loans.forget(connection);
    }

    /// FIND of the tag that a field spells: its image is lent under the least id that is free.
    fn find(&mut self, connection: u64, field: &[u8]) -> Result<Served, OutOfMemory>
        ensures step { ServesAs
            (formats.find_step connection (formats.tag_spelled field.now) self.old)
            self.old self.new result }
        ensures few { FewSucceed
            (formats.find_step connection (formats.tag_spelled field.now) self.old)
            self.old result }
    {
        let Some(tag) = spelled(field) else {
            return Ok(refused(self.alloc, INVALID));
        };
        let Some(image) = image_in(self.given.items(), tag) else {
            return Ok(refused(self.alloc, NONEXISTENT));
        };
        let Some(id) = self.loans.free_id(connection) else {
            return Ok(refused(self.alloc, RETRY));
        };
        self.loans.lend(connection, id, image.tag.copied())?;
        Ok(lent(self.alloc, id, image.bytes.items().len()))
    }

    /// FETCH of bytes of the image that is lent under an id.
    fn fetch(&self, connection: u64, id: u8, offset: u32, size: u32) -> Result<Served, OutOfMemory>
        ensures step { ServesAs
            (formats.fetch_step offset size (formats.lent_bytes connection id self.now) self.now)
            self.now self.now result }
        ensures few { FewSucceed
            (formats.fetch_step offset size (formats.lent_bytes connection id self.now) self.now)
            self.now result }
    {
        let Some(bytes) = self.lent_bytes(connection, id) else {
            return Ok(refused(self.alloc, NONEXISTENT));
        };
        match piece(bytes, offset, size) {
            Some(piece) => answered(self.alloc, piece),
            None => Ok(refused(self.alloc, INVALID)),
        }
    }

    /// RELEASE of an id.
    fn release(&mut self, connection: u64, id: u8) -> Served
        ensures { ServesAs
            (formats.release_step connection id
            (list_any (formats.is_loan connection id) self.old.loans) self.old)
            self.old self.new (Ok result) }
    {
        if !self.loans.free(connection, id) {
            return refused(self.alloc, NONEXISTENT);
        }
        done(self.alloc)
    }

    /// The bytes of the image that is lent under an id of a connection.
    fn lent_bytes(&self, connection: u64, id: u8) -> Option<&[u8]>
        ensures { MatchOption result (formats.lent_bytes connection id self.now ≡ None)
            (λ bytes. formats.lent_bytes connection id self.now ≡ Some bytes.now) }
    {
        let tag = self.loans.tag(connection, id)?;
        let image = image_in(self.given.items(), tag.bytes())?;
        Some(image.bytes.items())
    }
}

/// The first image that has a tag.
fn image_in<'a>(given: &'a [Image], tag: &[u8]) -> Option<&'a Image>
    ensures first { MatchOption result (find (formats.has_tag tag.now) given.now ≡ None)
        (λ image. find (formats.has_tag tag.now) given.now ≡ Some image.now) }
    ensures tag { IfSome result (λ image. image.now.tag ≡ tag.now) }
{
    given.iter().find(|image| image.tag.bytes() == tag)
}

/// The bytes before the first zero, None where there is none.
fn spelled(field: &[u8]) -> Option<&[u8]>
    ensures { MatchOption result (formats.tag_spelled field.now ≡ None)
        (λ tag. formats.tag_spelled field.now ≡ Some tag.now) }
{
    let len = field.iter().position(|byte| *byte == 0)?;
    Some(&field[..len])
}

/// So many bytes of an image from a place on. None where they are none, more than a message has, or
/// go past its end.
fn piece(bytes: &[u8], offset: u32, size: u32) -> Option<&[u8]>
    ensures { MatchOption result (formats.is_astray offset size bytes.now ≡ true)
        (λ piece. (formats.is_astray offset size bytes.now ≡ false)
        × (piece.now ≡ take size (drop offset bytes.now))) }
{
    let offset = offset as usize;
    let size = size as usize;
    if size == 0 || size > MOST_PAYLOAD || offset + size > bytes.len() {
        return None;
    }
    Some(&bytes[offset..offset + size])
}

/// The answer that an image of this size is lent under an id. It takes no memory.
fn lent(alloc: Global, id: u8, size: usize) -> Served
    ensures { result ≡ answer_of (records.firmware_reply_payload
        (records.FirmwareReply.Find id size)) }
{
    let reply = FirmwareReply::Find {
        id,
        size: (size & 0xffff_ffff) as u32,
    };
    let mut out = [0; FOUND_SIZE];
    let Ok(len) = reply.write(&mut out) else {
        unreachable!()
    };
    let Ok(served) = answered(alloc, &out[..len]) else {
        unreachable!()
    };
    served
}
