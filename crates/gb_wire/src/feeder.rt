//! Messages out of a stream that comes in pieces.

ghost use Rattle.std.specs.Prelude.{◌≡◌, ℕ, ◌+◌, ◌≤◌, IfOk, OnErr, MatchOption};
ghost use Rattle.std.specs.Prelude.{List, [], ◌++◌, length, take, drop, vec_len};
ghost use Rattle.gb_formats.specs.Message.{Message};
ghost use Rattle.gb_formats.specs.Wire.{IsStream};
ghost use Rattle.gb_base.specs.declared.reasons.WireFault.{WireFault};
ghost use Rattle.gb_wire.specs.MessageOf.{messages_of};
ghost use Rattle.gb_wire.specs.Streams.{BeginsWith, HandedOut, Stopped, held};
ghost use Rattle.gb_wire.specs.Feeding.{Feeds};

use crate::Messages;
use crate::decoder::size_of;
use crate::division::{Division, divide, lasting};
use crate::message::HEADER;
use gb_base::{OutOfMemory, WireFault};
use std::alloc::Global;
use std::marker::Model;

/// Why a feeder handed out no messages.
#[derive(Clone, Copy, Debug, PartialEq, Eq)]
pub enum FeedFault {
    /// The stream goes on with a message that can't be.
    Wire(WireFault),
    /// No memory was found. The feeder is as before.
    Memory(OutOfMemory),
}

impl From<OutOfMemory> for FeedFault {
    ghost use Rattle.gb_wire.specs.declared.feeder.FeedFault.TheVariants.{Memory};

    ghost from_gives = { λ e f. f ≡ Memory e };

    fn from(refused: OutOfMemory) -> FeedFault {
        FeedFault::Memory(refused)
    }
}

/// Takes a stream of operation messages in pieces, however it is cut, and hands out each message
/// that is whole.
#[derive(Drop)]
pub struct Feeder {
    left: Vec<u8>,
    fault: Option<WireFault>,
}

impl Model for Feeder {
    ghost use Rattle.gb_wire.specs.Streams.{Held, held};

    ghost Value = { Held };

    ghost view = { λ f. held f.fault f.left.items };
}

impl Feeder {
    /// The feeder to which nothing has come. It takes its memory from `alloc`, and none yet.
    pub fn new(alloc: Global) -> Feeder
        ensures { HandedOut [] [] result }
    {
        Feeder {
            left: Vec::new(alloc),
            fault: None,
        }
    }

    /// Takes the next piece of the stream, and hands out the messages that it completes, in order.
    ///
    /// Wire comes exactly where the stream goes on with a size below 8 or a request with a result,
    /// and no message before that place is still to be handed out: where this piece completes
    /// messages before it, they are handed out, and the next call answers Wire. From then on every
    /// call answers it. After Memory the feeder is as before.
    pub fn feed(&mut self, piece: &[u8]) -> Result<Messages, FeedFault>
        // Whatever came before, the messages are those of the division of all that came.
        ensures stream { (came : List ℕ) (out : List Message) → HandedOut came out self.old
            → Feeds (came ++ piece.now) out result self.new }
        // Where the stream goes on with a fault behind what was handed out, that is answered.
        ensures due { (came rest : List ℕ) (out : List Message) (fault : WireFault)
            → HandedOut came out self.old → IsStream (came ++ piece.now) out rest
            → BeginsWith fault rest → result ≡ Err (FeedFault.Wire fault) }
        // A fault that was answered is answered for ever.
        ensures stopped { (fault : WireFault) → self.old ≡ Stopped fault
            → (result ≡ Err (FeedFault.Wire fault)) × (self.new ≡ self.old) }
        // After want of memory the feeder is as before.
        ensures memory { (refused : OutOfMemory) → result ≡ Err (FeedFault.Memory refused)
            → self.new ≡ self.old }
    {
        if let Some(fault) = self.fault {
            return Err(FeedFault::Wire(fault));
        }
        if let Some(fault) = first_fault(&self.left, piece) {
            self.fault = Some(fault);
            return Err(FeedFault::Wire(fault));
        }
        let (messages, fault) = take_whole(&mut self.left, piece)?;
        self.fault = fault;
        Ok(messages)
    }
}

/// The fault with which the bytes that are left and the piece begin.
fn first_fault(left: &[u8], piece: &[u8]) -> Option<WireFault>
    ensures { MatchOption result
        ((fault : WireFault) → BeginsWith fault (left.now ++ piece.now) → ⊥)
        (λ fault. BeginsWith fault (left.now ++ piece.now)) }
{
    let there = left.len() + piece.len();
    if there < HEADER {
        return None;
    }
    match size_of(&header_of(left, piece), there) {
        Ok(_) => None,
        Err(fault) => lasting(fault),
    }
}

/// The first eight bytes of two slices in a row.
fn header_of(left: &[u8], piece: &[u8]) -> [u8; HEADER]
    requires { 8 ≤ length left.now + length piece.now }
    ensures { result ≡ take 8 (left.now ++ piece.now) }
{
    let mut header = [0; HEADER];
    let count = left.len().min(HEADER);
    header[..count].copy_from_slice(&left[..count]);
    header[count..].copy_from_slice(&piece[..HEADER - count]);
    header
}

/// Adds the piece to the bytes that are left of the stream and takes the whole messages out of
/// them. After a refusal the bytes are as before.
fn take_whole(
    left: &mut Vec<u8>,
    piece: &[u8],
) -> Result<(Messages, Option<WireFault>), OutOfMemory>
    ensures ok { IfOk result (λ taken. HandedOut (left.old.items ++ piece.now) (messages_of taken.0)
        (held taken.1 left.new.items)) }
    ensures err { OnErr result (left.new.items ≡ left.old.items) }
{
    let before = left.len();
    left.extend_from_slice(piece)?;
    match divide(*left.allocator(), left) {
        Ok(division) => {
            let Division {
                messages,
                used,
                fault,
            } = division;
            drop_front(left, used);
            Ok((messages, fault))
        }
        Err(refused) => {
            left.truncate(before);
            Err(refused)
        }
    }
}

/// Drops the first `count` bytes. Where there are none to drop, no byte is moved.
fn drop_front(bytes: &mut Vec<u8>, count: usize)
    requires { count ≤ vec_len bytes.old }
    ensures { bytes.new.items ≡ drop count bytes.old.items }
{
    if count > 0 {
        drop(bytes.drain(..count));
    }
}
