//! The CPorts of a module.

ghost use Rattle.std.specs.Prelude.{◌≡◌, ◌<◌, ◌≤◌, IfOk, IfSome, IsOk, IsOkAnd, List, ℕ, length};
ghost use Rattle.std.specs.Prelude.{find, option_copied};
ghost use Rattle.std.specs.List.{position_from};
ghost use Rattle.gb_base.specs.Bytes.{AreFew};
ghost use Rattle.gb_bridge_payload.specs.Serving.{ServesAs};
ghost use Rattle.gb_firmware.specs.Loading.{bytes_after};
ghost use Rattle.gb_formats.specs.ControlResponder.{turn_step};
ghost use Rattle.gb_formats.specs.Loader.{find_ask, loader_begun, loader_failed};
ghost use Rattle.gb_formats.specs.Module.{is_port};
ghost use Rattle.gb_formats.specs.ModuleLoads.{loader_changed, port_ended, port_loader};
ghost use Rattle.gb_formats.specs.ModuleLoads.{running_tag};
ghost use Rattle.gb_formats.specs.ModuleSteps.{port_served, port_stirred};
ghost use Rattle.gb_formats.specs.Results.{refusal_of};
ghost use Rattle.gb_module.specs.Few.{FewSucceed, device_answer};
ghost use Rattle.gb_module.specs.Loading.{EndsAs, IsIdle, Runs, RunsOn, follows};
ghost use Rattle.gb_module.specs.Places.{AreCounted};
ghost use Rattle.gb_module.specs.Steps.{with_ports};
ghost use Rattle.gb_module.specs.Stirring.{IsStir, StirsAs};
ghost use Rattle.gb_module.specs.Turning.{changes, wants};
ghost use Rattle.gb_module.specs.Views.{stir_of};

use crate::port::Port;
use crate::stir::{Stir, StirFault};
use crate::turn::Turn;
use gb_base::{Next, OutOfMemory, Outcome, OwnAsk, OwnAsks, Served, Tag};
use gb_bridge_payload::{NONEXISTENT, PROTOCOL_BAD, refused};
use std::collections::BTreeMap;
use std::marker::Model;

/// The CPorts of a module that have a device, in the order of its manifest. A contract sees them as
/// a list. So many of the first have the numbers 1, 2, 3 and so on, which tell their places; the
/// places of the others are kept, so that no look-up goes over all of them.
#[derive(Drop)]
pub struct Ports {
    ports: Vec<Port>,
    counted: usize,
    places: BTreeMap<u16, usize>,
}

impl Model for Ports {
    ghost use Rattle.std.specs.Prelude.{List};
    ghost use Rattle.gb_formats.specs.Module.{ModulePort};

    ghost Value = { List ModulePort };

    ghost use Rattle.gb_module.specs.Places.{AreFirst};

    ghost view = { λ p. p.ports.items };

    ghost invariant = { λ p. AreFirst p.counted p.places p.ports.items };
}

impl Ports {
    /// These CPorts.
    pub fn new(ports: Vec<Port>) -> Result<Ports, OutOfMemory>
        ensures { IfOk result (λ p. p ≡ ports.items) }
    {
        let counted = counted_in(ports.as_slice());
        let mut places = BTreeMap::new(*ports.allocator());
        let mut left = ports.len();
        while left > counted {
            left -= 1;
            places.insert(ports[left].number(), left)?;
        }
        Ok(Ports {
            ports,
            counted,
            places,
        })
    }

    /// The CPort with a number, None exactly where there is none.
    pub fn get(&self, number: u16) -> Option<&Port>
        ensures { option_copied result ≡ find (is_port number) self.now }
    {
        let place = self.place(number)?;
        Some(&self.ports[place])
    }

    /// Changes the state of the CPort with a number. Answers the result of that: NONEXISTENT where
    /// there is no such CPort, INVALID where it isn't in the state from which it changes so.
    pub fn turn(&mut self, number: u16, turn: Turn) -> u8
        ensures { (manifest : List ℕ) → turn_step (with_ports manifest self.old)
            (find (is_port number) self.old) (wants turn) (changes turn)
            ≡ record { after = with_ports manifest self.new; served = refusal_of result } }
    {
        let Some(place) = self.place(number) else {
            return NONEXISTENT;
        };
        let port = &mut self.ports[place];
        port.turn(turn)
    }

    /// Serves a request at the CPort with a number, which is PROTOCOL_BAD where there is no such
    /// CPort. An answer of few bytes without requests takes no memory. After want of memory all are
    /// as before.
    pub fn serve(&mut self, number: u16, kind: u8, payload: &[u8]) -> Result<Served, OutOfMemory>
        ensures step { (manifest : List ℕ) → ServesAs (port_served (with_ports manifest self.old)
            (find (is_port number) self.old) kind payload.now)
            (with_ports manifest self.old) (with_ports manifest self.new) result }
        ensures few { FewSucceed
            (device_answer (find (is_port number) self.old) kind payload.now) result }
    {
        let Some(place) = self.place(number) else {
            return Ok(refused(*self.ports.allocator(), PROTOCOL_BAD));
        };
        let port = &mut self.ports[place];
        port.serve(kind, payload)
    }

    /// What comes from outside to the device of the CPort with a number: answers the requests that
    /// the device makes then. NoCport exactly where there is no such device. After each refusal all
    /// are as before.
    pub fn stir(&mut self, number: u16, what: Stir) -> Result<OwnAsks, StirFault>
        requires { IsStir what }
        ensures { (manifest : List ℕ) → StirsAs (port_stirred (with_ports manifest self.old)
            (find (is_port number) self.old) (stir_of what))
            (with_ports manifest self.old) (with_ports manifest self.new) result }
    {
        let Some(place) = self.place(number) else {
            return Err(StirFault::NoCport);
        };
        let port = &mut self.ports[place];
        port.stir(what)
    }

    /// The firmware device of the CPort with a number begins to download the image of a tag:
    /// answers its first request. It never answers want of memory.
    pub fn load(&mut self, number: u16, tag: &Tag) -> Result<OwnAsk, OutOfMemory>
        requires { IsIdle (port_loader (find (is_port number) self.old)) }
        ensures ask { IsOkAnd result (λ own. own ≡ find_ask tag.now) }
        ensures module { (manifest : List ℕ) → with_ports manifest self.new
            ≡ loader_changed (loader_begun tag.now) (with_ports manifest self.old)
            (find (is_port number) self.old) }
    {
        let Some(place) = self.place(number) else {
            unreachable!()
        };
        let port = &mut self.ports[place];
        port.load(tag)
    }

    /// The request of the CPort with a number that was made last has ended: answers what follows in
    /// the download that runs there, None exactly where none runs. Only where it goes on with more
    /// than 16 bytes it takes memory. After want of memory all are as before.
    pub fn ended(&mut self, number: u16, outcome: &Outcome) -> Result<Option<Next>, OutOfMemory>
        ensures step { (manifest : List ℕ) → EndsAs (port_ended (with_ports manifest self.old)
            (find (is_port number) self.old) outcome.now)
            (with_ports manifest self.old) (with_ports manifest self.new) result }
        ensures runs { RunsOn (port_loader (find (is_port number) self.new)) result }
        ensures few { AreFew (bytes_after
            (follows outcome.now (port_loader (find (is_port number) self.old)))) → IsOk result }
    {
        let Some(place) = self.place(number) else {
            return Ok(None);
        };
        let port = &mut self.ports[place];
        port.ended(outcome)
    }

    /// The download that runs at the CPort with a number fails: answers its tag. It takes
    /// no memory.
    pub fn fail(&mut self, number: u16) -> Tag
        requires { Runs (port_loader (find (is_port number) self.old)) }
        ensures tag { result ≡ running_tag (port_loader (find (is_port number) self.old)) }
        ensures module { (manifest : List ℕ) → with_ports manifest self.new
            ≡ loader_changed loader_failed (with_ports manifest self.old)
            (find (is_port number) self.old) }
    {
        let Some(place) = self.place(number) else {
            unreachable!()
        };
        let port = &mut self.ports[place];
        port.fail()
    }

    /// Where the CPort with a number stands.
    #[inline]
    fn place(&self, number: u16) -> Option<usize>
        ensures first { result ≡ position_from (is_port number) 0 self.now }
        ensures within { IfSome result (λ place. place < length self.now) }
    {
        let count = usize::from(number);
        if count > 0 && count <= self.counted {
            return Some(count - 1);
        }
        self.places.get(&number).copied()
    }
}

/// So many of the first of these CPorts have the numbers 1, 2, 3 and so on.
fn counted_in(ports: &[Port]) -> usize
    ensures numbers { AreCounted result ports.now }
    ensures within { result ≤ length ports.now }
{
    for (i, port) in ports.iter().enumerate() {
        if usize::from(port.number()) != i + 1 {
            return i;
        }
    }
    ports.len()
}
