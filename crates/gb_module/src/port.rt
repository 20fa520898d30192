//! A CPort with a device.

ghost use Rattle.std.specs.Prelude.{◌≡◌, if◌then◌else◌, IsOk, IsOkAnd, option_copied};
ghost use Rattle.gb_base.specs.Bytes.{AreFew};
ghost use Rattle.gb_bridge_payload.specs.Serving.{ServesAs};
ghost use Rattle.gb_firmware.specs.Loading.{bytes_after};
ghost use Rattle.gb_formats.specs.Devices.{Firmware, device_step, device_stir};
ghost use Rattle.gb_formats.specs.Loader.{Loader, find_ask, loader_begun, loader_failed};
ghost use Rattle.gb_formats.specs.Module.{first_port, if_on, is_on};
ghost use Rattle.gb_formats.specs.ModuleLoads.{if_may_ask, loader_of, running_tag, with_loader};
ghost use Rattle.gb_formats.specs.Results.{invalid, success};
ghost use Rattle.gb_module.specs.Few.{FewSucceed};
ghost use Rattle.gb_module.specs.Loading.{FollowsAs, IsIdle, IsLoaded, Runs, RunsOn, RunsToAsk};
ghost use Rattle.gb_module.specs.Loading.{follows, follows_in, loader_refusal, refusal_in};
ghost use Rattle.gb_module.specs.Loading.{with_its_loader};
ghost use Rattle.gb_module.specs.Steps.{port_step, port_stir};
ghost use Rattle.gb_module.specs.Stirring.{IsStir, StirsAs};
ghost use Rattle.gb_module.specs.Turning.{changes, wants};
ghost use Rattle.gb_module.specs.Views.{cport_state_of, seen, stir_of};

use crate::cport_state::CportState;
use crate::device::Device;
use crate::stir::{Stir, StirFault};
use crate::turn::Turn;
use gb_base::{Next, OutOfMemory, Outcome, OwnAsk, OwnAsks, Refusal, Served, Tag};
use gb_bridge_payload::{INVALID, SUCCESS};
use gb_firmware::Loader;
use std::alloc::Global;
use std::marker::Model;

/// A CPort with a device. A contract sees its number, its protocol, its state and its device.
#[derive(Drop)]
pub struct Port {
    alloc: Global,
    number: u16,
    protocol: u8,
    state: CportState,
    device: Device,
}

impl Model for Port {
    ghost use Rattle.gb_formats.specs.Module.{ModulePort};
    ghost use Rattle.gb_module.specs.Views.{cport_state_of, seen};

    ghost Value = { ModulePort };

    ghost view = { λ p. record {
      number = p.number;
      protocol = p.protocol;
      state = cport_state_of p.state;
      device = seen p.device;
    } };
}

impl Port {
    /// A CPort that is off, with its device in its first state.
    pub fn new(alloc: Global, number: u16, protocol: u8, device: Device) -> Port
        ensures { result ≡ first_port number protocol (seen device) }
    {
        Port {
            alloc,
            number,
            protocol,
            state: CportState::Off,
            device,
        }
    }

    /// Its number.
    pub fn number(&self) -> u16
        ensures { result ≡ self.now.number }
    {
        self.number
    }

    /// Its state.
    pub fn state(&self) -> CportState
        ensures { cport_state_of result ≡ self.now.state }
    {
        self.state
    }

    /// Changes its state. Answers the result of that: INVALID where it isn't in the state from
    /// which it changes so.
    pub fn turn(&mut self, turn: Turn) -> u8
        ensures code { result ≡ (if wants turn self.old.state then success else invalid) }
        ensures port { self.new
            ≡ (if wants turn self.old.state then changes turn self.old else self.old) }
    {
        match (turn, self.state) {
            (Turn::Connected, CportState::Off) => {
                self.device.restart();
                self.state = CportState::On;
            }
            (Turn::Disconnecting, CportState::On) => self.state = CportState::Quiet,
            (Turn::Disconnected, CportState::Quiet) => self.state = CportState::Off,
            _ => return INVALID,
        }
        SUCCESS
    }

    /// Serves a request at its device, whose own requests are left out where the CPort isn't on. An
    /// answer of few bytes without requests takes no memory. After want of memory it is as before.
    pub fn serve(&mut self, kind: u8, payload: &[u8]) -> Result<Served, OutOfMemory>
        ensures step { ServesAs (port_step self.old kind payload.now) self.old self.new result }
        ensures few { FewSucceed (device_step self.old.device kind payload.now).served result }
    {
        let served = self.device.serve(self.alloc, kind, payload)?;
        Ok(Served {
            result: served.result,
            payload: served.payload,
            asks: self.if_on(served.asks),
        })
    }

    /// What comes to its device from outside: answers the requests that the device makes then, and
    /// none where the CPort isn't on. NoCport exactly where it has no such device. After each
    /// refusal it is as before.
    pub fn stir(&mut self, what: Stir) -> Result<OwnAsks, StirFault>
        requires { IsStir what }
        ensures { StirsAs (port_stir self.old (device_stir self.old.device (stir_of what)))
            self.old self.new result }
    {
        let asks = self.device.stir(self.alloc, what)?;
        Ok(self.if_on(asks))
    }

    /// The loader of its device, None exactly where that isn't a firmware device.
    pub fn loader(&self) -> Option<&Loader>
        ensures { option_copied result ≡ loader_of self.now.device }
    {
        self.device.loader()
    }

    /// Whether its firmware device can begin a download. NoCport exactly where it has another
    /// device, else NoConnection exactly where it isn't on, else Occupied exactly where a
    /// download runs.
    pub fn may_load(&self) -> Result<(), Refusal>
        ensures { loader_refusal self.now.state (loader_of self.now.device) ≡ refusal_in result }
    {
        let Some(loader) = self.device.loader() else {
            return Err(Refusal::NoCport);
        };
        if !self.is_on() {
            return Err(Refusal::NoConnection);
        }
        if loader.is_running() {
            return Err(Refusal::Occupied);
        }
        Ok(())
    }

    /// Its firmware device begins to download the image of a tag: answers the first request. It
    /// never answers want of memory.
    pub fn load(&mut self, tag: &Tag) -> Result<OwnAsk, OutOfMemory>
        requires { IsIdle (loader_of self.old.device) }
        ensures ask { IsOkAnd result (λ own. own ≡ find_ask tag.now) }
        ensures port { self.new
            ≡ record self.old { device = with_loader (loader_begun tag.now) self.old.device } }
    {
        self.device.load(tag)
    }

    /// The request that a download waits for has ended: answers what follows, None exactly where no
    /// download runs. Where the CPort isn't on, the download fails in place of a next request. Only
    /// where it goes on with more than 16 bytes it takes memory. After want of memory the CPort is
    /// as before.
    pub fn ended(&mut self, outcome: &Outcome) -> Result<Option<Next>, OutOfMemory>
        ensures step { FollowsAs (with_its_loader self.old)
            (follows_in self.old.state outcome.now (loader_of self.old.device))
            self.old self.new result }
        ensures runs { RunsOn (loader_of self.new.device) result }
        ensures few { AreFew (bytes_after (follows outcome.now (loader_of self.old.device)))
            → IsOk result }
    {
        let Some(next) = self.device.ended(outcome)? else {
            return Ok(None);
        };
        Ok(Some(self.if_may_ask(next)))
    }

    /// What follows in a download, but that it fails where a request would be made and the CPort
    /// isn't on.
    fn if_may_ask(&mut self, next: Next) -> Next
        requires { RunsToAsk (loader_of self.old.device) next }
        ensures step { (l : Loader) → self.old.device ≡ Firmware l
            → IsLoaded (with_its_loader self.old)
            (if_may_ask self.old.state (record { after = l; next = next })) self.new result }
        ensures runs { RunsToAsk (loader_of self.new.device) result }
    {
        if self.is_on() {
            return next;
        }
        let Next::Ask(_) = &next else {
            return next;
        };
        Next::Failed { tag: self.fail() }
    }

    /// The running download fails: answers its tag. It takes no memory.
    pub fn fail(&mut self) -> Tag
        requires { Runs (loader_of self.old.device) }
        ensures tag { result ≡ running_tag (loader_of self.old.device) }
        ensures port { self.new
            ≡ record self.old { device = with_loader loader_failed self.old.device } }
    {
        self.device.fail()
    }

    /// These requests where the CPort is on, else none.
    fn if_on(&self, asks: OwnAsks) -> OwnAsks
        ensures { result ≡ if_on self.now.state asks }
    {
        if self.is_on() {
            return asks;
        }
        OwnAsks::new(self.alloc)
    }

    /// Whether it is on.
    fn is_on(&self) -> bool
        ensures { result ≡ is_on self.now.state }
    {
        self.state == CportState::On
    }
}
