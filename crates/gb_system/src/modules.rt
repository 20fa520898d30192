//! The modules that are plugged.

ghost use Rattle.std.specs.Prelude.{◌≡◌, ◌<◌, ◌≤◌, [], None, OnOk, OnErr, IfOk, IfSome};
ghost use Rattle.std.specs.Prelude.{length, option_and_then, option_copied, option_map, slice_get};
ghost use Rattle.std.specs.List.{list_any, position_from};
ghost use Rattle.gb_machine.specs.Lists.{span};
ghost use Rattle.gb_machine.specs.Modules.{is_plugged, is_plugged_at, module_at, module_takes};
ghost use Rattle.gb_machine.specs.Modules.{part_at, plugged, unplugged};
ghost use Rattle.gb_module.specs.Loading.{refusal_in};
ghost use Rattle.gb_module.specs.Stirring.{IsStir};
ghost use Rattle.gb_module.specs.Views.{stir_of};
ghost use Rattle.gb_system.specs.Loading.{BeginsAt, LoadsThere, module_refusal};
ghost use Rattle.gb_system.specs.Plugging.{IsWithin, ServesThere, StirsThere, place_behind};
ghost use Rattle.gb_system.specs.Plugging.{span_of, told_span};

use crate::module_loading::ended;
use gb_base::{Next, OutOfMemory, Outcome, OwnAsk, OwnAsks, Refusal, Served, Tag};
use gb_module::{CportState, Module, Stir, StirFault};
use std::alloc::Global;
use std::marker::Model;

/// The interfaces of a module: so many, from its primary interface on.
#[derive(Clone, Copy)]
pub struct Span {
    /// The primary interface.
    pub primary: u8,
    /// How many there are.
    pub count: u8,
}

/// What is plugged at an interface: a part of a module, all of whose interfaces are from 2 to 31.
#[derive(Drop)]
pub struct Plugged {
    /// The interface.
    pub intf: u8,
    /// The primary interface of the module.
    pub primary: u8,
    /// How many interfaces the module has.
    pub count: u8,
    /// What serves there.
    pub body: Module,
}

impl Model for Plugged {
    ghost use Rattle.gb_machine.specs.State.{Plugged};
    ghost use Rattle.gb_system.specs.Plugging.{IsWithin};

    ghost Value = { Plugged };

    ghost view = { λ p. record {
      intf = p.intf;
      primary = p.primary;
      count = p.count;
      body = p.body;
    } };

    ghost invariant = { λ p. IsWithin p.primary p.count };
}

impl Plugged {
    /// The interfaces of the module of which this is a part.
    fn span(&self) -> Span
        ensures is { result ≡ span_of self.now }
        ensures within { IsWithin result.primary result.count }
    {
        Span {
            primary: self.primary,
            count: self.count,
        }
    }
}

/// The parts of modules that are plugged, in the order of their interfaces: thirty at most.
#[derive(Drop)]
pub struct Modules {
    plugged: Vec<Plugged>,
}

impl Model for Modules {
    ghost use Rattle.std.specs.Prelude.{List};
    ghost use Rattle.gb_machine.specs.State.{Plugged};

    ghost Value = { List Plugged };

    ghost view = { λ m. m.plugged.items };
}

impl Modules {
    /// Nothing is plugged.
    pub fn new(alloc: Global) -> Modules
        ensures { result ≡ [] }
    {
        Modules {
            plugged: Vec::new(alloc),
        }
    }

    /// The module at an interface, None exactly where none is plugged there.
    pub fn at(&self, intf: u8) -> Option<&Module>
        ensures { option_copied result ≡ module_at intf self.now }
    {
        let i = self.place(intf)?;
        Some(&self.plugged[i].body)
    }

    /// Whether a CPort takes what is delivered there: Control, and one that isn't off.
    pub fn takes(&self, intf: u8, cport: u16) -> bool
        ensures { result ≡ module_takes cport (module_at intf self.now) }
    {
        if cport == 0 {
            return true;
        }
        match self.at(intf) {
            Some(module) => module.state(cport) != CportState::Off,
            None => false,
        }
    }

    /// The interfaces of the module that is plugged at an interface, None exactly where none is.
    pub fn span(&self, intf: u8) -> Option<Span>
        ensures is { result ≡ option_map span_of (part_at intf self.now) }
        ensures within { IfSome result (λ m. IsWithin m.primary m.count) }
    {
        let i = self.place(intf)?;
        Some(self.plugged[i].span())
    }

    /// Whether something is plugged at one of so many interfaces, from this one on.
    pub fn any(&self, intf: u8, count: u8) -> bool
        requires { IsWithin intf count }
        ensures { result ≡ list_any (λ j. is_plugged j self.now) (span intf count) }
    {
        for i in 0..count {
            if self.at(intf + i).is_some() {
                return true;
            }
        }
        false
    }

    /// Plugs a part of a module.
    pub fn plug(&mut self, part: Plugged) -> Result<(), OutOfMemory>
        ensures ok { OnOk result (self.new ≡ plugged part self.old) }
        ensures err { OnErr result (self.new ≡ self.old) }
    {
        let i = self.behind(part.intf);
        self.plugged.insert(i, part)?;
        Ok(())
    }

    /// Pulls what is plugged at an interface.
    pub fn unplug(&mut self, intf: u8)
        ensures { self.new ≡ unplugged intf self.old }
    {
        self.plugged.retain(|plugged| plugged.intf != intf);
    }

    /// Serves a request at a CPort of the module at an interface: None exactly where none is
    /// plugged there. After want of memory all are as before.
    pub fn serve(
        &mut self,
        intf: u8,
        cport: u16,
        kind: u8,
        payload: &[u8],
    ) -> Result<Option<Served>, OutOfMemory>
        ensures { ServesThere intf cport kind payload.now (module_at intf self.old) self.old
            self.new result }
    {
        let Some(i) = self.place(intf) else {
            return Ok(None);
        };
        let plugged = &mut self.plugged[i];
        let served = plugged.body.serve(cport, kind, payload)?;
        Ok(Some(served))
    }

    /// Stirs the device of a CPort of the module at an interface: None exactly where none is
    /// plugged there. After each fault all are as before.
    pub fn stir(&mut self, intf: u8, cport: u16, what: Stir) -> Result<Option<OwnAsks>, StirFault>
        requires { IsStir what }
        ensures { StirsThere intf cport (stir_of what) (module_at intf self.old) self.old self.new
            result }
    {
        let Some(i) = self.place(intf) else {
            return Ok(None);
        };
        let plugged = &mut self.plugged[i];
        let own = plugged.body.stir(cport, what)?;
        Ok(Some(own))
    }

    /// Why no download can begin at a CPort of the module at an interface: NoInterface exactly
    /// where none is plugged there, and else what the module answers.
    pub fn may_load(&self, intf: u8, cport: u16) -> Result<(), Refusal>
        ensures { module_refusal (module_at intf self.now) cport ≡ refusal_in result }
    {
        match self.at(intf) {
            Some(module) => module.may_load(cport),
            None => Err(Refusal::NoInterface),
        }
    }

    /// The firmware device at a CPort of the module at an interface begins to download the image of
    /// a tag: answers its first request.
    pub fn load(&mut self, intf: u8, cport: u16, tag: &Tag) -> Result<OwnAsk, OutOfMemory>
        requires { module_refusal (module_at intf self.old) cport ≡ None }
        ensures { IfOk result (BeginsAt intf cport tag.now (module_at intf self.old) self.old
            self.new) }
    {
        let Some(i) = self.place(intf) else {
            unreachable!();
        };
        let plugged = &mut self.plugged[i];
        let own = plugged.body.load(cport, tag)?;
        Ok(own)
    }

    /// What follows at a CPort of the module at an interface whose request ended, None exactly
    /// where none is plugged there or no download runs. Where no request can be made, the download
    /// fails in place of one.
    pub fn ended(
        &mut self,
        intf: u8,
        cport: u16,
        how: &Outcome,
        can: bool,
    ) -> Result<Option<Next>, OutOfMemory>
        ensures { IfOk result (LoadsThere can intf cport how.now self.old self.new) }
    {
        let Some(i) = self.place(intf) else {
            return Ok(None);
        };
        let plugged = &mut self.plugged[i];
        let next = ended(&mut plugged.body, cport, how, can)?;
        Ok(next)
    }

    /// At how many interfaces something is plugged.
    pub fn count(&self) -> usize
        ensures { result ≡ length self.now }
    {
        self.plugged.len()
    }

    /// The interfaces of a module, by the place of its primary one among all that are plugged. None
    /// where another stands there.
    pub fn told_at(&self, i: usize) -> Option<Span>
        ensures { result ≡ option_and_then told_span (slice_get self.now i) }
    {
        let part = self.plugged.get(i)?;
        if part.intf != part.primary {
            return None;
        }
        Some(part.span())
    }

    /// Where the module at an interface stands.
    fn place(&self, intf: u8) -> Option<usize>
        ensures first { result ≡ position_from (is_plugged_at intf) 0 self.now }
        ensures within { IfSome result (λ i. i < length self.now) }
    {
        for (i, plugged) in self.plugged.iter().enumerate() {
            if plugged.intf == intf {
                return Some(i);
            }
        }
        None
    }

    /// Where the first part at a greater interface stands, or how many there are.
    fn behind(&self, intf: u8) -> usize
        ensures first { result ≡ place_behind intf self.now }
        ensures within { result ≤ length self.now }
    {
        for (i, plugged) in self.plugged.iter().enumerate() {
            if intf < plugged.intf {
                return i;
            }
        }
        self.plugged.len()
    }
}
